ghost use Rattle.std.specs.Prelude.{◌≡◌, ℕ, true, List, ◌++◌, Option, IfSome, OnOk};

use zk_base::{NoMemory, Service};
use zk_paper::Paper;
use zk_words::Words;

/// How side scripts spell the operations and the replies of a service.
pub trait Side {
    /// The service that they ask.
    type Target: Service;

    /// The operation that the words behind a player's spell, if they spell one.
    ghost op_of: { List (List ℕ) → Option Self.Target.Op };

    /// The text of a reply, without a line feed.
    ghost reply_text: { Self.Target.Reply → List ℕ };

    /// Reads an operation. What is read is in its range.
    fn read_op(words: Words<'_>) -> Option<<Self::Target as Service>::Op>
        ensures op { result ≡ op_of words.entry }
        ensures range { (start : Self.Target.State) → IfSome result (λ op. Self.Target.machine.in_range start op ≡ true) };

    /// Appends a reply.
    fn put_reply(out: &mut Paper, reply: &<Self::Target as Service>::Reply) -> Result<(), NoMemory>
        ensures text { OnOk result (out.new.put ≡ out.old.put ++ reply_text reply.now) }
        ensures front { out.new.front ≡ out.old.front };
}
