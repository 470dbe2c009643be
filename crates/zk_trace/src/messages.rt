ghost use Rattle.std.specs.Prelude.{◌≡◌};
ghost use Rattle.zk_words.specs.Hex.{msg_of};

use zk_base::Msg;
use zk_words::{is_hex, msg_of};

/// The message that a word spells.
pub fn message_of(word: &[u8]) -> Option<Msg>
    ensures { result ≡ msg_of word.now }
{
    if is_hex(word) { msg_of(word) } else { None }
}
