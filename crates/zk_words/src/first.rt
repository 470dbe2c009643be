ghost use Rattle.std.specs.Prelude.{◌≡◌, true, IfSome};
ghost use Rattle.std.specs.Str.{bytes_eq};
ghost use Rattle.zk_words.specs.Lines.{head_of};
ghost use Rattle.zk_words.specs.Table.{row_of};

use crate::matching::is_same;
use crate::table::head_among;
use crate::word::{Head, Word};
use zk_base::Kind;

/// The head of the line that this word begins. The first letter leaves few heads to compare with.
#[tactic(auto, using(crate::proofs::Heads::head_of_first))]
pub fn head_of(first: &[u8]) -> Option<Head>
    ensures { result ≡ head_of first.now }
{
    match head_by_letter(first) {
        Some(head) => Some(head),
        None => head_among(first),
    }
}

/// The head that is given with the first of the texts which the word is, if it is one of them.
macro_rules! first_of {
    ($first:expr; $($text:expr => $head:expr),+ $(,)?) => {
        $(
            if is_same($first, $text) {
                return Some($head);
            }
        )+
    };
}

fn head_by_letter(first: &[u8]) -> Option<Head>
    ensures { IfSome result (λ head. bytes_eq first.now (row_of head).first ≡ true) }
{
    let [letter, ..] = first else {
        return None;
    };
    match *letter {
        b'c' => head_by_c(first),
        b'p' => head_by_p(first),
        b'r' => head_by_r(first),
        b's' => head_by_s(first),
        b'a'..=b'g' => head_up_to_g(first),
        _ => head_behind_g(first),
    }
}

fn head_by_c(first: &[u8]) -> Option<Head>
    ensures { IfSome result (λ head. bytes_eq first.now (row_of head).first ≡ true) }
{
    first_of!(
        first;
        b"count" => Head::Call(Word::Count),
        b"cancel" => Head::Call(Word::Cancel),
        b"cancelsync" => Head::Call(Word::CancelSync),
        b"check" => Head::Call(Word::Check),
        b"clear" => Head::Call(Word::Clear),
        b"claim" => Head::Call(Word::Claim),
        b"chan" => Head::Declare(Kind::Chan),
    );
    None
}

fn head_by_p(first: &[u8]) -> Option<Head>
    ensures { IfSome result (λ head. bytes_eq first.now (row_of head).first ≡ true) }
{
    first_of!(
        first;
        b"put" => Head::Call(Word::Put),
        b"putfront" => Head::Call(Word::PutFront),
        b"poll" => Head::Call(Word::Poll),
        b"publish" => Head::Call(Word::Publish),
        b"peek" => Head::Call(Word::Peek),
        b"peekat" => Head::Call(Word::PeekAt),
        b"purge" => Head::Call(Word::Purge),
        b"public" => Head::Call(Word::Public),
    );
    None
}

fn head_by_r(first: &[u8]) -> Option<Head>
    ensures { IfSome result (λ head. bytes_eq first.now (row_of head).first ≡ true) }
{
    first_of!(
        first;
        b"raise" => Head::Call(Word::Raise),
        b"reset" => Head::Call(Word::Reset),
        b"read" => Head::Call(Word::Read),
        b"reschedule" => Head::Call(Word::Reschedule),
        b"remaining" => Head::Call(Word::Remaining),
        b"release" => Head::Call(Word::Release),
        b"revoke" => Head::Call(Word::Revoke),
    );
    None
}

fn head_by_s(first: &[u8]) -> Option<Head>
    ensures { IfSome result (λ head. bytes_eq first.now (row_of head).first ≡ true) }
{
    first_of!(
        first;
        b"submit" => Head::Call(Word::Submit),
        b"schedule" => Head::Call(Word::Schedule),
        b"subwait" => Head::Call(Word::SubWait),
        b"start" => Head::Call(Word::Start),
        b"stop" => Head::Call(Word::Stop),
        b"script" => Head::Script,
        b"sem" => Head::Declare(Kind::Sem),
        b"sub" => Head::Declare(Kind::Sub),
        b"signal" => Head::Declare(Kind::Signal),
    );
    None
}

fn head_up_to_g(first: &[u8]) -> Option<Head>
    ensures { IfSome result (λ head. bytes_eq first.now (row_of head).first ≡ true) }
{
    first_of!(
        first;
        b"give" => Head::Call(Word::Give),
        b"get" => Head::Call(Word::Get),
        b"end" => Head::End,
        b"busy" => Head::Call(Word::Busy),
        b"flush" => Head::Call(Word::Flush),
        b"free" => Head::Call(Word::Free),
        b"finish" => Head::Call(Word::Finish),
        b"enable" => Head::Call(Word::Enable),
        b"drain" => Head::Call(Word::Drain),
        b"grant" => Head::Call(Word::Grant),
        b"allow" => Head::Allow,
    );
    None
}

fn head_behind_g(first: &[u8]) -> Option<Head>
    ensures { IfSome result (λ head. bytes_eq first.now (row_of head).first ≡ true) }
{
    first_of!(
        first;
        b"take" => Head::Call(Word::Take),
        b"tick" => Head::Call(Word::Tick),
        b"notify" => Head::Call(Word::Notify),
        b"used" => Head::Call(Word::Used),
        b"user" => Head::Call(Word::User),
        b"unplug" => Head::Call(Word::Unplug),
        b"mask" => Head::Call(Word::Mask),
        b"init" => Head::Call(Word::Init),
        b"item" => Head::Declare(Kind::Item),
        b"thread" => Head::Declare(Kind::Thread),
        b"queue" => Head::Declare(Kind::Queue),
        b"msgq" => Head::Declare(Kind::Msgq),
        b"listener" => Head::Declare(Kind::Listener),
    );
    None
}
