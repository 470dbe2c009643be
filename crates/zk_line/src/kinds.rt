ghost use Rattle.std.specs.Prelude.{◌≡◌};
ghost use Rattle.zk_line.specs.Objects.{kind_of, name_of, is_at, is_item, is_listener, is_user, is_met, name_at, plays_script, can_be_raw, size_at};

use crate::types::Decl;
use zk_words::{Kind, Need, can_be_raw, plays_script, same_kind};

/// The kind of what is declared.
pub fn kind_of(decl: &Decl) -> Kind
    ensures { result ≡ kind_of decl.now }
{
    match decl {
        Decl::Thread(..) => Kind::Thread,
        Decl::Queue(..) => Kind::Queue,
        Decl::Item(_) => Kind::Item,
        Decl::Sem(..) => Kind::Sem,
        Decl::Msgq(..) => Kind::Msgq,
        Decl::Signal(..) => Kind::Signal,
        Decl::Listener(_) => Kind::Listener,
        Decl::Sub(..) => Kind::Sub,
        Decl::Chan(..) => Kind::Chan,
    }
}

/// The name that a declaration gives.
pub fn name_of(decl: &Decl) -> &[u8]
    ensures { result.now ≡ name_of decl.now }
{
    match decl {
        Decl::Thread(name, _, _) => name.bytes(),
        Decl::Queue(name, _, _) => name.bytes(),
        Decl::Item(name) => name.bytes(),
        Decl::Sem(name, _, _, _) => name.bytes(),
        Decl::Msgq(name, _, _, _) => name.bytes(),
        Decl::Signal(name, _) => name.bytes(),
        Decl::Listener(name) => name.bytes(),
        Decl::Sub(name, _) => name.bytes(),
        Decl::Chan(name, _, _, _) => name.bytes(),
    }
}

/// The name of an object; none is no name.
pub fn name_at(decls: &[Decl], object: u32) -> &[u8]
    ensures { result.now ≡ name_at decls.now object }
{
    match decls.get(object as usize) {
        Some(decl) => name_of(decl),
        None => &[],
    }
}

/// Whether an object is declared, and can play a script.
pub fn plays_at(decls: &[Decl], object: u32) -> bool
    ensures { result ≡ is_at plays_script decls.now object }
{
    match decls.get(object as usize) {
        Some(decl) => plays_script(kind_of(decl)),
        None => false,
    }
}

/// Whether an object is declared, and is a work item.
pub fn is_item_at(decls: &[Decl], object: u32) -> bool
    ensures { result ≡ is_at is_item decls.now object }
{
    match decls.get(object as usize) {
        Some(decl) => same_kind(kind_of(decl), Kind::Item),
        None => false,
    }
}

/// Whether an object is declared, and is a listener.
pub fn is_listener_at(decls: &[Decl], object: u32) -> bool
    ensures { result ≡ is_at is_listener decls.now object }
{
    match decls.get(object as usize) {
        Some(decl) => same_kind(kind_of(decl), Kind::Listener),
        None => false,
    }
}

/// Whether an object is declared, and is a thread that is a user.
pub fn is_user_at(decls: &[Decl], object: u32) -> bool
    ensures { result ≡ is_at is_user decls.now object }
{
    match decls.get(object as usize) {
        Some(Decl::Thread(_, _, user)) => *user,
        _ => false,
    }
}

/// Whether an object is declared, and can be declared as not initialised.
pub fn can_be_raw_at(decls: &[Decl], object: u32) -> bool
    ensures { result ≡ is_at can_be_raw decls.now object }
{
    match decls.get(object as usize) {
        Some(decl) => can_be_raw(kind_of(decl)),
        None => false,
    }
}

/// Whether an object is declared, and meets a need.
pub fn meets_at(need: Need, decls: &[Decl], object: u32) -> bool
    ensures { result ≡ is_at (is_met need) decls.now object }
{
    match decls.get(object as usize) {
        Some(decl) => need.is_met_by(kind_of(decl)),
        None => false,
    }
}

/// How many bytes each message of an object has, if it is one that has messages.
pub fn size_at(decls: &[Decl], object: u32) -> Option<usize>
    ensures { result ≡ size_at decls.now object }
{
    match decls.get(object as usize) {
        Some(Decl::Msgq(_, size, _, _)) => Some(*size as usize),
        Some(Decl::Chan(_, message, _, _)) => Some(message.bytes().len()),
        _ => None,
    }
}
