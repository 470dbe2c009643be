ghost use Rattle.std.specs.Prelude.{◌≡◌, [], ◌∷◌, option_to_list};
ghost use Rattle.zk_line.specs.Decls.{decl_of, permission_of, raw_said, written, written_of};

use crate::shapes::{
    channel_parts, name_number, name_priority_truth, name_raw, name_two_numbers_raw, one_name,
    two_known,
};
use crate::types::{Arg, Decl};
use std::marker::Model;
use zk_base::{Few, Msg, Name};
use zk_words::{Choice, Kind, Valid};

/// What stands behind the name of a channel; the length of its message stands before that.
#[derive(Clone, Copy)]
pub struct Channel {
    /// The message that it has at first.
    pub message: Msg,
    /// What messages it takes.
    pub valid: Valid,
    /// Its observers, by object number.
    pub observers: Few,
}

/// A declaration as it is written: its kind, and what stands behind that.
#[derive(Drop)]
pub struct Written {
    pub kind: Kind,
    // From the left as many as there are.
    pub args: [Option<Arg>; 4],
    // Behind those.
    pub channel: Option<Channel>,
}

impl Model for Written {
    ghost use Rattle.std.specs.Prelude.{◌++◌};
    ghost use Rattle.zk_line.specs.Calls.{standing};
    ghost use Rattle.zk_line.specs.Decls.{Written as Saying, written, channel_said};

    ghost Value = { Saying };

    ghost view = { λ w. written w.kind (standing w.args ++ channel_said w.channel) };
}

/// The declaration of a kind and what stands behind it.
pub fn decl_of(kind: Kind, args: &[Arg]) -> Option<Decl>
    ensures { result ≡ decl_of kind args.now }
{
    match kind {
        Kind::Thread => {
            name_priority_truth(Choice::Mode, args).map(|p| Decl::Thread(p.0, p.1, p.2))
        }
        Kind::Queue => name_priority_truth(Choice::State, args).map(|p| Decl::Queue(p.0, p.1, p.2)),
        Kind::Item => one_name(args).map(Decl::Item),
        Kind::Sem => name_two_numbers_raw(args).map(|p| Decl::Sem(p.0, p.1, p.2, p.3)),
        Kind::Msgq => name_two_numbers_raw(args).map(|p| Decl::Msgq(p.0, p.1, p.2, p.3)),
        Kind::Signal => name_raw(args).map(|p| Decl::Signal(p.0, p.1)),
        Kind::Listener => one_name(args).map(Decl::Listener),
        Kind::Sub => name_number(args).map(|p| Decl::Sub(p.0, p.1)),
        Kind::Chan => channel_parts(args).map(|p| Decl::Chan(p.0, p.1, p.2, p.3)),
    }
}

/// The thread and the object that a permission is of, by what stands behind `allow`.
pub fn permission_of(args: &[Arg]) -> Option<(u32, u32)>
    ensures { result ≡ permission_of args.now }
{
    two_known(args)
}

/// How a declaration is written.
pub fn written_of(decl: &Decl) -> Written
    ensures { result ≡ written_of decl.now }
{
    match decl {
        Decl::Thread(name, prio, user) => playing(Kind::Thread, name, *prio, Choice::Mode, *user),
        Decl::Queue(name, prio, on) => playing(Kind::Queue, name, *prio, Choice::State, *on),
        Decl::Item(name) => named(Kind::Item, name),
        Decl::Sem(name, initial, limit, raw) => {
            numbered(Kind::Sem, name, *initial, *limit, *raw)
        }
        Decl::Msgq(name, size, capacity, raw) => {
            numbered(Kind::Msgq, name, *size, *capacity, *raw)
        }
        Decl::Signal(name, raw) => Written {
            kind: Kind::Signal,
            args: [Some(Arg::Name(*name)), raw_said(*raw), None, None],
            channel: None,
        },
        Decl::Listener(name) => named(Kind::Listener, name),
        Decl::Sub(name, capacity) => Written {
            kind: Kind::Sub,
            args: [
                Some(Arg::Name(*name)),
                Some(Arg::Number(*capacity)),
                None,
                None,
            ],
            channel: None,
        },
        Decl::Chan(name, message, valid, observers) => Written {
            kind: Kind::Chan,
            args: [Some(Arg::Name(*name)), None, None, None],
            channel: Some(Channel {
                message: *message,
                valid: *valid,
                observers: *observers,
            }),
        },
    }
}

fn named(kind: Kind, name: &Name) -> Written
    ensures { result ≡ written kind (Arg.Name name.now ∷ []) }
{
    Written {
        kind,
        args: [Some(Arg::Name(*name)), None, None, None],
        channel: None,
    }
}

fn playing(kind: Kind, name: &Name, prio: i8, choice: Choice, first: bool) -> Written
    ensures { result ≡ written kind
        (Arg.Name name.now ∷ Arg.Priority prio ∷ Arg.Truth choice first ∷ []) }
{
    Written {
        kind,
        args: [
            Some(Arg::Name(*name)),
            Some(Arg::Priority(prio)),
            Some(Arg::Truth(choice, first)),
            None,
        ],
        channel: None,
    }
}

fn numbered(kind: Kind, name: &Name, first: u32, second: u32, raw: bool) -> Written
    ensures { result ≡ written kind
        (Arg.Name name.now ∷ Arg.Number first ∷ Arg.Number second ∷ raw_said raw) }
{
    Written {
        kind,
        args: [
            Some(Arg::Name(*name)),
            Some(Arg::Number(first)),
            Some(Arg::Number(second)),
            raw_said(raw),
        ],
        channel: None,
    }
}

fn raw_said(raw: bool) -> Option<Arg>
    ensures { option_to_list result ≡ raw_said raw }
{
    if raw { Some(Arg::Raw) } else { None }
}
