ghost use Rattle.std.specs.Prelude.{◌≡◌, [], ◌∷◌, ◌++◌, map, OnOk, OnErr};
ghost use Rattle.std.specs.Fmt.{signed_decimal};
ghost use Rattle.zk_base.specs.Fronts.{StaysInFront};
ghost use Rattle.zk_line.specs.Args.{arg_text, event_text, ref_name};
ghost use Rattle.zk_line.specs.Calls.{standing, events_said};
ghost use Rattle.zk_line.specs.Decls.{channel_said, objects_said};
ghost use Rattle.zk_line.specs.Text.{said_line, decl_line, allow_line, call_line, behind};
ghost use Rattle.zk_words.specs.Events.{source_text};
ghost use Rattle.zk_words.specs.Table.{row_of};
ghost use Rattle.zk_words.specs.Timeouts.{wait_text};

use crate::calls::said_of;
use crate::decls::{Channel, written_of};
use crate::events::{Event, Events};
use crate::kinds::name_at;
use crate::types::{Arg, Call, Decl, Ref};
use itoa::Buffer;
use zk_base::{NoMemory, put, put_decimal};
use zk_words::{Head, Source, Timeout, choice_text, put_hex, put_validator, row_of, source_text};

/// Appends the line of a declaration. As below, no line feed is written, and after an error a part of
/// the line may stand behind what was there.
pub fn put_decl(out: &mut Vec<u8>, decls: &[Decl], decl: &Decl) -> Result<(), NoMemory>
    ensures text { OnOk result (out.new.items ≡ out.old.items ++ decl_line decls.now decl.now) }
    ensures kept { OnErr result (StaysInFront out.old.items out.new.items) }
{
    let written = written_of(decl);
    put_said(out, decls, Head::Declare(written.kind), &written.args)?;
    put_channel(out, decls, &written.channel)
}

/// The line of a permission: of a thread on an object, by their numbers.
pub fn put_allow(
    out: &mut Vec<u8>,
    decls: &[Decl],
    thread: u32,
    object: u32,
) -> Result<(), NoMemory>
    ensures text { OnOk result (out.new.items ≡ out.old.items ++ allow_line decls.now thread object) }
    ensures kept { OnErr result (StaysInFront out.old.items out.new.items) }
{
    let thread = Arg::Object(Ref::Known(thread));
    let object = Arg::Object(Ref::Known(object));
    put_said(out, decls, Head::Allow, &[Some(thread), Some(object)])
}

/// The line of a call.
pub fn put_call(out: &mut Vec<u8>, decls: &[Decl], call: &Call) -> Result<(), NoMemory>
    ensures text { OnOk result (out.new.items ≡ out.old.items ++ call_line decls.now call.now) }
    ensures kept { OnErr result (StaysInFront out.old.items out.new.items) }
{
    let said = said_of(call);
    put_said(out, decls, Head::Call(said.word), &said.args)?;
    put_events(out, decls, &said.events)
}

/// The line of a head and what stands behind it.
pub fn put_said(
    out: &mut Vec<u8>,
    decls: &[Decl],
    head: Head,
    args: &[Option<Arg>],
) -> Result<(), NoMemory>
    ensures text { OnOk result (out.new.items ≡ out.old.items ++ said_line decls.now head (standing args.now)) }
    ensures kept { OnErr result (StaysInFront out.old.items out.new.items) }
{
    put_first(out, head)?;
    put_args(out, decls, args)
}

fn put_first(out: &mut Vec<u8>, head: Head) -> Result<(), NoMemory>
    ensures text { OnOk result (out.new.items ≡ out.old.items ++ (row_of head).first) }
    ensures kept { OnErr result (StaysInFront out.old.items out.new.items) }
{
    put(out, row_of(head).first)
}

fn put_args(out: &mut Vec<u8>, decls: &[Decl], args: &[Option<Arg>]) -> Result<(), NoMemory>
    ensures text { OnOk result
        (out.new.items ≡ out.old.items ++ behind (map (arg_text decls.now) (standing args.now))) }
    ensures kept { OnErr result (StaysInFront out.old.items out.new.items) }
{
    let mut args = args;
    while let [arg, more @ ..] = args {
        put_some(out, decls, arg)?;
        args = more;
    }
    Ok(())
}

fn put_some(out: &mut Vec<u8>, decls: &[Decl], arg: &Option<Arg>) -> Result<(), NoMemory>
    ensures text { OnOk result
        (out.new.items ≡ out.old.items ++ behind (map (arg_text decls.now) (standing (arg.now ∷ [])))) }
    ensures kept { OnErr result (StaysInFront out.old.items out.new.items) }
{
    match arg {
        Some(arg) => {
            out.push(b' ')?;
            put_arg(out, decls, arg)
        }
        None => Ok(()),
    }
}

/// The one spelling of what a word says.
fn put_arg(out: &mut Vec<u8>, decls: &[Decl], arg: &Arg) -> Result<(), NoMemory>
    ensures text { OnOk result (out.new.items ≡ out.old.items ++ arg_text decls.now arg.now) }
    ensures kept { OnErr result (StaysInFront out.old.items out.new.items) }
{
    match arg {
        Arg::Name(name) => put(out, name.bytes()),
        Arg::Object(object) => put(out, ref_name(decls, object)),
        Arg::Number(number) => put_decimal(out, u64::from(*number)),
        Arg::Priority(prio) => put_priority(out, *prio),
        Arg::Truth(choice, truth) => put(out, choice_text(*choice, *truth)),
        Arg::Bytes(message) => put_hex(out, message.bytes()),
        Arg::Wait(wait) => put_wait(out, *wait),
        Arg::Event(event) => put_event(out, decls, event),
        Arg::Valid(valid) => put_validator(out, *valid),
        Arg::Raw => put(out, b"raw"),
    }
}

/// What stands behind the name of a channel, where there is one.
fn put_channel(out: &mut Vec<u8>, decls: &[Decl], channel: &Option<Channel>) -> Result<(), NoMemory>
    ensures text { OnOk result
        (out.new.items ≡ out.old.items ++ behind (map (arg_text decls.now) (channel_said channel.now))) }
    ensures kept { OnErr result (StaysInFront out.old.items out.new.items) }
{
    match channel {
        Some(channel) => {
            out.push(b' ')?;
            put_decimal(out, channel.message.bytes().len() as u64)?;
            out.push(b' ')?;
            put_hex(out, channel.message.bytes())?;
            out.push(b' ')?;
            put_validator(out, channel.valid)?;
            put_objects(out, decls, channel.observers.numbers())
        }
        None => Ok(()),
    }
}

fn put_objects(out: &mut Vec<u8>, decls: &[Decl], objects: &[u32]) -> Result<(), NoMemory>
    ensures text { OnOk result
        (out.new.items ≡ out.old.items ++ behind (map (arg_text decls.now) (objects_said objects.now))) }
    ensures kept { OnErr result (StaysInFront out.old.items out.new.items) }
{
    let mut objects = objects;
    while let [object, more @ ..] = objects {
        out.push(b' ')?;
        put(out, name_at(decls, *object))?;
        objects = more;
    }
    Ok(())
}

/// The events of a poll, each behind a space, where there are any.
fn put_events(out: &mut Vec<u8>, decls: &[Decl], events: &Option<Events>) -> Result<(), NoMemory>
    ensures text { OnOk result
        (out.new.items ≡ out.old.items ++ behind (map (arg_text decls.now) (events_said events.now))) }
    ensures kept { OnErr result (StaysInFront out.old.items out.new.items) }
{
    match events {
        Some(events) => put_each_event(out, decls, events.items()),
        None => Ok(()),
    }
}

fn put_each_event(out: &mut Vec<u8>, decls: &[Decl], events: &[Event]) -> Result<(), NoMemory>
    ensures text { OnOk result
        (out.new.items ≡ out.old.items ++ behind (map (arg_text decls.now) (map Arg.Event events.now))) }
    ensures kept { OnErr result (StaysInFront out.old.items out.new.items) }
{
    let mut events = events;
    while let [event, more @ ..] = events {
        out.push(b' ')?;
        put_event(out, decls, event)?;
        events = more;
    }
    Ok(())
}

fn put_event(out: &mut Vec<u8>, decls: &[Decl], event: &Event) -> Result<(), NoMemory>
    ensures text { OnOk result (out.new.items ≡ out.old.items ++ event_text decls.now event.now) }
    ensures kept { OnErr result (StaysInFront out.old.items out.new.items) }
{
    match event {
        Event::Ignore => put(out, b"ignore"),
        Event::Sem(object) => put_source(out, decls, Source::Sem, object),
        Event::Msgq(object) => put_source(out, decls, Source::Msgq, object),
        Event::Sig(object) => put_source(out, decls, Source::Signal, object),
    }
}

fn put_source(
    out: &mut Vec<u8>,
    decls: &[Decl],
    source: Source,
    object: &Ref,
) -> Result<(), NoMemory>
    ensures text { OnOk result
        (out.new.items ≡ out.old.items ++ source_text source ++ ref_name decls.now object.now) }
    ensures kept { OnErr result (StaysInFront out.old.items out.new.items) }
{
    put(out, source_text(source))?;
    put(out, ref_name(decls, object))
}

fn put_priority(out: &mut Vec<u8>, prio: i8) -> Result<(), NoMemory>
    ensures text { OnOk result (out.new.items ≡ out.old.items ++ signed_decimal prio) }
    ensures kept { OnErr result (StaysInFront out.old.items out.new.items) }
{
    let mut digits = Buffer::new();
    put(out, digits.format(prio).as_bytes())
}

fn put_wait(out: &mut Vec<u8>, wait: Timeout) -> Result<(), NoMemory>
    ensures text { OnOk result (out.new.items ≡ out.old.items ++ wait_text wait) }
    ensures kept { OnErr result (StaysInFront out.old.items out.new.items) }
{
    match wait {
        Timeout::No => put(out, b"no"),
        Timeout::Forever => put(out, b"forever"),
        Timeout::Ticks(ticks) => put_decimal(out, u64::from(ticks)),
    }
}

/// The name of an object that a call names.
fn ref_name<'a>(decls: &'a [Decl], object: &'a Ref) -> &'a [u8]
    ensures { result.now ≡ ref_name decls.now object.now }
{
    match object {
        Ref::Known(object) => name_at(decls, *object),
        Ref::Unknown(name) => name.bytes(),
    }
}
