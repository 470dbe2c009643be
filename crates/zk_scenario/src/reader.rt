ghost use Rattle.std.specs.Prelude.{◌≡◌, true, false, None, Some, Ok, OnOk, OnErr, IfOk, IsSome, is_some, [], option_map, option_and_then};
ghost use Rattle.zk_words.specs.declared.word.Head.TheVariants as head;
ghost use Rattle.zk_words.specs.Lines.{line_behind, line_of, IsForm};
ghost use Rattle.zk_line.specs.Args.{args_of};
ghost use Rattle.zk_line.specs.Objects.{object_of, name_of, is_item, is_listener};
ghost use Rattle.zk_line.specs.Weights.{or_wrong};
ghost use Rattle.zk_scenario.specs.Grammar.{read_line, taken, told, answered, accepted};
ghost use Rattle.zk_scenario.specs.Free.{next_is_free, is_free_line};
ghost use Rattle.zk_scenario.specs.Reading.{start, declared, permitted, called, closed, with_call, parts_of};
ghost use Rattle.zk_scenario.specs.Valid.{IsValid, is_supervisors, makes_user};
ghost use Rattle.zk_scenario.specs.Verdict.{has_begun, has_script, is_within, is_barred, may_call, is_misplaced, most, is_full, is_past_limit, is_said_before, verdict, Judges, opened, after};

use crate::limits::{
    MOST_CALLS, MOST_CHANS, MOST_ITEMS, MOST_MSGQS, MOST_OBSERVERS, MOST_QUEUES, MOST_SEMS,
    MOST_SIGNALS,
};
use crate::pairs::Pairs;
use crate::refused::Why;
use crate::scripts::Scripts;
use crate::types::Script;
use std::alloc::Global;
use std::array;
use std::marker::Model;
use zk_base::{Listed, MOST_PLAYERS, NoMemory, make_room_for_one, push_within};
use zk_line::{
    Arg, Args, Call, Decl, Declared, Objects, Ref, Wrong, decl_of, first_object, has_many_events,
    has_many_observers, is_item_at, is_listener_at, is_user_at, is_user_call, judge_words,
    permission_of, put_call_of, say_words,
};
use zk_words::{Head, Kind, Line, Parts, Word, Words, call_row, head_of, line_of, makes_player};

/// What the lines read so far said.
#[derive(Drop)]
pub struct Reader {
    objects: Objects,
    // The lines among the declarations, of objects and of permissions.
    written: Vec<Declared>,
    // The permissions among them: the numbers of the thread and of the object.
    permissions: Pairs,
    // The scripts that have ended.
    scripts: Scripts,
    // The script that is open.
    current: Option<Script>,
    // How many calls all scripts have, the open one too.
    calls: u32,
    // Whether a call in the open script would stand in a free line.
    free: bool,
}

impl Model for Reader {
    ghost use Rattle.zk_scenario.specs.Kept.{IsKept};
    ghost use Rattle.zk_scenario.specs.Reading.{Reading};

    ghost Value = { Reading };

    ghost view = { λ a. record {
      decls = a.objects;
      written = a.written.items;
      scripts = a.scripts;
      current = a.current;
    } };

    ghost invariant = { λ a. IsKept (record {
      decls = a.objects;
      written = a.written.items;
      scripts = a.scripts;
      current = a.current;
    }) a.calls a.free a.permissions };
}

impl Reader {
    /// Nothing read but the header. It takes no memory.
    pub fn new(alloc: Global) -> Reader
        ensures { result ≡ start }
    {
        Reader {
            objects: Objects::new(alloc),
            written: Vec::new(alloc),
            permissions: Pairs::new(alloc),
            scripts: Scripts::new(alloc),
            current: None,
            calls: 0,
            free: false,
        }
    }

    fn has_begun(&self) -> bool
        ensures { result ≡ has_begun self.now }
    {
        self.current.is_some() || 0 < self.scripts.scripts().len()
    }

    fn has_script(&self, object: Option<u32>) -> bool
        ensures { result ≡ has_script self.now object }
    {
        match object {
            Some(owner) => self.scripts.find(owner).is_some(),
            None => false,
        }
    }

    fn next_is_free(&self) -> bool
        ensures { result ≡ next_is_free self.now }
    {
        self.free
    }

    /// Whether a line is free.
    fn is_free_line(&self, head: Head) -> bool
        ensures { result ≡ is_free_line self.now head }
    {
        match head {
            Head::Call(_) => self.next_is_free(),
            _ => false,
        }
    }

    fn is_within_listener(&self) -> bool
        ensures { result ≡ is_within is_listener self.now }
    {
        match &self.current {
            Some(script) => is_listener_at(self.objects.decls(), script.owner),
            None => false,
        }
    }

    fn is_within_item(&self) -> bool
        ensures { result ≡ is_within is_item self.now }
    {
        match &self.current {
            Some(script) => is_item_at(self.objects.decls(), script.owner),
            None => false,
        }
    }

    /// Whether a call is one that may not stand in the open script.
    fn is_barred(&self, word: Word) -> bool
        ensures { result ≡ is_barred self.now word }
    {
        is_supervisors(word) && (self.next_is_free() || self.is_within_listener())
            || makes_user(word) && self.is_within_item()
    }

    /// Whether a call may be the next line, whatever stands behind its word.
    fn may_call(&self, word: Word) -> bool
        ensures { result ≡ may_call self.now word }
    {
        self.current.is_some() && !self.is_barred(word) && self.calls < MOST_CALLS
    }

    /// Whether the line may not stand there.
    fn is_misplaced(&self, head: Head, parts: &Parts<'_>) -> bool
        ensures { result ≡ is_misplaced self.now head parts.now }
    {
        match head {
            Head::Declare(_) => self.has_begun(),
            Head::Allow => self.has_begun(),
            Head::Script => {
                self.current.is_some() || self.has_script(first_object(&self.objects, parts))
            }
            Head::End => !self.current.is_some(),
            Head::Call(word) => !self.current.is_some() || self.is_barred(word),
        }
    }

    /// Whether there may be no further object of a kind.
    fn is_full(&self, kind: Kind) -> bool
        ensures { result ≡ is_full self.now.decls kind }
    {
        most(kind) <= self.objects.count(kind)
            || makes_player(kind) && MOST_PLAYERS as usize <= self.objects.player_count()
    }

    /// Whether the line passes a limit.
    fn is_past_limit(&self, head: Head, parts: &Parts<'_>) -> bool
        ensures { result ≡ is_past_limit self.now head parts.now }
    {
        match head {
            Head::Declare(kind) => self.is_full(kind) || has_many_observers(parts),
            Head::Allow => false,
            Head::Script => false,
            Head::End => false,
            Head::Call(_) => MOST_CALLS <= self.calls || has_many_events(parts),
        }
    }

    /// The first reason that applies to a line behind those read. Where none does, the arguments are what
    /// the line's words say.
    fn judge(&self, args: &mut Args, head: Head, parts: &Parts<'_>) -> Result<Option<Why>, NoMemory>
        requires empty { args.old ≡ [] }
        requires form { IsForm head parts.now }
        ensures { IfOk result (λ reason. Judges self.now head parts.now (or_wrong reason args.new)) }
    {
        if self.is_misplaced(head, parts) {
            return Ok(Some(Why::Order));
        }
        match judge_words(args, &self.objects, self.is_free_line(head), head, parts)? {
            Some(Wrong::OutOfRange) => Ok(Some(Why::Number)),
            Some(Wrong::Misnamed) => Ok(Some(Why::Name)),
            None => {
                if self.is_said_before(head, args.items()) {
                    Ok(Some(Why::Name))
                } else if self.is_past_limit(head, parts) {
                    Ok(Some(Why::Limit))
                } else {
                    Ok(None)
                }
            }
        }
    }

    /// Whether a line says a permission that was said before.
    fn is_said_before(&self, head: Head, args: &[Arg]) -> bool
        ensures { result ≡ is_said_before self.now head args.now }
    {
        match head {
            Head::Allow => match permission_of(args) {
                Some((thread, object)) => self.permissions.has(thread, object),
                None => false,
            },
            _ => false,
        }
    }

    /// Reads a line without its line feed. The answer is the reason why it is refused, if it is. The arguments
    /// and the call are room for what its words say: what stood there is lost.
    pub fn read_line(
        &mut self,
        alloc: Global,
        args: &mut Args,
        room: &mut Call,
        line: &[u8],
    ) -> Result<Option<Why>, NoMemory>
        ensures { IfOk result (λ refusal. read_line self.old line.now ≡ answered refusal self.new) }
    {
        if self.read_call(args, room, line)? {
            Ok(None)
        } else {
            let refusal = self.weigh_line(alloc, args, line)?;
            Ok(refusal)
        }
    }

    /// Reads a line that makes a call, each of its words looked at once. The answer is whether it is taken; where it isn't,
    /// it is another line, or a reason speaks against it.
    fn read_call(&mut self, args: &mut Args, room: &mut Call, line: &[u8]) -> Result<bool, NoMemory>
        ensures taken { IfOk result (λ done. done ≡ true → read_line self.old line.now ≡ Ok self.new) }
        ensures unchanged { IfOk result (λ done. done ≡ false → self.new ≡ self.old) }
    {
        let mut words = Words::of(line);
        let Some(first) = words.next() else {
            return Ok(false);
        };
        let Some(Head::Call(word)) = head_of(first) else {
            return Ok(false);
        };
        let done = self.read_call_of(args, room, word, words)?;
        Ok(done)
    }

    /// Reads the words behind the first of a call.
    fn read_call_of(
        &mut self,
        args: &mut Args,
        room: &mut Call,
        word: Word,
        words: Words<'_>,
    ) -> Result<bool, NoMemory>
        ensures taken { IfOk result (λ done. done ≡ true
            → taken self.old (line_behind (head.Call word) words.entry) ≡ Ok self.new) }
        ensures unchanged { IfOk result (λ done. done ≡ false → self.new ≡ self.old) }
    {
        if !self.may_call(word) {
            return Ok(false);
        }
        args.clear();
        let free = self.next_is_free();
        if !say_words(args, &self.objects, free, &call_row(word), words)? {
            return Ok(false);
        }
        if !put_call_of(room, word, args.items()) {
            return Ok(false);
        }
        self.call(room)?;
        Ok(true)
    }

    /// Reads a line by the first reason that applies to it.
    fn weigh_line(
        &mut self,
        alloc: Global,
        args: &mut Args,
        line: &[u8],
    ) -> Result<Option<Why>, NoMemory>
        ensures { IfOk result (λ refusal. read_line self.old line.now ≡ answered refusal self.new) }
    {
        match line_of(line) {
            Line::Misspelled => Ok(Some(Why::Line)),
            Line::Formed(head, parts) => self.read_form(alloc, args, head, &parts),
        }
    }

    fn read_form(
        &mut self,
        alloc: Global,
        args: &mut Args,
        head: Head,
        parts: &Parts<'_>,
    ) -> Result<Option<Why>, NoMemory>
        requires { IsForm head parts.now }
        ensures { IfOk result (λ refusal.
            told (verdict self.old head parts.now) (after self.old head parts.now) ≡ answered refusal self.new) }
    {
        args.clear();
        if let Some(reason) = self.judge(args, head, parts)? {
            return Ok(Some(reason));
        }
        if self.accept(alloc, head, parts, args.items())? {
            Ok(None)
        } else {
            Ok(Some(Why::Line))
        }
    }

    /// The objects, the lines of their declarations and of permissions, and the scripts that have ended.
    pub fn into_parts(self) -> (Objects, Vec<Declared>, Scripts)
        ensures objects { result.0 ≡ self.decls }
        ensures written { result.1.items ≡ self.written }
        ensures scripts { result.2 ≡ self.scripts }
    {
        let Reader {
            objects,
            written,
            permissions: _,
            scripts,
            current: _,
            calls: _,
            free: _,
        } = self;
        (objects, written, scripts)
    }

    /// Whether a script is open.
    pub fn is_open(&self) -> bool
        ensures { result ≡ is_some self.now.current }
    {
        self.current.is_some()
    }

    /// Takes a line to which no reason applies. The answer is whether it says something.
    fn accept(
        &mut self,
        alloc: Global,
        head: Head,
        parts: &Parts<'_>,
        args: &[Arg],
    ) -> Result<bool, NoMemory>
        requires form { IsForm head parts.now }
        requires passes { verdict self.old head parts.now ≡ None }
        requires said { args_of self.old.decls parts.now ≡ Some args.now }
        ensures { IfOk result (λ done. after self.old head parts.now ≡ accepted done self.new) }
    {
        match head {
            Head::Declare(kind) => self.accept_decl(alloc, kind, parts, args),
            Head::Allow => self.accept_allow(parts, args),
            Head::Script => Ok(self.accept_script(alloc, parts)),
            Head::End => {
                self.end()?;
                Ok(true)
            }
            Head::Call(word) => self.accept_call(word, parts, args),
        }
    }

    fn accept_decl(
        &mut self,
        alloc: Global,
        kind: Kind,
        parts: &Parts<'_>,
        args: &[Arg],
    ) -> Result<bool, NoMemory>
        requires form { IsForm (Head.Declare kind) parts.now }
        requires passes { verdict self.old (Head.Declare kind) parts.now ≡ None }
        requires said { args_of self.old.decls parts.now ≡ Some args.now }
        ensures { IfOk result (λ done. after self.old (Head.Declare kind) parts.now ≡ accepted done self.new) }
    {
        let _valid = &self.calls;
        let Some(decl) = decl_of(kind, args) else {
            return Ok(false);
        };
        self.declare(alloc, decl)?;
        Ok(true)
    }

    fn accept_allow(&mut self, parts: &Parts<'_>, args: &[Arg]) -> Result<bool, NoMemory>
        requires form { IsForm Head.Allow parts.now }
        requires passes { verdict self.old Head.Allow parts.now ≡ None }
        requires said { args_of self.old.decls parts.now ≡ Some args.now }
        ensures { IfOk result (λ done. after self.old Head.Allow parts.now ≡ accepted done self.new) }
    {
        let _valid = &self.calls;
        let Some((thread, object)) = permission_of(args) else {
            return Ok(false);
        };
        self.allow(thread, object)?;
        Ok(true)
    }

    fn accept_script(&mut self, alloc: Global, parts: &Parts<'_>) -> bool
        requires form { IsForm Head.Script parts.now }
        requires passes { verdict self.old Head.Script parts.now ≡ None }
        ensures { after self.old Head.Script parts.now ≡ accepted result self.new }
    {
        let _valid = &self.calls;
        let Some(owner) = first_object(&self.objects, parts) else {
            return false;
        };
        self.open(alloc, owner);
        true
    }

    fn accept_call(&mut self, word: Word, parts: &Parts<'_>, args: &[Arg]) -> Result<bool, NoMemory>
        requires form { IsForm (Head.Call word) parts.now }
        requires passes { verdict self.old (Head.Call word) parts.now ≡ None }
        requires said { args_of self.old.decls parts.now ≡ Some args.now }
        ensures { IfOk result (λ done. after self.old (Head.Call word) parts.now ≡ accepted done self.new) }
    {
        let _valid = &self.calls;
        let mut call = Call::User;
        if !put_call_of(&mut call, word, args) {
            return Ok(false);
        }
        self.call(&call)?;
        Ok(true)
    }

    /// One declaration more.
    fn declare(&mut self, alloc: Global, decl: Decl) -> Result<(), NoMemory>
        requires between { self.old.current ≡ None }
        requires fresh { object_of self.old.decls (name_of decl) ≡ None }
        requires valid { IsValid (parts_of (declared self.old decl)) }
        ensures ok { OnOk result (self.new ≡ declared self.old decl) }
        ensures unchanged { OnErr result (self.new ≡ self.old) }
    {
        make_room_for_one(&mut self.written)?;
        let object = self.objects.decls().len() as u32;
        self.objects.push(alloc, decl)?;
        push_within(&mut self.written, Declared::Object(object));
        Ok(())
    }

    /// One permission more.
    fn allow(&mut self, thread: u32, object: u32) -> Result<(), NoMemory>
        requires { IsValid (parts_of (permitted self.old thread object)) }
        ensures ok { OnOk result (self.new ≡ permitted self.old thread object) }
        ensures unchanged { OnErr result (self.new ≡ self.old) }
    {
        make_room_for_one(&mut self.written)?;
        self.permissions.insert(thread, object)?;
        push_within(&mut self.written, Declared::Allow(thread, object));
        Ok(())
    }

    /// A script begins.
    fn open(&mut self, alloc: Global, owner: u32)
        requires between { self.old.current ≡ None }
        requires valid { IsValid (parts_of (opened self.old owner)) }
        ensures { self.new ≡ opened self.old owner }
    {
        self.free = is_user_at(self.objects.decls(), owner);
        self.current = Some(Script {
            owner,
            calls: Listed::new(alloc),
        });
    }

    /// One call more in the open script.
    fn call(&mut self, call: &Call) -> Result<(), NoMemory>
        requires inside { IsSome self.old.current }
        requires valid { IsValid (parts_of (called self.old call.now)) }
        ensures ok { OnOk result (self.new ≡ called self.old call.now) }
        ensures unchanged { OnErr result (self.new ≡ self.old) }
    {
        push_call(&mut self.current, call)?;
        self.calls += 1;
        self.free = self.free || is_user_call(call);
        Ok(())
    }

    /// The open script ends.
    fn end(&mut self) -> Result<(), NoMemory>
        requires { IsSome self.old.current }
        ensures ok { OnOk result (self.new ≡ closed self.old) }
        ensures unchanged { OnErr result (self.new ≡ self.old) }
    {
        let Some(script) = self.current.take() else {
            return Ok(());
        };
        match self.scripts.push(script) {
            Ok(()) => {
                self.free = false;
                Ok(())
            }
            Err(script) => {
                self.current = Some(script);
                Err(NoMemory)
            }
        }
    }
}

/// How many objects of a kind there may be.
fn most(kind: Kind) -> usize
    ensures { result ≡ most kind }
{
    match kind {
        Kind::Thread => MOST_PLAYERS as usize,
        Kind::Queue => MOST_QUEUES,
        Kind::Item => MOST_ITEMS,
        Kind::Sem => MOST_SEMS,
        Kind::Msgq => MOST_MSGQS,
        Kind::Signal => MOST_SIGNALS,
        Kind::Listener => MOST_OBSERVERS,
        Kind::Sub => MOST_OBSERVERS,
        Kind::Chan => MOST_CHANS,
    }
}

/// One call more in the script, if there is one.
fn push_call(current: &mut Option<Script>, call: &Call) -> Result<(), NoMemory>
    ensures ok { OnOk result (current.new ≡ option_map (with_call call.now) current.old) }
    ensures unchanged { OnErr result (current.new ≡ current.old) }
{
    let _known: Option<Ref> = None;
    match current {
        Some(script) => script.calls.extend_from_slice(array::from_ref(call)),
        None => Ok(()),
    }
}

/// Whether a call is a supervisor's: it takes a permission away, gives one to all, initialises, or makes its caller a user.
fn is_supervisors(word: Word) -> bool
    ensures { result ≡ is_supervisors word }
{
    match word {
        Word::Revoke => true,
        Word::Public => true,
        Word::Init => true,
        Word::User => true,
        _ => false,
    }
}

fn makes_user(word: Word) -> bool
    ensures { result ≡ makes_user word }
{
    match word {
        Word::User => true,
        _ => false,
    }
}
