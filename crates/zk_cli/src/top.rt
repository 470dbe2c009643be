ghost use Rattle.std.specs.Prelude.{◌≡◌, ◌≢◌, ◌⊎◌, Some, None, map, IfSome, string_bytes};
ghost use Rattle.std.specs.Io.KnownBytes.{Appends, Keeps};
ghost use Rattle.zk_base.specs.Causes.{Rose};
ghost use Rattle.zk_forms.specs.Input.{GaveAtMost};
ghost use Rattle.zk_forms.specs.Output.{AppendsFront};
ghost use Rattle.zk_forms.specs.declared.form.Form.TheVariants.{Replay, Check, Migrate, Trigger, Event};
ghost use Rattle.zk_forms.specs.Top.{form_of, input_of, IsOutputOf, words_refused, Prints, PrintsFront, HasReadAll, IsAnswer, HasInput, MayEnd, CallOutcome, most_taken};

use std::alloc::Global;
use zk_base::{Sink, Source, Status};
use zk_forms::{
    Form, NoInput, check_output, events_output, form_of, limit_of, migrate_output, output_of,
    read_input, refuse_words, soak_output, triggers_output, write_made,
};

/// The program over any source and any sink. `replay` reads a scenario, plays it on one thread by round robin, and prints
/// the scenario's text and the trace. `check` reads that again, and says whether the trace is lawful for the scenario, or at
/// which line it isn't, and why. `migrate` reads that in format 1, and prints it in format 2. `trigger`
/// plays a side script of triggered work, `event` one of an event object. `soak N` plays the generated scenario of that number and
/// checks its trace. It always returns. The words of `run N` and of `feed P S N` are for `zk_run`, and are refused here.
///
/// The words are those behind the program's name. The whole output is made in memory and then written, piece after
/// piece; writing takes no memory. What is said of the input and the output is said where the source and the sink tell
/// their bytes.
pub fn zk_plain<S: Source, K: Sink>(
    alloc: Global,
    words: &[String],
    source: &mut S,
    sink: &mut K,
) -> Status
    // What each status that prints a form's whole output says of it and the input.
    ensures prints { (form : Form) → form_of (map string_bytes words.now) ≡ Some form → IsAnswer result →
        Prints (input_of form (S.left source.old)) (K.held sink.old) (K.held sink.new) (IsOutputOf form result) }
    ensures words { result ≡ Status.Words → Appends (K.held sink.old) (K.held sink.new) words_refused }

    // When each status comes.
    ensures a_form { result ≡ Status.Words → form_of (map string_bytes words.now) ≡ None }
    ensures no_form { form_of (map string_bytes words.now) ≡ None →
        (result ≡ Status.Words) ⊎ (result ≡ Status.WriteFault) }
    ensures complete { (form : Form) → form_of (map string_bytes words.now) ≡ Some form →
        IfSome (input_of form (S.left source.old)) (λ input. MayEnd form input result) }
    ensures read_fault { result ≡ Status.ReadFault → Rose (S.faults source.old) (S.faults source.new) }
    ensures write_fault { result ≡ Status.WriteFault → Rose (K.faults sink.old) (K.faults sink.new) }

    // Each count of faults stays but for its own status.
    ensures reads { result ≢ Status.ReadFault → S.faults source.new ≡ S.faults source.old }
    ensures writes { result ≢ Status.WriteFault → K.faults sink.new ≡ K.faults sink.old }

    // Where nothing, or not all, was written.
    ensures nothing { (result ≡ Status.ReadFault) ⊎ (result ≡ Status.NoMemory) →
        Keeps (K.held sink.old) (K.held sink.new) }
    ensures front { (form : Form) → form_of (map string_bytes words.now) ≡ Some form → result ≡ Status.WriteFault →
        PrintsFront form (S.left source.old) (K.held sink.old) (K.held sink.new) }
    ensures words_front { form_of (map string_bytes words.now) ≡ None → result ≡ Status.WriteFault →
        AppendsFront (K.held sink.old) (K.held sink.new) words_refused }

    // Where the input was read to its end, or to one byte above the form's limit.
    ensures read { (form : Form) → form_of (map string_bytes words.now) ≡ Some form → HasInput result →
        HasReadAll form (S.left source.old) (S.left source.new) }
    // However it ends, no more is taken than that.
    ensures most { GaveAtMost (most_taken (form_of (map string_bytes words.now))) (S.left source.old) (S.left source.new) }
{
    plain(alloc, words, source, sink)
}

fn plain<S: Source, K: Sink>(
    alloc: Global,
    words: &[String],
    source: &mut S,
    sink: &mut K,
) -> Status
    ensures most { GaveAtMost (most_taken (form_of (map string_bytes words.now))) (S.left source.old) (S.left source.new) }
    ensures went { CallOutcome (form_of (map string_bytes words.now)) (S.left source.old) (S.left source.new) (K.held
        sink.old) (K.held sink.new)
        (S.faults source.old) (S.faults source.new) (K.faults sink.old) (K.faults sink.new) result }
    ensures reads { result ≢ Status.ReadFault → S.faults source.new ≡ S.faults source.old }
    ensures writes { result ≢ Status.WriteFault → K.faults sink.new ≡ K.faults sink.old }
{
    match form_of(words) {
        None => refuse_words(sink),
        Some(Form::Replay) => answer_replay(alloc, source, sink),
        Some(Form::Check) => answer_check(alloc, source, sink),
        Some(Form::Migrate) => answer_migrate(alloc, source, sink),
        Some(Form::Trigger) => answer_trigger(alloc, source, sink),
        Some(Form::Event) => answer_event(alloc, source, sink),
        Some(Form::Soak(number)) => write_made(sink, soak_output(alloc, number)),
        Some(Form::Run(_) | Form::Feed(_)) => unreachable!(),
    }
}

/// Reads the input of `replay`, and prints the output for it.
fn answer_replay<S: Source, K: Sink>(alloc: Global, source: &mut S, sink: &mut K) -> Status
    ensures most { GaveAtMost (most_taken (Some Replay)) (S.left source.old) (S.left source.new) }
    ensures went { CallOutcome (Some Replay) (S.left source.old) (S.left source.new) (K.held sink.old) (K.held sink.new)
        (S.faults source.old) (S.faults source.new) (K.faults sink.old) (K.faults sink.new) result }
    ensures reads { result ≢ Status.ReadFault → S.faults source.new ≡ S.faults source.old }
    ensures writes { result ≢ Status.WriteFault → K.faults sink.new ≡ K.faults sink.old }
{
    match read_input(alloc, source, limit_of(Form::Replay)) {
        Ok(input) => write_made(sink, output_of(alloc, input)),
        Err(NoInput::Fault) => Status::ReadFault,
        Err(NoInput::NoMemory) => Status::NoMemory,
    }
}

/// Reads the input of `check`, and prints the output for it.
fn answer_check<S: Source, K: Sink>(alloc: Global, source: &mut S, sink: &mut K) -> Status
    ensures most { GaveAtMost (most_taken (Some Check)) (S.left source.old) (S.left source.new) }
    ensures went { CallOutcome (Some Check) (S.left source.old) (S.left source.new) (K.held sink.old) (K.held sink.new)
        (S.faults source.old) (S.faults source.new) (K.faults sink.old) (K.faults sink.new) result }
    ensures reads { result ≢ Status.ReadFault → S.faults source.new ≡ S.faults source.old }
    ensures writes { result ≢ Status.WriteFault → K.faults sink.new ≡ K.faults sink.old }
{
    match read_input(alloc, source, limit_of(Form::Check)) {
        Ok(input) => write_made(sink, check_output(alloc, input)),
        Err(NoInput::Fault) => Status::ReadFault,
        Err(NoInput::NoMemory) => Status::NoMemory,
    }
}

/// Reads the input of `migrate`, and prints the output for it.
fn answer_migrate<S: Source, K: Sink>(alloc: Global, source: &mut S, sink: &mut K) -> Status
    ensures most { GaveAtMost (most_taken (Some Migrate)) (S.left source.old) (S.left source.new) }
    ensures went { CallOutcome (Some Migrate) (S.left source.old) (S.left source.new) (K.held sink.old) (K.held sink.new)
        (S.faults source.old) (S.faults source.new) (K.faults sink.old) (K.faults sink.new) result }
    ensures reads { result ≢ Status.ReadFault → S.faults source.new ≡ S.faults source.old }
    ensures writes { result ≢ Status.WriteFault → K.faults sink.new ≡ K.faults sink.old }
{
    match read_input(alloc, source, limit_of(Form::Migrate)) {
        Ok(input) => write_made(sink, migrate_output(alloc, input)),
        Err(NoInput::Fault) => Status::ReadFault,
        Err(NoInput::NoMemory) => Status::NoMemory,
    }
}

/// Reads the input of `trigger`, and prints the output for it.
fn answer_trigger<S: Source, K: Sink>(alloc: Global, source: &mut S, sink: &mut K) -> Status
    ensures most { GaveAtMost (most_taken (Some Trigger)) (S.left source.old) (S.left source.new) }
    ensures went { CallOutcome (Some Trigger) (S.left source.old) (S.left source.new) (K.held sink.old) (K.held sink.new)
        (S.faults source.old) (S.faults source.new) (K.faults sink.old) (K.faults sink.new) result }
    ensures reads { result ≢ Status.ReadFault → S.faults source.new ≡ S.faults source.old }
    ensures writes { result ≢ Status.WriteFault → K.faults sink.new ≡ K.faults sink.old }
{
    match read_input(alloc, source, limit_of(Form::Trigger)) {
        Ok(input) => write_made(sink, triggers_output(alloc, input)),
        Err(NoInput::Fault) => Status::ReadFault,
        Err(NoInput::NoMemory) => Status::NoMemory,
    }
}

/// Reads the input of `event`, and prints the output for it.
fn answer_event<S: Source, K: Sink>(alloc: Global, source: &mut S, sink: &mut K) -> Status
    ensures most { GaveAtMost (most_taken (Some Event)) (S.left source.old) (S.left source.new) }
    ensures went { CallOutcome (Some Event) (S.left source.old) (S.left source.new) (K.held sink.old) (K.held sink.new)
        (S.faults source.old) (S.faults source.new) (K.faults sink.old) (K.faults sink.new) result }
    ensures reads { result ≢ Status.ReadFault → S.faults source.new ≡ S.faults source.old }
    ensures writes { result ≢ Status.WriteFault → K.faults sink.new ≡ K.faults sink.old }
{
    match read_input(alloc, source, limit_of(Form::Event)) {
        Ok(input) => write_made(sink, events_output(alloc, input)),
        Err(NoInput::Fault) => Status::ReadFault,
        Err(NoInput::NoMemory) => Status::NoMemory,
    }
}
