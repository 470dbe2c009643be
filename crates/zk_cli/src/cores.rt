ghost use Rattle.std.specs.Prelude.{◌≡◌, ◌≢◌, ◌⊎◌, ◌≤◌, Some, None, map, IfSome, string_bytes};
ghost use Rattle.std.specs.Io.KnownBytes.{Appends, Keeps};
ghost use Rattle.zk_base.specs.Causes.{Rose};
ghost use Rattle.zk_forms.specs.Input.{GaveAtMost};
ghost use Rattle.zk_forms.specs.Output.{AppendsFront};
ghost use Rattle.zk_forms.specs.declared.form.Form.TheVariants.{Run};
ghost use Rattle.zk_forms.specs.Top.{cores_form_of, input_of, IsOutputOf, words_refused, Prints, PrintsFront, HasReadAll, IsAnswer, HasInput, MayEnd, CallOutcome, most_taken};

use std::alloc::Global;
use std::sync::Wait;
use std::thread::Threads;
use zk_base::{Gate, Sink, Source, Status};
use zk_forms::{
    Form, NoInput, cores_form_of, cores_output, feed_output, limit_of, read_input, refuse_words,
    write_made,
};

/// The program's forms on cores over any source, any sink and any gate. `run N` reads a scenario, plays it on N cores, from 1 to
/// 16, and prints the scenario's text and the trace. `feed P S N` reads nothing: P publishers send N messages each to S
/// subscribers, and what each of these took is printed. All other words are refused.
///
/// The trace is a lawful one, and each subscriber gets each message once, of each publisher in its order, however the threads
/// interleave. Nothing is claimed of which trace it is, of the order of two publishers' messages, nor that it returns, since
/// a core and a publisher may wait for a turn. Each core asks the gate each time before it plays a player, and each publisher before
/// each of its messages. What is said of the input and the output is said where the source and the sink tell their bytes.
pub fn zk_run<R: Threads + Wait + Sync, S: Source, K: Sink, G: Gate + Sync>(
    rt: &R,
    alloc: Global,
    words: &[String],
    source: &mut S,
    sink: &mut K,
    gate: &G,
) -> Status
    // What each status that prints a form's whole output says of it and the input.
    ensures prints { (form : Form) → cores_form_of (map string_bytes words.now) ≡ Some form → IsAnswer result →
        Prints (input_of form (S.left source.old)) (K.held sink.old) (K.held sink.new) (IsOutputOf form result) }
    ensures words { result ≡ Status.Words → Appends (K.held sink.old) (K.held sink.new) words_refused }

    // When each status comes.
    ensures a_form { result ≡ Status.Words → cores_form_of (map string_bytes words.now) ≡ None }
    ensures no_form { cores_form_of (map string_bytes words.now) ≡ None →
        (result ≡ Status.Words) ⊎ (result ≡ Status.WriteFault) }
    ensures complete { (form : Form) → cores_form_of (map string_bytes words.now) ≡ Some form →
        IfSome (input_of form (S.left source.old)) (λ input. MayEnd form input result) }
    ensures read_fault { result ≡ Status.ReadFault → Rose (S.faults source.old) (S.faults source.new) }
    ensures write_fault { result ≡ Status.WriteFault → Rose (K.faults sink.old) (K.faults sink.new) }

    // Each count of faults stays but for its own status.
    ensures reads { result ≢ Status.ReadFault → S.faults source.new ≡ S.faults source.old }
    ensures writes { result ≢ Status.WriteFault → K.faults sink.new ≡ K.faults sink.old }

    // Where nothing, or not all, was written.
    ensures nothing { (result ≡ Status.ReadFault) ⊎ (result ≡ Status.NoMemory) →
        Keeps (K.held sink.old) (K.held sink.new) }
    ensures front { (form : Form) → cores_form_of (map string_bytes words.now) ≡ Some form → result ≡ Status.WriteFault →
        PrintsFront form (S.left source.old) (K.held sink.old) (K.held sink.new) }
    ensures words_front { cores_form_of (map string_bytes words.now) ≡ None → result ≡ Status.WriteFault →
        AppendsFront (K.held sink.old) (K.held sink.new) words_refused }

    // Where the input was read to its end, or to one byte above the form's limit.
    ensures read { (form : Form) → cores_form_of (map string_bytes words.now) ≡ Some form → HasInput result →
        HasReadAll form (S.left source.old) (S.left source.new) }
    // However it ends, no more is taken than that.
    ensures most { GaveAtMost (most_taken (cores_form_of (map string_bytes words.now))) (S.left source.old) (S.left source.new) }
{
    run(rt, alloc, words, source, sink, gate)
}

fn run<R: Threads + Wait + Sync, S: Source, K: Sink, G: Gate + Sync>(
    rt: &R,
    alloc: Global,
    words: &[String],
    source: &mut S,
    sink: &mut K,
    gate: &G,
) -> Status
    ensures most { GaveAtMost (most_taken (cores_form_of (map string_bytes words.now))) (S.left source.old) (S.left source.new) }
    ensures went { CallOutcome (cores_form_of (map string_bytes words.now)) (S.left source.old) (S.left source.new) (K.held
        sink.old) (K.held sink.new)
        (S.faults source.old) (S.faults source.new) (K.faults sink.old) (K.faults sink.new) result }
    ensures reads { result ≢ Status.ReadFault → S.faults source.new ≡ S.faults source.old }
    ensures writes { result ≢ Status.WriteFault → K.faults sink.new ≡ K.faults sink.old }
{
    match cores_form_of(words) {
        None => refuse_words(sink),
        Some(form) => match form {
            Form::Run(cores) => answer_run(rt, alloc, cores, source, sink, gate),
            Form::Feed(size) => write_made(sink, feed_output(rt, alloc, size, gate)),
            _ => unreachable!(),
        },
    }
}

/// Reads the input of `run` on so many cores, and prints the output for it.
fn answer_run<R: Threads + Wait + Sync, S: Source, K: Sink, G: Gate + Sync>(
    rt: &R,
    alloc: Global,
    cores: u32,
    source: &mut S,
    sink: &mut K,
    gate: &G,
) -> Status
    requires cores { 1 ≤ cores }
    ensures most { GaveAtMost (most_taken (Some (Run cores))) (S.left source.old) (S.left source.new) }
    ensures went { CallOutcome (Some (Run cores)) (S.left source.old) (S.left source.new) (K.held sink.old) (K.held sink.new)
        (S.faults source.old) (S.faults source.new) (K.faults sink.old) (K.faults sink.new) result }
    ensures reads { result ≢ Status.ReadFault → S.faults source.new ≡ S.faults source.old }
    ensures writes { result ≢ Status.WriteFault → K.faults sink.new ≡ K.faults sink.old }
{
    match read_input(alloc, source, limit_of(Form::Run(cores))) {
        Ok(input) => write_made(sink, cores_output(rt, alloc, input, cores, gate)),
        Err(NoInput::Fault) => Status::ReadFault,
        Err(NoInput::NoMemory) => Status::NoMemory,
    }
}
