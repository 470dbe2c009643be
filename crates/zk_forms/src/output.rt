ghost use Rattle.std.specs.Prelude.{◌≡◌, ◌≢◌, ◌⊎◌, ◌≤◌, ℕ, OnOk, OnErr, IfOk, List, length};
ghost use Rattle.std.specs.Io.KnownBytes.{Appends};
ghost use Rattle.zk_base.specs.Causes.{HasCause, Rose};
ghost use Rattle.zk_forms.specs.declared.form.Form.{Form};
ghost use Rattle.zk_forms.specs.Output.{AppendsFront};
ghost use Rattle.zk_forms.specs.Top.{IsOutputOf, words_refused, Answered};

use zk_base::{Failed, NoMemory, Sink, Status};

/// Writes the whole text, piece after piece. It takes no memory.
pub fn write_text<K: Sink>(sink: &mut K, text: &[u8]) -> Result<(), Failed>
    ensures whole { OnOk result (Appends (K.held sink.old) (K.held sink.new) text.now) }
    ensures front { AppendsFront (K.held sink.old) (K.held sink.new) text.now }
    ensures cause { HasCause (K.faults sink.old) (K.faults sink.new) result }
{
    let mut written = 0;
    while written < text.len() {
        written += sink.write(&text[written..])?;
    }
    Ok(())
}

/// Says that the words are those of no form.
pub fn refuse_words<K: Sink>(sink: &mut K) -> Status
    ensures refused { ((result ≡ Status.Words) × Appends (K.held sink.old) (K.held sink.new) words_refused)
        ⊎ ((result ≡ Status.WriteFault) × AppendsFront (K.held sink.old) (K.held sink.new) words_refused
        × Rose (K.faults sink.old) (K.faults sink.new)) }
    ensures writes { result ≢ Status.WriteFault → K.faults sink.new ≡ K.faults sink.old }
{
    match write_text(sink, b"refused words\n") {
        Ok(()) => Status::Words,
        Err(_) => Status::WriteFault,
    }
}

/// Writes the output that was made, if there was memory for it, and answers the status that goes with it.
pub fn write_made<K: Sink>(sink: &mut K, made: Result<(Vec<u8>, Status), NoMemory>) -> Status
    ensures answered { (form : Form) (input : List ℕ) → IfOk made (λ m. IsOutputOf form m.1 input m.0.items) →
        Answered form input (K.held sink.old) (K.held sink.new) (K.faults sink.old) (K.faults sink.new) result }
    ensures writes { result ≢ Status.WriteFault → K.faults sink.new ≡ K.faults sink.old }
{
    let Ok((output, status)) = made else {
        return Status::NoMemory;
    };
    match write_text(sink, &output) {
        Ok(()) => status,
        Err(_) => Status::WriteFault,
    }
}
