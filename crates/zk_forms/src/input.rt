ghost use Rattle.std.specs.Prelude.{◌≡◌, ℕ, ◌+◌, ◌-◌, ◌^◌, ◌<◌, ◌≤◌, [], ◌++◌, length, take, drop, List, Option, IfOk, IfErr, OnOk, OnErr, vec_len, IfSome, Some};
ghost use Rattle.zk_base.specs.Causes.{Rose};
ghost use Rattle.zk_forms.specs.Input.{HasRead, IsCaused, Moves, GaveAtMost};

use std::alloc::{AllocError, AllocFailed, Global};
use zk_base::{Failed, Source};

/// How many bytes one call of the source is asked for, at the most.
const CHUNK: usize = 4096;

/// Why no input was read.
#[derive(Clone, Copy)]
pub enum NoInput {
    /// The source failed.
    Fault,
    NoMemory,
}

impl From<AllocError> for NoInput {
    ghost use Rattle.zk_forms.specs.declared.input.NoInput.TheVariants.{NoMemory};
    ghost use Rattle.std.specs.Prelude.{◌≡◌};

    ghost from_gives = { λ _ e. e ≡ NoMemory };

    fn from(_error: AllocError) -> NoInput {
        NoInput::NoMemory
    }
}

impl From<Failed> for NoInput {
    ghost use Rattle.zk_forms.specs.declared.input.NoInput.TheVariants.{Fault};
    ghost use Rattle.std.specs.Prelude.{◌≡◌};

    ghost from_gives = { λ _ e. e ≡ Fault };

    fn from(_error: Failed) -> NoInput {
        NoInput::Fault
    }
}

/// The source's bytes to their end, or to one byte above the limit.
pub fn read_input<S: Source>(
    alloc: Global,
    source: &mut S,
    limit: usize,
) -> Result<Vec<u8>, NoInput>
    requires { limit < 2 ^ 32 }
    ensures most { GaveAtMost (limit + 1) (S.left source.old) (S.left source.new) }
    ensures bytes { IfOk result (λ read. HasRead limit (S.left source.old) (S.left source.new) read.items) }
    ensures fault { IfErr result (λ e. IsCaused (S.faults source.old) (S.faults source.new) e) }
    ensures counts { IfOk result (λ _. S.faults source.new ≡ S.faults source.old) }
{
    let mut bytes = Vec::new(alloc);
    let mut chunk = [0; CHUNK];
    while bytes.len() <= limit {
        if read_some(source, &mut chunk, &mut bytes, limit)? == 0 {
            return Ok(bytes);
        }
    }
    Ok(bytes)
}

/// Reads once into a chunk, puts what came behind these bytes, and never reads past one byte above the limit.
fn read_some<S: Source>(
    source: &mut S,
    chunk: &mut [u8; CHUNK],
    bytes: &mut Vec<u8>,
    limit: usize,
) -> Result<usize, NoInput>
    requires small { limit < 2 ^ 32 }
    requires within { vec_len bytes.old ≤ limit }
    ensures most { GaveAtMost (limit + 1 - vec_len bytes.old) (S.left source.old) (S.left source.new) }
    ensures moved { IfOk result (λ n. Moves (S.left source.old) (S.left source.new) bytes.old.items bytes.new.items n) }
    ensures size { IfOk result (λ n. vec_len bytes.new ≡ vec_len bytes.old + n) }
    ensures within { IfOk result (λ n. vec_len bytes.new ≤ limit + 1) }
    ensures fault { IfErr result (λ e. IsCaused (S.faults source.old) (S.faults source.new) e) }
    ensures counts { IfOk result (λ _. S.faults source.new ≡ S.faults source.old) }
{
    let most = CHUNK.min(limit + 1 - bytes.len());
    let into = &mut chunk[..most];
    let count = source.read(into)?;
    bytes.extend_from_slice(&into[..count])?;
    Ok(count)
}
