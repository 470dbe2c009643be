ghost use Rattle.std.specs.Prelude.{◌≡◌, ℕ, ◌+◌, ◌-◌, ◌^◌, ◌<◌, None, [], ◌∷◌, ◌++◌, OnOk, OnErr, IfOk, IfErr, slice_get, vec_len};
ghost use Rattle.std.specs.Option.{option_flatten};
ghost use Rattle.zk_scenario.specs.Players.{calls_of};
ghost use Rattle.zk_scenario.specs.Scripts.{script_of};

use crate::Script;
use std::alloc::Global;
use std::marker::Model;
use zk_base::{Listed, NoMemory, make_room_for_one, push_within};
use zk_line::Call;

/// The scripts in the written order, with the place of each object's script.
#[derive(Drop)]
pub struct Scripts {
    scripts: Vec<Script>,
    // Under an object's number the place of its script. It ends behind the last object that has one.
    by_owner: Vec<Option<usize>>,
}

impl Model for Scripts {
    ghost use Rattle.std.specs.Prelude.{List};
    ghost use Rattle.zk_scenario.specs.declared.types.Script.{Script};
    ghost use Rattle.zk_scenario.specs.Scripts.{IsByOwner};

    ghost Value = { List Script };

    ghost view = { λ a. a.scripts.items };

    ghost invariant = { λ a. IsByOwner a.scripts.items a.by_owner.items };
}

impl Scripts {
    /// No script. It takes no memory.
    pub fn new(alloc: Global) -> Scripts
        ensures { result ≡ [] }
    {
        Scripts {
            scripts: Vec::new(alloc),
            by_owner: Vec::new(alloc),
        }
    }

    /// All scripts, in the order of the text.
    pub fn scripts(&self) -> &[Script]
        ensures { result.now ≡ self.now }
    {
        &self.scripts
    }

    /// The place of an object's script.
    pub fn find(&self, owner: u32) -> Option<usize>
        ensures { result ≡ script_of self.now owner }
    {
        place_under(&self.by_owner, owner)
    }

    /// The calls of an object's script; what has no script has an empty one.
    pub fn calls(&self, owner: u32) -> &[Call]
        ensures { result.now ≡ calls_of self.now owner }
    {
        match place_under(&self.by_owner, owner) {
            Some(place) => {
                let script = &self.scripts[place];
                script.calls.items()
            }
            None => &[],
        }
    }

    /// One script more, of an object that has none. For want of memory it comes back.
    pub fn push(&mut self, script: Script) -> Result<(), Script>
        requires { script_of self.old script.owner ≡ None }
        ensures ok { OnOk result (self.new ≡ self.old ++ script ∷ []) }
        ensures unchanged { IfErr result (λ back. (back ≡ script) × (self.new ≡ self.old)) }
    {
        let Ok(()) = make_room_for_one(&mut self.scripts) else {
            return Err(script);
        };
        let Ok(()) = widen(&mut self.by_owner, script.owner) else {
            return Err(script);
        };
        let place = self.scripts.len();
        self.by_owner[script.owner as usize] = Some(place);
        push_within(&mut self.scripts, script);
        Ok(())
    }

    /// The same scripts, in memory of their own.
    pub fn copy(&self, alloc: Global) -> Result<Scripts, NoMemory>
        ensures copy { IfOk result (λ scripts. scripts ≡ self.now) }
    {
        Ok(Scripts {
            scripts: copy_each(alloc, &self.scripts)?,
            by_owner: Vec::from_slice(alloc, &self.by_owner)?,
        })
    }
}

fn place_under(by_owner: &[Option<usize>], owner: u32) -> Option<usize>
    ensures { result ≡ option_flatten (slice_get by_owner.now owner) }
{
    by_owner.get(owner as usize).copied().flatten()
}

/// Makes the table so long that it has a place for this owner, with nothing there as long as nothing is put.
fn widen(by_owner: &mut Vec<Option<usize>>, owner: u32) -> Result<(), NoMemory>
    ensures long { OnOk result (owner < vec_len by_owner.new) }
    ensures same { (k : ℕ) → option_flatten (slice_get by_owner.new.items k) ≡ option_flatten (slice_get by_owner.old.items k) }
{
    while by_owner.len() <= owner as usize {
        by_owner.push(None)?;
    }
    Ok(())
}

fn copy_each(alloc: Global, scripts: &[Script]) -> Result<Vec<Script>, NoMemory>
    ensures { IfOk result (λ copied. copied.items ≡ scripts.now) }
{
    let mut copied = Vec::with_capacity(alloc, scripts.len())?;
    for script in scripts {
        copied.push(copy_one(alloc, script)?)?;
    }
    Ok(copied)
}

fn copy_one(alloc: Global, script: &Script) -> Result<Script, NoMemory>
    ensures { IfOk result (λ copied. copied ≡ script.now) }
{
    let calls = Vec::from_slice(alloc, script.calls.items())?;
    Ok(Script {
        owner: script.owner,
        calls: Listed::from_vec(calls),
    })
}
