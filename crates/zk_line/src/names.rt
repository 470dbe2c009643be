ghost use Rattle.std.specs.Prelude.{◌≡◌, ℕ, List, Some, None, if◌then◌else◌, OnOk, OnErr, IfOk};
ghost use Rattle.std.specs.Str.{bytes_eq};
ghost use Rattle.zk_line.specs.ByName.{by_name};

use std::alloc::Global;
use std::collections::HashMap;
use zk_base::NoMemory;

/// The numbers of objects, by name.
#[derive(Drop)]
pub struct Names {
    numbers: HashMap<Vec<u8>, u32>,
}

impl Names {
    /// No name. It takes no memory.
    pub fn new(alloc: Global) -> Names
        ensures { (name : List ℕ) → by_name result name ≡ None }
    {
        Names {
            numbers: HashMap::new(alloc),
        }
    }

    /// The number under a name.
    pub fn find(&self, name: &[u8]) -> Option<u32>
        ensures { result ≡ by_name self.now name.now }
    {
        self.numbers.get(name).copied()
    }

    /// Puts a number under a name. Only the names are taken as they come: an old number is lost.
    pub fn insert(&mut self, alloc: Global, name: &[u8], number: u32) -> Result<(), NoMemory>
        ensures ok { OnOk result ((other : List ℕ) →
            by_name self.new other ≡ (if bytes_eq name.now other then Some number else by_name self.old other)) }
        ensures unchanged { OnErr result ((other : List ℕ) → by_name self.new other ≡ by_name self.old other) }
    {
        let name = Vec::from_slice(alloc, name)?;
        self.numbers.insert(name, number)?;
        Ok(())
    }

    /// The same numbers under the same names, in memory of their own.
    pub fn copy(&self) -> Result<Names, NoMemory>
        ensures { IfOk result (λ names. (name : List ℕ) → by_name names name ≡ by_name self.now name) }
    {
        Ok(Names {
            numbers: self.numbers.clone()?,
        })
    }
}
