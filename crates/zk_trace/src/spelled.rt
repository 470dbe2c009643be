ghost use Rattle.std.specs.Prelude.{◌≡◌, ℕ, List, ◌++◌, OnOk};
ghost use Rattle.zk_words.specs.Bytes.{space};
ghost use Rattle.zk_line.specs.declared.types.Decl.{Decl};
ghost use Rattle.zk_trace.specs.Parts.{each_behind};

use zk_base::NoMemory;
use zk_paper::Paper;
use zk_scenario::Scenario;

/// What an entry's line spells: an operation or a reply of a service.
pub trait Spelled {
    /// Its words, with the names of the declarations.
    ghost words: { List Decl → Self → List (List ℕ) };

    /// Appends its words, each behind a space.
    fn put_words(&self, out: &mut Paper, scenario: &Scenario) -> Result<(), NoMemory>
        ensures text { OnOk result (out.new.put ≡ out.old.put ++ each_behind space (words scenario.now.decls self.now)) }
        ensures front { out.new.front ≡ out.old.front };
}
