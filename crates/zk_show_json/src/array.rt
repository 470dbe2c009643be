ghost use Rattle.std.specs.Prelude.{◌≡◌, ℕ, false, List, ◌++◌, OnOk};
ghost use Rattle.zk_show_json.specs.Arrays.{array, comma, parts};

use zk_base::NoMemory;
use zk_paper::Paper;

/// What stands in an array.
pub trait Part {
    /// Its value.
    ghost text: { Self → List ℕ };

    /// Appends its value.
    fn put_part(&self, out: &mut Paper) -> Result<(), NoMemory>
        ensures text { OnOk result (out.new.put ≡ out.old.put ++ text self.now) }
        ensures front { out.new.front ≡ out.old.front };
}

/// Appends the comma between a part and the one before it, if there is one.
pub fn put_comma(out: &mut Paper, begun: bool) -> Result<(), NoMemory>
    ensures text { OnOk result (out.new.put ≡ out.old.put ++ comma begun) }
    ensures front { out.new.front ≡ out.old.front }
{
    if begun { out.push(b',') } else { Ok(()) }
}

/// Appends an array.
pub fn put_array<X: Part>(out: &mut Paper, items: &[X]) -> Result<(), NoMemory>
    ensures text { OnOk result (out.new.put ≡ out.old.put ++ array X.text items.now) }
    ensures front { out.new.front ≡ out.old.front }
{
    out.push(b'[')?;
    put_parts(out, items)?;
    out.push(b']')
}

fn put_parts<X: Part>(out: &mut Paper, items: &[X]) -> Result<(), NoMemory>
    ensures text { OnOk result (out.new.put ≡ out.old.put ++ parts X.text false items.now) }
    ensures front { out.new.front ≡ out.old.front }
{
    let mut begun = false;
    for item in items {
        put_comma(out, begun)?;
        item.put_part(out)?;
        begun = true;
    }
    Ok(())
}
