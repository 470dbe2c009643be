ghost use Rattle.std.specs.Prelude.{◌≡◌, ◌++◌, OnOk};
ghost use Rattle.zk_show_svg.specs.Places.{placed, sized};

use zk_base::NoMemory;
use zk_paper::Paper;

/// Appends what begins an element, and where it stands.
pub fn put_placed(out: &mut Paper, element: &[u8], x: u64, y: u64) -> Result<(), NoMemory>
    ensures text { OnOk result (out.new.put ≡ out.old.put ++ placed element.now x y) }
    ensures front { out.new.front ≡ out.old.front }
{
    out.put(element)?;
    out.put(b" x=\"")?;
    out.put_number(x)?;
    out.put(b"\" y=\"")?;
    out.put_number(y)?;
    out.push(b'"')
}

/// Appends how large an element is.
pub fn put_sized(out: &mut Paper, width: u64, height: u64) -> Result<(), NoMemory>
    ensures text { OnOk result (out.new.put ≡ out.old.put ++ sized width height) }
    ensures front { out.new.front ≡ out.old.front }
{
    out.put(b" width=\"")?;
    out.put_number(width)?;
    out.put(b"\" height=\"")?;
    out.put_number(height)?;
    out.push(b'"')
}
