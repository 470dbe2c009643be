ghost use Rattle.zk_trace.specs.Parting.{AreParts};

use crate::format::begins_trace;
use crate::halves::halves;

/// Cuts a text before its first line `zt 1` or `zt 2`: the text of a scenario, and the trace part. Where no line is
/// that, all of it is the scenario's.
pub fn split_text(text: &[u8]) -> (&[u8], &[u8])
    ensures { AreParts text.now result.0.now result.1.now }
{
    let mut rest = text;
    while let Some((line, behind)) = halves(b'\n', rest) {
        if begins_trace(line) {
            return text.split_at(text.len() - rest.len());
        }
        rest = behind;
    }
    text.split_at(text.len())
}
