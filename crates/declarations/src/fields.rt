// "if a declaration has not exactly three fields": the two behind the keyword.
ghost use Rattle.std.specs.Prelude.{◌≤◌, length};
ghost use Rattle.declarations.specs.Fields.{FieldsAs};

use text::cut::{TAB, find};

// The tab between the fields behind the separator at `from`, if there are two.
pub fn two_fields(line: &[u8], from: usize) -> Option<usize>
    requires { from ≤ length line.now }
    ensures { FieldsAs line.now from result }
{
    if line.len() <= from {
        return None;
    }
    let middle = find(line, from + 1, TAB);
    if line.len() <= middle {
        return None;
    }
    let end = find(line, middle + 1, TAB);
    if end < line.len() {
        return None;
    }
    Some(middle)
}
