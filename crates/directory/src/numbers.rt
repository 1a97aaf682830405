// Variables numbered by first appearance.
ghost use Rattle.std.specs.Prelude.{◌≡◌, [], ℕ, ◌+◌, ◌<◌, ◌≤◌, length, get_or, replicate};
ghost use Rattle.terms.specs.Walk.{Cells};
ghost use Rattle.directory.specs.Numbers.{met_cells, Numbered, renamed, number_in, IsInTable, Renumbered};

use terms::walk::{FIRST_VARIABLE, narrow};

// Numbers the variables of a run by first appearance: the table gets 1 + the number of each. How many there are.
pub fn numbers(run: &[u16], table: &mut [u16; 16]) -> usize
    requires { (Cells run.now) × (length run.now < 65535) × (table.old ≡ replicate 16 0) }
    ensures { Numbered (met_cells [] run.now) table.new result }
{
    let mut n = 0;
    for &cell in run {
        if FIRST_VARIABLE <= cell {
            let v = usize::from(cell - FIRST_VARIABLE);
            if table[v] == 0 {
                n += 1;
                table[v] = narrow(n);
            }
        }
    }
    n
}

// A cell with its variable renumbered.
fn renamed(cell: u16, table: &[u16; 16]) -> u16
    requires { IsInTable table.now cell }
    ensures { result ≡ renamed (number_in table.now) cell }
{
    if cell < FIRST_VARIABLE {
        return cell;
    }
    let v = usize::from(cell - FIRST_VARIABLE);
    FIRST_VARIABLE + (table[v] - 1)
}

// Writes a run with its variables renumbered, from a place of the directory on.
pub fn renumber(run: &[u16], table: &[u16; 16], dir: &mut [u16], to: usize)
    requires { ((i : ℕ) → i < length run.now → IsInTable table.now (get_or run.now i 0)) × (to + length run.now ≤ length dir.old) }
    ensures { Renumbered run.now table.now dir.old dir.new to (length run.now) }
{
    for (i, &cell) in run.iter().enumerate() {
        dir[to + i] = renamed(cell, table);
    }
}
