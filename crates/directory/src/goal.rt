// Where the goal stands in the words, and its ground variables.
ghost use Rattle.std.specs.Prelude.{◌≡◌, ◌≤◌, length};
ghost use Rattle.terms.specs.Cells.{variables};
ghost use Rattle.program.specs.Faults.{mask_of};
ghost use Rattle.program.specs.Within.{Each};
ghost use Rattle.directory.specs.Layout.{dir_words, max_shape_cells};
ghost use Rattle.directory.specs.Walked.{GoalWritten};
ghost use Rattle.directory.specs.From.{GoalFrom};

use crate::encoded::Declared;
use crate::layout::{GOAL_CELLS, GOAL_GROUND, GOAL_START};
use crate::places::atom_cells;
use terms::walk::narrow;

// "A mask has bit v set where variable v is ground": the mask of the modes.
fn mask(modes: &[u16]) -> u16
    requires { (Each (λ m. m ≤ 1) modes.now) × (length modes.now ≤ variables) }
    ensures { result ≡ mask_of modes.now }
{
    let mut mask = 0;
    for &mode in modes.iter().rev() {
        mask = mode + 2 * mask;
    }
    mask
}

// "the top goal: one atom, its variable count k, then k modes"
pub fn goal(declared: &Declared<'_>, at: usize, dir: &mut [u16])
    requires { (GoalFrom declared.now.words.now at declared.now.predicates.now declared.now.functions.now) × (length declared.now.words.now ≤ max_shape_cells) × (length dir.old ≡ dir_words) }
    ensures { (a : GoalFrom declared.now.words.now at declared.now.predicates.now declared.now.functions.now) → GoalWritten declared.now.words.now a.goal a.grounded dir.old dir.new }
{
    let cells = atom_cells(declared, at);
    let end = at + cells;
    let count = usize::from(declared.words[end]);
    let from = end + 1;
    let to = from + count;
    dir[GOAL_START] = narrow(at);
    dir[GOAL_CELLS] = narrow(cells);
    dir[GOAL_GROUND] = mask(&declared.words[from..to]);
}
