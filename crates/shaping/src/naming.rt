// "Shape 0 is the goal's; the body atoms follow in program order".
ghost use Rattle.std.specs.Prelude.{◌≡◌, ◌≤◌, length};
ghost use Rattle.program.specs.Limits.{max_declared};
ghost use Rattle.program.specs.Program.{bodies};
ghost use Rattle.directory.specs.Layout.{dir_words};
ghost use Rattle.directory.specs.Said.{said, Accepted};
ghost use Rattle.directory.specs.Walked.{Placed};
ghost use Rattle.shaping.specs.Named.{Cleared, ShapesFound, ShapesNamed};

use crate::shapes::number;
use directory::encoded::Span;
use directory::layout::{
    BODY_CELLS, BODY_COUNT, BODY_SHAPE, BODY_START, GOAL_CELLS, GOAL_START, PREDICATE_SHAPE,
    SHAPE_COUNT, SHAPE_START,
};
use program::limits::MAX_DECLARED;
use terms::walk::narrow;

// No predicate has a shape yet.
fn clear(dir: &mut [u16])
    requires { length dir.old ≡ dir_words }
    ensures { Cleared dir.old dir.new max_declared }
{
    dir[PREDICATE_SHAPE..PREDICATE_SHAPE + MAX_DECLARED].fill(0);
}

// "Shape 0 is the goal's"
fn goal_shape(words: &[u16], dir: &mut [u16])
    requires { (Accepted words.now) × (Placed words.now (said words.now) dir.old) }
    ensures { ShapesFound (said words.now) dir.old dir.new 0 1 }
{
    clear(dir);
    dir[SHAPE_START] = 0;
    let goal = Span {
        start: usize::from(dir[GOAL_START]),
        cells: usize::from(dir[GOAL_CELLS]),
    };
    number(words, goal, dir, 0);
}

// All shapes, and the numbers of the body atoms' shapes.
pub fn shapes(words: &[u16], dir: &mut [u16])
    requires { (Accepted words.now) × (Placed words.now (said words.now) dir.old) }
    ensures { ShapesNamed (said words.now) dir.old dir.new }
{
    goal_shape(words, dir);
    let total = usize::from(dir[BODY_COUNT]);
    let mut count = 1;
    for j in 0..total {
        let atom = Span {
            start: usize::from(dir[BODY_START + j]),
            cells: usize::from(dir[BODY_CELLS + j]),
        };
        let s = number(words, atom, dir, count);
        dir[BODY_SHAPE + j] = narrow(s);
        if s == count {
            count += 1;
        }
    }
    dir[SHAPE_COUNT] = narrow(count);
}
