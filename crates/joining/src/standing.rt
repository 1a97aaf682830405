// Where the analysis stands in a round, in one value; and where a body atom stands in the words.
ghost use Rattle.std.specs.Prelude.{◌≡◌, ◌+◌, ◌<◌, length, get_or};
ghost use Rattle.directory.specs.Layout.{body_start, body_cells, dir_words};
ghost use Rattle.program.specs.Limits.{max_bodies};
ghost use Rattle.program.specs.Shapes.{number};
ghost use Rattle.marks.specs.Modes.{InOrder};
ghost use Rattle.joining.specs.Bodies.{BodyIn};

use directory::encoded::{Encoded, Span};
use directory::layout::{BODY_CELLS, BODY_START};
use marks::rows::Order;
use steps::meet::order_of;

// The program, the rows of the table in chains by slot, and how many rows there were before the last round and before this one.
#[derive(Clone, Copy)]
pub struct Standing<'a> {
    pub program: Encoded<'a>,
    pub table: &'a [u16],
    pub heads: &'a [u16],
    pub since: usize,
    pub before: usize,
}

// Where body atom j stands in the words.
pub fn body_span<'a>(program: &Encoded<'a>, j: usize) -> Span
    requires { (j < max_bodies) × (length program.now.dir.now ≡ dir_words) }
    ensures there { (result.start ≡ get_or program.now.dir.now (body_start + j) 0) × (result.cells ≡ get_or program.now.dir.now (body_cells + j) 0) }
    ensures small { (result.start < 65536) × (result.cells < 65536) }
{
    Span {
        start: usize::from(program.dir[BODY_START + j]),
        cells: usize::from(program.dir[BODY_CELLS + j]),
    }
}

// The variables of body atom j by first appearance.
pub fn body_order<'a>(program: &Encoded<'a>, j: usize) -> Order
    requires { BodyIn program.now.words.now program.now.dir.now j }
    ensures { (w : BodyIn program.now.words.now program.now.dir.now j) → InOrder w.body.A (number w.body.A) result.variables result.count }
{
    let atom = body_span(program, j);
    let end = atom.start + atom.cells;
    order_of(&program.words[atom.start..end])
}
