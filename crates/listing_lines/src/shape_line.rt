// "Shape lines, one for each shape: number, cells."
ghost use Rattle.std.specs.Prelude.{length};
ghost use Rattle.text.specs.Put.{Put};
ghost use Rattle.listing_lines.specs.Lines.{shape_line};
ghost use Rattle.listing_lines.specs.Asked.{ShapeAsked};

use directory::encoded::Encoded;
use directory::layout::{
    CLAUSES_START, FUNCTIONS_START, PREDICATES_START, SHAPE_CELLS, SHAPE_START,
};
use text::cut::LINE_FEED;
use text::put::{put_byte, put_bytes, put_wide};
use written_lines::atoms::put_atom;
use written_lines::symbols::Symbols;
use written_lines::walked::Walked;

// Shape number s. Its variables have no modes: they are all `V`.
pub fn shape_line(program: &Encoded, names: &[u8], s: usize, out: &mut [u8]) -> usize
    requires { ShapeAsked program.now.words.now program.now.dir.now names.now s }
    ensures { (w : ShapeAsked program.now.words.now program.now.dir.now names.now s)
        → Put (shape_line names.now (length w.spoken.p.predicates) s w.S) out.old out.new 0 result }
{
    let at = SHAPE_CELLS + usize::from(program.dir[SHAPE_START + s]);
    let functions = usize::from(program.dir[FUNCTIONS_START]);
    let clauses = usize::from(program.dir[CLAUSES_START]);
    let symbols = Symbols {
        predicates: &program.words[PREDICATES_START..functions],
        functions: &program.words[functions..clauses],
        names,
    };
    let number_at = put_bytes(out, 0, b"shape\t");
    let end = put_wide(out, number_at, s);
    let cells = put_atom(out, program.dir, Walked { at, end }, &symbols, &[]);
    put_byte(out, cells.end, LINE_FEED)
}
