// The listing, "written line by line, each into the part of the buffer after the last".
ghost use Rattle.std.specs.Prelude.{ℕ, suc, ◌≤◌, List, [], ◌∷◌, length};
ghost use Rattle.program.specs.Shapes.{shapes};
ghost use Rattle.text.specs.Decimal.{decimal};
ghost use Rattle.text.specs.Put.{Put};
ghost use Rattle.written_lines.specs.Tokens.{line};
ghost use Rattle.listing_lines.specs.Asked.{Spoken, ShapeAsked};
ghost use Rattle.listing_lines.specs.Lines.{shape_line};
ghost use Rattle.lister.specs.Listing.{modes_word, end_word, version, shape_lines, row_lines, listing_of};
ghost use Rattle.lister.specs.Joined.{joined, WritesEach};
ghost use Rattle.lister.specs.Asked.{Tabled, ListingAsked};

use directory::encoded::Encoded;
use directory::layout::SHAPE_COUNT;
use listing_lines::row_line::row_line;
use listing_lines::shape_line::shape_line;
use text::cut::LINE_FEED;
use text::put::{put_byte, put_bytes, put_wide};

// "The first line is the listing's version."
fn version_line(out: &mut [u8]) -> usize
    ensures { Put (line modes_word (decimal version ∷ [])) out.old out.new 0 result }
{
    put_bytes(out, 0, b"modes\t1\n")
}

// "`end` has the row count."
fn end_line(rows: usize, out: &mut [u8]) -> usize
    ensures { Put (line end_word (decimal rows ∷ [])) out.old out.new 0 result }
{
    let number_at = put_bytes(out, 0, b"end\t");
    let number_end = put_wide(out, number_at, rows);
    put_byte(out, number_end, LINE_FEED)
}

// So many lines, each into the tail of the buffer from the current end on: the new end, or one past the room.
fn put_lines<F: Fn(usize, &mut [u8]) -> usize>(
    out: &mut [u8],
    start: usize,
    count: usize,
    put_line: F,
) -> usize
    requires writes { (texts : ℕ → List ℕ) × WritesEach F.Fn put_line texts count }
    requires start_bound { start ≤ suc (length out.old) }
    ensures { (texts : ℕ → List ℕ) → WritesEach F.Fn put_line texts count → Put (joined texts count) out.old out.new start result }
{
    let mut end = start;
    for i in 0..count {
        if out.len() < end {
            return end;
        }
        end += put_line(i, &mut out[end..]);
    }
    end
}

fn shape_lines(program: &Encoded, names: &[u8], out: &mut [u8], start: usize) -> usize
    requires spoken { Spoken program.now.words.now program.now.dir.now names.now }
    requires start_bound { start ≤ suc (length out.old) }
    ensures { (w : Spoken program.now.words.now program.now.dir.now names.now)
        → Put (shape_lines names.now (length w.p.predicates) 0 (shapes w.p)) out.old out.new start result }
{
    let count = usize::from(program.dir[SHAPE_COUNT]);
    put_lines(
        out,
        start,
        count,
        |s: usize, tail: &mut [u8]| -> usize
            requires { ShapeAsked program.now.words.now program.now.dir.now names.now s }
            ensures { (w : ShapeAsked program.entry.now.words.now program.entry.now.dir.now names.entry.now s) → Put (shape_line names.entry.now (length w.spoken.p.predicates) s w.S) tail.old tail.new 0 result }
        { shape_line(program, names, s, tail) },
    )
}

fn row_lines(dir: &[u16], table: &[u16], rows: usize, out: &mut [u8], start: usize) -> usize
    requires tabled { Tabled dir.now table.now rows }
    requires start_bound { start ≤ suc (length out.old) }
    ensures { (w : Tabled dir.now table.now rows) → Put (row_lines w.p w.entries) out.old out.new start result }
{
    put_lines(out, start, rows, |r, tail| row_line(dir, table, r, tail))
}

// All lines: how many bytes they are, or one more than the room.
pub fn listing(program: &Encoded, names: &[u8], table: &[u16], rows: usize, out: &mut [u8]) -> usize
    requires { ListingAsked program.now.words.now program.now.dir.now names.now table.now rows }
    ensures { (w : ListingAsked program.now.words.now program.now.dir.now names.now table.now rows)
        → Put (listing_of w.tabled.p names.now w.tabled.entries) out.old out.new 0 result }
{
    let shapes_at = version_line(out);
    let rows_at = shape_lines(program, names, out, shapes_at);
    let end = row_lines(program.dir, table, rows, out, rows_at);
    if out.len() < end {
        return end;
    }
    end + end_line(rows, &mut out[end..])
}
