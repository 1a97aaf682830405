// Row lines: "kind, round, shape (or clause.place), then `g` or `a` for each variable of the shape (or list) in order, `-` for none".
ghost use Rattle.std.specs.Prelude.{◌≡◌, ◌≤◌, [], ◌∷◌};
ghost use Rattle.terms.specs.Mask.{Marks};
ghost use Rattle.program.specs.Kinds.{word_of};
ghost use Rattle.text.specs.Decimal.{decimal};
ghost use Rattle.text.specs.Put.{Put};
ghost use Rattle.written_lines.specs.Tokens.{line};
ghost use Rattle.listing_lines.specs.Letters.{letters_of};
ghost use Rattle.listing_lines.specs.Set.{in_set};
ghost use Rattle.listing_lines.specs.Lines.{row_line};
ghost use Rattle.listing_lines.specs.Asked.{kind_word, about_token, VariableOf, AboutRow, RowIn};

use crate::letters::put_letters;
use directory::layout::{BODY_LIST, CLAUSE_FIRST, SHAPE_VARS};
use program::kind::Kind;
use program::limits::ROW_SIZE;
use steps::meet::first_variables;
use text::cut::{LINE_FEED, TAB};
use text::put::{put_byte, put_bytes, put_number};

// The words of a row, its kind by name.
#[derive(Clone, Copy)]
struct RowWords {
    round: u16,
    kind: Kind,
    a: u16,
    b: u16,
    mask: u16,
}

// "kind (1 call, 2 cont, 3 solution)". A row's number is one of the three, so no other is turned down.
fn kind_of(number: u16) -> Kind
    requires { (1 ≤ number) × (number ≤ 3) }
    ensures { word_of result ≡ number }
{
    if number == Kind::Call as u16 {
        return Kind::Call;
    }
    if number == Kind::Cont as u16 {
        return Kind::Cont;
    }
    Kind::Solution
}

// The variables of the row's shape, or of the list of its place.
fn set_of(dir: &[u16], row: RowWords) -> u16
    requires { AboutRow dir.now (word_of row.kind) row.a row.b }
    ensures { (w : AboutRow dir.now (word_of row.kind) row.a row.b) → Marks (VariableOf w.p w.row) result }
{
    let about = usize::from(row.a);
    match row.kind {
        Kind::Cont => {
            let first = usize::from(dir[CLAUSE_FIRST + (about - 1)]);
            dir[BODY_LIST + first + (usize::from(row.b) - 1)]
        }
        Kind::Call | Kind::Solution => first_variables(usize::from(dir[SHAPE_VARS + about])),
    }
}

fn put_kind(out: &mut [u8], kind: Kind) -> usize
    ensures { Put (kind_word (word_of kind)) out.old out.new 0 result }
{
    match kind {
        Kind::Call => put_bytes(out, 0, b"call"),
        Kind::Cont => put_bytes(out, 0, b"cont"),
        Kind::Solution => put_bytes(out, 0, b"sol"),
    }
}

// "shape (or clause.place)"
fn put_about(out: &mut [u8], at: usize, row: RowWords) -> usize
    ensures { Put (about_token (word_of row.kind) row.a row.b) out.old out.new at result }
{
    let end = put_number(out, at, row.a);
    match row.kind {
        Kind::Cont => {
            let behind = put_byte(out, end, b'.');
            put_number(out, behind, row.b)
        }
        Kind::Call | Kind::Solution => end,
    }
}

// The line of a row's words, with the variables that its letters are of.
fn put_row(out: &mut [u8], row: RowWords, set: u16) -> usize
    ensures { Put (line (kind_word (word_of row.kind)) (decimal row.round ∷ about_token (word_of row.kind) row.a row.b ∷ letters_of (in_set set) row.mask ∷ [])) out.old out.new 0 result }
{
    let kind_end = put_kind(out, row.kind);
    let round_at = put_byte(out, kind_end, TAB);
    let round_end = put_number(out, round_at, row.round);
    let about_at = put_byte(out, round_end, TAB);
    let about_end = put_about(out, about_at, row);
    let letters_at = put_byte(out, about_end, TAB);
    let letters_end = put_letters(out, letters_at, set, row.mask);
    put_byte(out, letters_end, LINE_FEED)
}

// Row r of the table.
pub fn row_line(dir: &[u16], table: &[u16], r: usize, out: &mut [u8]) -> usize
    requires { RowIn dir.now table.now r }
    ensures { (w : RowIn dir.now table.now r) → Put (row_line w.p w.round w.row) out.old out.new 0 result }
{
    let at = ROW_SIZE * r;
    let row = RowWords {
        round: table[at],
        kind: kind_of(table[at + 1]),
        a: table[at + 2],
        b: table[at + 3],
        mask: table[at + 4],
    };
    put_row(out, row, set_of(dir, row))
}
