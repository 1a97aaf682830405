// The analysis of an encoded program: its table, or why there is none.
ghost use Rattle.std.specs.Prelude.{◌≡◌, length};
ghost use Rattle.program.specs.Program.{Program};
ghost use Rattle.program.specs.Faults.{faults, sound};
ghost use Rattle.program.specs.Reply.{replied};
ghost use Rattle.directory.specs.Layout.{dir_words};
ghost use Rattle.directory.specs.Directory.{Directory};
ghost use Rattle.table.specs.Table.{room_in, Promise};
ghost use Rattle.analysis.specs.Finished.{FinishAsked, InTable};

use crate::unpack::unpack;
use clauses::workspace::Workspace;
use directory::encoded::Encoded;
use directory::layout::DIR_WORDS;
use ends::keep::KEPT_WORDS;
use joining::kept::ANSWER_WORDS;
use order::sort::sort;
use program::limits::{MAX_ROWS, ROW_SIZE};
use program::reply::{Fault, Refusal};
use program::scan::check;
use rounds::rounds::rounds;
use rows::maskset::SET_WORDS;
use rows::row::BUCKETS;
use rows::store::NoRoom;
use shaping::directory;
use steps::place::SLOTS;
use steps::unifiers::UNIFIER_BYTES;

// "The room in rows is the length over five, rounded down, but at most 4,096."
fn room_in(size: usize) -> usize
    ensures { result ≡ room_in size }
{
    (size / ROW_SIZE).min(MAX_ROWS)
}

// "Rows stand in ascending order of their five words." "Words after the last row are 0."
fn finish(program: &Encoded, table: &mut [u16], rows: usize)
    requires { FinishAsked program.now.words.now program.now.dir.now table.old rows }
    ensures { (w : FinishAsked program.now.words.now program.now.dir.now table.old rows) → InTable w.p rows (length table.old) table.new }
{
    sort(table, rows);
    unpack(program, table, rows);
    table[ROW_SIZE * rows..].fill(0);
}

// The table of an accepted program, and its directory in the lent words: how many rows, or zeros where they have no room.
pub fn tabled(words: &[u16], dir: &mut [u16], table: &mut [u16]) -> Result<usize, Fault>
    requires { (length dir.old ≡ dir_words) × ((p : Program) × (faults words.now ≡ sound p)) }
    ensures promise { Promise words.now (length table.old) (replied result) table.new }
    ensures in_dir { (p : Program) → faults words.now ≡ sound p → Directory words.now p dir.new }
{
    let mut heads = [0u16; SLOTS];
    let mut unifiers = [0u8; UNIFIER_BYTES];
    let mut work = Workspace {
        buckets: [0; BUCKETS],
        answers: [0; MAX_ROWS],
        found: [0; SET_WORDS],
        kept: [0; KEPT_WORDS],
        answered: [0; ANSWER_WORDS],
    };
    let room = room_in(table.len());
    directory(words, dir);
    let program = Encoded { words, dir };
    match rounds(&program, table, &mut heads, &mut work, &mut unifiers, room) {
        Ok(rows) => {
            finish(&program, table, rows);
            Ok(rows)
        }
        Err(NoRoom) => {
            table.fill(0);
            Err(Fault {
                refusal: Refusal::NoRoom,
                place: room,
            })
        }
    }
}

// "The table is the least set of rows closed under the mode rules": how many rows, in the lent table, or why there is none, and zeros.
pub fn analyse(words: &[u16], table: &mut [u16]) -> Result<usize, Fault>
    ensures { Promise words.now (length table.old) (replied result) table.new }
{
    match check(words) {
        Ok(()) => {
            let mut dir = [0u16; DIR_WORDS];
            tabled(words, &mut dir, table)
        }
        Err(fault) => {
            table.fill(0);
            Err(fault)
        }
    }
}
