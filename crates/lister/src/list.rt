// The lister: from a program with its names, the table in lent words and its listing in lent bytes.
ghost use Rattle.std.specs.Prelude.{length};
ghost use Rattle.program.specs.Reply.{replied};
ghost use Rattle.lister.specs.ListingPromise.{ListingPromise};
ghost use Rattle.lister.specs.Left.{Left};

use crate::listing::listing;
use analysis::analyse::tabled;
use directory::encoded::Encoded;
use directory::layout::DIR_WORDS;
use program::reply::{Fault, Refusal};
use program::scan::check;
use text::put::clear;
use writer::names::check_names;

// "After all faults in the words, writer and lister check the names"; "then room (9), .. rows before listing": how many bytes the listing
// has, which stand at the start of the room.
fn put_listing(
    words: &[u16],
    names: &[u8],
    table: &mut [u16],
    out: &mut [u8],
) -> Result<usize, Fault>
    ensures { Left words.now names.now (length table.old) (length out.old) result table.new out.new }
{
    check(words)?;
    check_names(names, usize::from(words[0]), usize::from(words[1]))?;
    let mut dir = [0u16; DIR_WORDS];
    let rows = tabled(words, &mut dir, table)?;
    let size = listing(&Encoded { words, dir: &dir }, names, table, rows, out);
    if out.len() < size {
        return Err(Fault {
            refusal: Refusal::NoRoom,
            place: out.len(),
        });
    }
    Ok(size)
}

// The table of a program and its listing: how many bytes, or why it is refused, and every lent word and byte after.
pub fn list(words: &[u16], names: &[u8], table: &mut [u16], out: &mut [u8]) -> Result<usize, Fault>
    ensures { ListingPromise words.now names.now (length table.old) (length out.old) (replied result) table.new out.new }
{
    let answer = put_listing(words, names, table, out);
    // "lent output past what was written is 0. Every refusal zeroes all lent output."
    match answer {
        Ok(size) => clear(out, size),
        Err(_) => {
            table.fill(0);
            clear(out, 0);
        }
    }
    answer
}
