// The library for the engine: the public functions, each with its reply as C is told it. `threadknoll_c` exports them to C, and
// `include/threadknoll.h` says in plain words what each promises.
#![tactic(auto)]

ghost use Rattle.std.specs.Prelude.{◌≡◌, ◌*◌, length};
ghost use Rattle.program.specs.Limits.{max_words, max_bytes, max_rows};
ghost use Rattle.program.specs.Reply.{replied};
ghost use Rattle.text.specs.Name.{name_bytes, max_names};
ghost use Rattle.table.specs.Table.{Promise};
ghost use Rattle.reader.specs.Read.{Reads};
ghost use Rattle.writer.specs.Write.{Writes};
ghost use Rattle.lister.specs.ListingPromise.{ListingPromise};
ghost use Rattle.threadknoll.specs.Told.{told};

use analysis::analyse::analyse;
use lister::list::list;
use program::limits::{MAX_BYTES, MAX_DECLARED, MAX_ROWS, MAX_WORDS};
use program::reply::{Fault, Reply};
use reader::read::read_scenario;
use text::name::NAME_BYTES;
use writer::write::write;

// An outcome as C is told it: its reply.
fn tell(outcome: Result<usize, Fault>, place: &mut usize, count: &mut usize) -> u16
    ensures { told result place.new count.new ≡ replied outcome }
{
    let reply = Reply::from(outcome);
    *place = reply.place;
    *count = reply.count;
    reply.number
}

// "At most 40,960 bytes."
pub fn threadknoll_max_text() -> usize
    ensures { result ≡ max_bytes }
{
    MAX_BYTES
}

// "at most 2,048" words
pub fn threadknoll_max_words() -> usize
    ensures { result ≡ max_words }
{
    MAX_WORDS
}

// "Each name is kept as 16 bytes": of 64 predicates and 64 functions
pub fn threadknoll_max_names() -> usize
    ensures { result ≡ max_names * name_bytes }
{
    2 * MAX_DECLARED * NAME_BYTES
}

// "but at most 4,096" rows
pub fn threadknoll_max_rows() -> usize
    ensures { result ≡ max_rows }
{
    MAX_ROWS
}

// From a scenario text to an encoded program with its names.
pub fn threadknoll_read(
    text: &[u8],
    words: &mut [u16],
    names: &mut [u8],
    place: &mut usize,
    count: &mut usize,
) -> u16
    ensures { Reads text.now (length words.old) (length names.old) (told result place.new count.new) (words.new, names.new) }
{
    tell(read_scenario(text, words, names), place, count)
}

// From an encoded program with its names back to the text.
pub fn threadknoll_write(
    words: &[u16],
    names: &[u8],
    text: &mut [u8],
    place: &mut usize,
    count: &mut usize,
) -> u16
    ensures { Writes words.now names.now (length text.old) (told result place.new count.new) text.new }
{
    tell(write(words, names, text), place, count)
}

// The mode table of an encoded program.
pub fn threadknoll_analyse(
    words: &[u16],
    table: &mut [u16],
    place: &mut usize,
    count: &mut usize,
) -> u16
    ensures { Promise words.now (length table.old) (told result place.new count.new) table.new }
{
    tell(analyse(words, table), place, count)
}

// The mode table of an encoded program with its names, and its listing.
pub fn threadknoll_list(
    words: &[u16],
    names: &[u8],
    table: &mut [u16],
    out: &mut [u8],
    place: &mut usize,
    count: &mut usize,
) -> u16
    ensures { ListingPromise words.now names.now (length table.old) (length out.old) (told result place.new count.new) table.new out.new }
{
    tell(list(words, names, table, out), place, count)
}
