// The library for C: each export calls the function of its name in `threadknoll`, and promises the same. `include/threadknoll.h` says it in
// plain words.
#![tactic(auto)]

ghost use Rattle.std.specs.Prelude.{◌≡◌, ◌*◌, length};
ghost use Rattle.program.specs.Limits.{max_words, max_bytes, max_rows};
ghost use Rattle.text.specs.Name.{name_bytes, max_names};
ghost use Rattle.table.specs.Table.{Promise};
ghost use Rattle.reader.specs.Read.{Reads};
ghost use Rattle.writer.specs.Write.{Writes};
ghost use Rattle.lister.specs.ListingPromise.{ListingPromise};
ghost use Rattle.threadknoll.specs.Told.{told};

// "At most 40,960 bytes."
#[unsafe(no_mangle)]
pub extern "C" fn threadknoll_max_text() -> usize
    ensures { result ≡ max_bytes }
{
    threadknoll::threadknoll_max_text()
}

// "at most 2,048" words
#[unsafe(no_mangle)]
pub extern "C" fn threadknoll_max_words() -> usize
    ensures { result ≡ max_words }
{
    threadknoll::threadknoll_max_words()
}

// "Each name is kept as 16 bytes": of 64 predicates and 64 functions
#[unsafe(no_mangle)]
pub extern "C" fn threadknoll_max_names() -> usize
    ensures { result ≡ max_names * name_bytes }
{
    threadknoll::threadknoll_max_names()
}

// "but at most 4,096" rows
#[unsafe(no_mangle)]
pub extern "C" fn threadknoll_max_rows() -> usize
    ensures { result ≡ max_rows }
{
    threadknoll::threadknoll_max_rows()
}

// From a scenario text to an encoded program with its names.
#[unsafe(no_mangle)]
pub extern "C" fn threadknoll_read(
    text: &[u8],
    words: &mut [u16],
    names: &mut [u8],
    place: &mut usize,
    count: &mut usize,
) -> u16
    ensures { Reads text.now (length words.old) (length names.old) (told result place.new count.new) (words.new, names.new) }
{
    threadknoll::threadknoll_read(text, words, names, place, count)
}

// From an encoded program with its names back to the text.
#[unsafe(no_mangle)]
pub extern "C" fn threadknoll_write(
    words: &[u16],
    names: &[u8],
    text: &mut [u8],
    place: &mut usize,
    count: &mut usize,
) -> u16
    ensures { Writes words.now names.now (length text.old) (told result place.new count.new) text.new }
{
    threadknoll::threadknoll_write(words, names, text, place, count)
}

// The mode table of an encoded program.
#[unsafe(no_mangle)]
pub extern "C" fn threadknoll_analyse(
    words: &[u16],
    table: &mut [u16],
    place: &mut usize,
    count: &mut usize,
) -> u16
    ensures { Promise words.now (length table.old) (told result place.new count.new) table.new }
{
    threadknoll::threadknoll_analyse(words, table, place, count)
}

// The mode table of an encoded program with its names, and its listing.
#[unsafe(no_mangle)]
pub extern "C" fn threadknoll_list(
    words: &[u16],
    names: &[u8],
    table: &mut [u16],
    out: &mut [u8],
    place: &mut usize,
    count: &mut usize,
) -> u16
    ensures { ListingPromise words.now names.now (length table.old) (length out.old) (told result place.new count.new) table.new out.new }
{
    threadknoll::threadknoll_list(words, names, table, out, place, count)
}
