// From a scenario text to words and names in lent room.
ghost use Rattle.std.specs.Prelude.{◌≡◌, [], ◌++◌, ◌-◌, ◌*◌, ◌≤◌, length, replicate};
ghost use Rattle.program.specs.Limits.{max_words};
ghost use Rattle.program.specs.Reply.{replied};
ghost use Rattle.text.specs.Name.{name_bytes, max_names};
ghost use Rattle.text.specs.Room.{in_room};
ghost use Rattle.reader.specs.Read.{answer_of, Reads};
ghost use Rattle.reader.specs.Found.{FoundAs};

use crate::all_lines::read_lines;
use cells::state::SymbolRoom;
use declarations::lined::Sizes;
use program::limits::{MAX_BYTES, MAX_WORDS};
use program::reply::{Fault, Refusal, Reply};

// "The length comes first (8), then faults from left to right, then a text's word count (8), then room (9), words before names"
fn read_text(
    text: &[u8],
    room: Sizes,
    symbols: &mut SymbolRoom,
    words: &mut [u16],
) -> Result<Sizes, Fault>
    ensures { symbols.old.names ≡ in_room (max_names * name_bytes) [] → words.old ≡ in_room max_words [] → FoundAs symbols.new.names words.new result (answer_of text.now room.words room.names) }
{
    if MAX_BYTES < text.len() {
        return Err(Fault {
            refusal: Refusal::TooLong,
            place: MAX_BYTES,
        });
    }
    let sizes = read_lines(text, symbols, words)?;
    if MAX_WORDS < sizes.words {
        return Err(Fault {
            refusal: Refusal::TooLong,
            place: text.len(),
        });
    }
    if room.words < sizes.words {
        return Err(Fault {
            refusal: Refusal::NoRoom,
            place: room.words,
        });
    }
    if room.names < sizes.names {
        return Err(Fault {
            refusal: Refusal::NoRoom,
            place: room.names,
        });
    }
    Ok(sizes)
}

// "lent output past what was written is 0": one's own, and zeros behind it.
fn hand<T: Copy>(lent: &mut [T], own: &[T], zero: T)
    requires { length own.now ≤ length lent.old }
    ensures { lent.new ≡ own.now ++ replicate (length lent.old - length own.now) zero }
{
    // One by one: `copy_from_slice` would have the archive for C ask for `memcpy`.
    for i in 0..lent.len() {
        lent[i] = if i < own.len() { own[i] } else { zero };
    }
}

// From a scenario text to an encoded program with its names: how many words, and every lent word after.
pub fn read_scenario(text: &[u8], words: &mut [u16], names: &mut [u8]) -> Result<usize, Fault>
    ensures { Reads text.now (length words.old) (length names.old) (replied result) (words.new, names.new) }
{
    let mut own_words = [0u16; 2048];
    let mut symbols = SymbolRoom {
        names: [0u8; 2048],
        hashes: [0u32; 128],
        arities: [0u16; 128],
    };
    let room = Sizes {
        words: words.len(),
        names: names.len(),
    };
    match read_text(text, room, &mut symbols, &mut own_words) {
        Ok(sizes) => {
            hand(words, &own_words[..sizes.words], 0);
            hand(names, &symbols.names[..sizes.names], 0);
            Ok(sizes.words)
        }
        Err(fault) => {
            words.fill(0);
            names.fill(0);
            Err(fault)
        }
    }
}

// The same, as the reply of document 01.
pub fn read(text: &[u8], words: &mut [u16], names: &mut [u8]) -> Reply
    ensures { Reads text.now (length words.old) (length names.old) result (words.new, names.new) }
{
    Reply::from(read_scenario(text, words, names))
}
