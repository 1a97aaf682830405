// The lines of a text, one after another.
ghost use Rattle.std.specs.Prelude.{[], ◌≡◌, ◌*◌, ◌^◌, ◌<◌, length};
ghost use Rattle.program.specs.Limits.{max_words};
ghost use Rattle.text.specs.Line.{parts, line_feed};
ghost use Rattle.text.specs.Name.{name_bytes, max_names};
ghost use Rattle.text.specs.Room.{in_room};
ghost use Rattle.cells.specs.TextSoFar.{nothing};
ghost use Rattle.text_lines.specs.Lines.{all_lines};
ghost use Rattle.reader.specs.Found.{FoundAs};

use cells::state::{Counts, Line, SymbolRoom};
use declarations::lined::{Lined, Sizes};
use program::reply::{Fault, Refusal};
use text::cut::{LINE_FEED, find};
use text_lines::line::read_line;

// All lines, from the first on.
pub fn read_lines(text: &[u8], symbols: &mut SymbolRoom, words: &mut [u16]) -> Result<Sizes, Fault>
    requires { length text.now < 2 ^ 29 }
    ensures { symbols.old.names ≡ in_room (max_names * name_bytes) [] → words.old ≡ in_room max_words [] → FoundAs symbols.new.names words.new result (all_lines nothing 0 (parts line_feed text.now)) }
{
    let mut c = Counts {
        predicates: 0,
        functions: 0,
        clauses: 0,
        words: 3,
    };
    let mut at = 0;
    // Not an iterator over the lines: a fault names a place of the text, and a line that `split` hands out has none.
    loop {
        let end = find(text, at, LINE_FEED);
        if text.len() <= end {
            return Err(Fault {
                refusal: Refusal::TooSoon,
                place: end,
            });
        }
        let line = Line {
            bytes: &text[at..end],
            place: at,
        };
        match read_line(&line, c, symbols, words)? {
            Lined::More(next) => {
                c = next;
                at = end + 1;
            }
            Lined::Last(sizes) => {
                if end + 1 < text.len() {
                    return Err(Fault {
                        refusal: Refusal::Follows,
                        place: end + 1,
                    });
                }
                return Ok(sizes);
            }
        }
    }
}
