// From an encoded program with names to scenario text.
ghost use Rattle.std.specs.Prelude.{◌≡◌, length};
ghost use Rattle.program.specs.Reply.{replied};
ghost use Rattle.directory.specs.Said.{said, Accepted};
ghost use Rattle.text.specs.Put.{Put};
ghost use Rattle.written_lines.specs.Walked.{Named};
ghost use Rattle.writer.specs.Write.{text_of, Writes};
ghost use Rattle.writer.specs.Left.{Answers};

use crate::names::check_names;
use directory::layout::PREDICATES_START;
use program::reply::{Fault, Refusal};
use program::scan::check;
use text::put::clear;
use written_lines::lines::{put_clauses, put_declarations, put_query};
use written_lines::symbols::Symbols;
use written_lines::walked::Walked;

// The text of an accepted program whose names are sound; the place behind it, or one past the room.
fn put_text(text: &mut [u8], words: &[u16], names: &[u8]) -> usize
    requires { (Accepted words.now) × (Named names.now (length (said words.now).predicates) (length (said words.now).functions)) }
    ensures { Put (text_of (said words.now) names.now) text.old text.new 0 result }
{
    let middle = PREDICATES_START + usize::from(words[0]);
    let start = middle + usize::from(words[1]);
    let count = usize::from(words[2]);
    let symbols = Symbols {
        predicates: &words[PREDICATES_START..middle],
        functions: &words[middle..start],
        names,
    };
    let first = put_declarations(text, 0, b"pred", names, 0, symbols.predicates);
    let end = put_declarations(
        text,
        first,
        b"func",
        names,
        symbols.predicates.len(),
        symbols.functions,
    );
    let walked = put_clauses(text, words, Walked { at: start, end }, count, &symbols);
    put_query(text, words, walked, &symbols)
}

// The words' faults, the names' faults, and then the room: how many bytes the text has, which stand at the start of the room.
fn put_answer(words: &[u16], names: &[u8], text: &mut [u8]) -> Result<usize, Fault>
    ensures { Answers words.now names.now text.old result text.new }
{
    check(words)?;
    check_names(names, usize::from(words[0]), usize::from(words[1]))?;
    let end = put_text(text, words, names);
    if text.len() < end {
        return Err(Fault {
            refusal: Refusal::NoRoom,
            place: text.len(),
        });
    }
    Ok(end)
}

// From an encoded program with its names to its text: how many bytes, or why it is refused, and every lent byte after.
pub fn write(words: &[u16], names: &[u8], text: &mut [u8]) -> Result<usize, Fault>
    ensures { Writes words.now names.now (length text.old) (replied result) text.new }
{
    let answer = put_answer(words, names, text);
    // "lent output past what was written is 0. Every refusal zeroes all lent output."
    match answer {
        Ok(end) => clear(text, end),
        Err(_) => clear(text, 0),
    }
    answer
}
