// What is printed for a text, in lent bytes.
ghost use Rattle.std.specs.Prelude.{◌≡◌, ◌≤◌, length, take};
ghost use Rattle.program.specs.Reply.{number_of};
ghost use Rattle.printing.specs.Printed.{refused_line, listing_room, Printed, PrintedOf};

use lister::list::list;
use program::limits::TABLE_WORDS;
use program::reply::{Fault, Reply};
use reader::read::read_scenario;
use text::cut::{LINE_FEED, TAB};
use text::name::NAME_BYTES;
use text::put::{put_byte, put_bytes, put_number, put_wide};

// "one line `refused`, number, place"
fn refuse(fault: Fault, out: &mut [u8]) -> usize
    requires { length out.old ≡ listing_room }
    ensures { (result ≤ listing_room) × (take result out.new ≡ refused_line (number_of fault.refusal) fault.place) }
{
    let reply = Reply::from(Err(fault));
    let number_at = put_bytes(out, 0, b"refused\t");
    let number_end = put_number(out, number_at, reply.number);
    let place_at = put_byte(out, number_end, TAB);
    let place_end = put_wide(out, place_at, reply.place);
    put_byte(out, place_end, LINE_FEED)
}

// For a program with its names; how many bytes.
fn print_listing(words: &[u16], names: &[u8], out: &mut [u8]) -> usize
    requires { length out.old ≡ listing_room }
    ensures { (result ≤ listing_room) × PrintedOf words.now names.now (take result out.new) }
{
    let mut table = [0u16; TABLE_WORDS];
    match list(words, names, &mut table, out) {
        Ok(size) => size,
        Err(fault) => refuse(fault, out),
    }
}

// For a text, with "room for all words and names"; how many bytes.
pub fn print(text: &[u8], out: &mut [u8]) -> usize
    requires { length out.old ≡ listing_room }
    ensures { (result ≤ listing_room) × Printed text.now (take result out.new) }
{
    let mut words = [0u16; 2048];
    let mut names = [0u8; 2048];
    match read_scenario(text, &mut words, &mut names) {
        Ok(count) => {
            let program = &words[..count];
            let size = (usize::from(program[0]) + usize::from(program[1])) * NAME_BYTES;
            print_listing(program, &names[..size], out)
        }
        Err(fault) => refuse(fault, out),
    }
}
