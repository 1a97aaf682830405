// What the reader replies to a text, and what it reads.
use cases::fields::{print_field, print_program, print_refused, print_same};
use reader::read::read_scenario;
use std::io;
use text::name::NAME_BYTES;
use writer::write::write;

// Whether words and names are written again as the text that they were read from.
fn writes_again(text: &[u8], words: &[u16], names: &[u8]) -> bool {
    let mut room = [0u8; 65536];
    match write(words, names, &mut room) {
        Ok(end) => &room[..end.min(65536)] == text,
        Err(_) => false,
    }
}

fn print_accepted(rt: &impl Print, text: &[u8], words: &[u16], names: &[u8]) -> io::Result<()> {
    rt.write_all(b"\taccepted")?;
    print_field(rt, words.len())?;
    print_same(rt, writes_again(text, words, names))?;
    print_program(rt, words, names)
}

// The reply; of an accepted text also how many words, whether it is written again the same, and the lines of words and names.
pub fn print_reading(rt: &impl Print, text: &[u8]) -> io::Result<()> {
    let mut words = [0u16; 2048];
    let mut names = [0u8; 2048];
    match read_scenario(text, &mut words, &mut names) {
        Ok(count) => {
            let program = &words[..count];
            let size = (usize::from(program[0]) + usize::from(program[1])) * NAME_BYTES;
            print_accepted(rt, text, program, &names[..size])
        }
        Err(fault) => print_refused(rt, fault.refusal as u16, fault.place),
    }
}
