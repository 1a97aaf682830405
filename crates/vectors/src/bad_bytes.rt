// A text with a bad byte in each of its places: a reply each time.
ghost use Rattle.std.specs.Prelude.{◌≤◌, ◌<◌, length};

use crate::reading::print_reading;
use cases::fields::{print_byte, print_field};
use cases::files::load_text;
use std::io;
use std::rt::Files;
use text::cut::LINE_FEED;

// A bad byte in one place: the place, the byte, the reply.
fn try_byte(rt: &impl Print, text: &mut [u8], at: usize, bad: u8) -> io::Result<()>
    requires { at < length text.old }
{
    let kept = text[at];
    text[at] = bad;
    print!(rt; "{at}")?;
    print_field(rt, bad as usize)?;
    print_reading(rt, text)?;
    print_byte(rt, LINE_FEED)?;
    text[at] = kept;
    Ok(())
}

// Each of the seven bytes in every place.
fn try_everywhere(rt: &impl Print, text: &mut [u8]) -> io::Result<()>
    requires { length text.old ≤ 65536 }
{
    let bad = [0u8, 9, 10, 13, 127, 128, 255];
    for n in 0..7 * text.len() {
        try_byte(rt, text, n / 7, bad[n % 7])?;
    }
    Ok(())
}

pub fn try_bad_bytes(rt: &(impl Files + Print)) -> io::Result<()> {
    let mut text = [0u8; 65536];
    let size = load_text(rt, b"legs", &mut text)?;
    if size < text.len() {
        try_everywhere(rt, &mut text[..size])?;
    }
    Ok(())
}
