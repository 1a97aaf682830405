// One sample: a text, and what is to be printed for it.
ghost use Rattle.std.specs.Prelude.{◌≡◌, true, ◌≤◌, IfOk};
ghost use Rattle.printing.specs.Printed.{Printed};

use crate::reading::print_reading;
use cases::fields::{print_byte, print_same};
use cases::files::{load_expected, load_text};
use printing::print::print;
use std::io;
use std::rt::Files;
use text::cut::LINE_FEED;

// Whether a text is printed as expected.
fn agrees(text: &[u8], expected: &[u8]) -> bool
    ensures { (result ≡ true → Printed text.now expected.now) × (Printed text.now expected.now → result ≡ true) }
{
    let mut out = [0u8; 65536];
    let end = print(text, &mut out);
    &out[..end] == expected
}

fn print_sample(rt: &impl Print, name: &[u8], text: &[u8], expected: &[u8]) -> io::Result<usize>
    ensures { IfOk result (λ n. n ≤ 1) }
{
    rt.write_all(name)?;
    print_reading(rt, text)?;
    rt.write_all(b"\nprinted")?;
    let agreed = print_same(rt, agrees(text, expected))?;
    print_byte(rt, LINE_FEED)?;
    Ok(agreed)
}

// The sample of a name; how many agree: one or none.
pub fn try_sample(rt: &(impl Files + Print), name: &[u8]) -> io::Result<usize>
    ensures { IfOk result (λ n. n ≤ 1) }
{
    let mut text = [0u8; 65536];
    let mut expected = [0u8; 65536];
    let size = load_text(rt, name, &mut text)?;
    let expected_size = load_expected(rt, name, &mut expected)?;
    if size == text.len() {
        return Ok(0);
    }
    print_sample(rt, name, &text[..size], &expected[..expected_size])
}
