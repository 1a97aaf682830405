// Cases on standard input: a line of numbers each.
#![tactic(auto)]

pub mod fields;
pub mod files;

ghost use Rattle.std.specs.Prelude.{◌≤◌, ◌≡◌, length, IfOk, IfSome, OnErr};

use std::io;
use std::io::Read;

// What is read from, and the bytes that were read ahead: those of the buffer from `at` to `end` are still to be taken.
#[derive(Drop)]
pub struct Input<R> {
    from: R,
    buffer: [u8; 4096],
    at: usize,
    end: usize,
    ghost within: { end ≤ 4096 },
}

// The words of the line so far, and the number that is being read, if one is.
#[derive(Drop)]
struct Line {
    count: usize,
    number: Option<u16>,
}

pub fn print(rt: &impl Print, n: usize, end: &[u8]) -> io::Result<()> {
    print!(rt; "{n}")?;
    rt.write_all(end)
}

pub fn print_words(rt: &impl Print, words: &[u16]) -> io::Result<()> {
    for word in words {
        print(rt, usize::from(*word), b" ")?;
    }
    Ok(())
}

// The number so far with one more digit; a number too large for a word stays the largest.
fn grown(number: Option<u16>, digit: u8) -> u16 {
    number
        .unwrap_or(0)
        .saturating_mul(10)
        .saturating_add(u16::from(digit))
}

// The line with the number that is being read behind its words, if there is one and room for it.
fn ended(words: &mut [u16], line: Line) -> usize
    requires { line.count ≤ length words.old }
    ensures { result ≤ length words.old }
{
    if let Some(number) = line.number {
        if let Some(word) = words.get_mut(line.count) {
            *word = number;
            return line.count + 1;
        }
    }
    line.count
}

// One more byte of the line, which does not end it.
fn taken(words: &mut [u16], line: Line, byte: u8) -> Line
    requires { line.count ≤ length words.old }
    ensures { result.count ≤ length words.old }
{
    if byte.is_ascii_digit() {
        return Line {
            count: line.count,
            number: Some(grown(line.number, byte - b'0')),
        };
    }
    Line {
        count: ended(words, line),
        number: None,
    }
}

impl<R: Read> Input<R> {
    // Before the first line: no byte is held.
    pub fn new(from: R) -> Input<R>
        ensures { (result.from ≡ from) × (result.at ≡ 0) × (result.end ≡ 0) }
    {
        Input {
            from,
            buffer: [0; 4096],
            at: 0,
            end: 0,
        }
    }

    // The next byte, or none at the end.
    fn byte(&mut self) -> io::Result<Option<u8>> {
        if self.end <= self.at {
            self.end = self.from.read(&mut self.buffer)?;
            self.at = 0;
        }
        if self.end <= self.at {
            return Ok(None);
        }
        let byte = self.buffer[self.at];
        self.at += 1;
        Ok(Some(byte))
    }

    // Reads the next line into the words: how many it has, or none where no line is left. A proved loop has to end, and nothing says that the
    // input does: the turns are counted.
    pub fn line(&mut self, words: &mut [u16]) -> io::Result<Option<usize>>
        ensures ok { IfOk result (λ line. IfSome line (λ count. count ≤ length words.old)) }
        ensures err { OnErr result (length words.new ≡ length words.old) }
    {
        let mut line = Line {
            count: 0,
            number: None,
        };
        for _ in 0..u64::MAX {
            match self.byte()? {
                None => break,
                Some(b'\n') => return Ok(Some(ended(words, line))),
                Some(byte) => line = taken(words, line, byte),
            }
        }
        Ok(None)
    }

    // Every line, one after another, read into the words: of a longer one as many as there is room for.
    pub fn each_line<F: FnMut(&[u16]) -> io::Result<()>>(
        &mut self,
        words: &mut [u16],
        mut act: F,
    ) -> io::Result<()>
        requires { F.IsAlwaysCallable act }
    {
        for _ in 0..u64::MAX {
            let Some(count) = self.line(words)? else {
                break;
            };
            act(&words[..count])?;
        }
        Ok(())
    }
}
