// Sample texts in the data folder, each by its name: NAME.in, and in NAME.out what is expected of it.
ghost use Rattle.std.specs.Prelude.{IfOk, OnErr, ◌≡◌, length};
ghost use Rattle.intake.specs.Count.{IsPrefixLen};

use intake::read_full;
use std::rt::Files;
use std::{fs, io, str};
use text::put::put_bytes;

const LONGEST_PATH: usize = 64;

// The file, or none.
fn open<R: Files>(rt: &R, name: &[u8], ending: &[u8]) -> Option<R::File> {
    let mut path = [0u8; LONGEST_PATH];
    let name_end = put_bytes(&mut path, 0, name);
    let end = put_bytes(&mut path, name_end, ending);
    if LONGEST_PATH < end {
        return None;
    }
    let path = str::from_utf8(&path[..end]).ok()?;
    fs::open(rt, path).ok()
}

// How many bytes were read; all that are lent where nothing is open.
fn read_all<F: io::Read + Drop>(file: Option<F>, bytes: &mut [u8]) -> io::Result<usize>
    ensures ok { IfOk result (λ n. IsPrefixLen n bytes.new) }
    ensures err { OnErr result (length bytes.new ≡ length bytes.old) }
{
    let Some(mut file) = file else {
        return Ok(bytes.len());
    };
    read_full(&mut file, bytes)
}

// A line that no expected output has.
fn complain(rt: &impl Print, name: &[u8], ending: &[u8]) -> io::Result<()> {
    rt.write_all(name)?;
    rt.write_all(ending)?;
    rt.write_all(b" cannot be opened, or is too long\n")
}

// Reads a file into lent bytes: how many; all that are lent where it cannot be opened or is too long, and that is printed.
fn load(
    rt: &(impl Files + Print),
    name: &[u8],
    ending: &[u8],
    bytes: &mut [u8],
) -> io::Result<usize>
    ensures ok { IfOk result (λ n. IsPrefixLen n bytes.new) }
    ensures err { OnErr result (length bytes.new ≡ length bytes.old) }
{
    let size = read_all(open(rt, name, ending), bytes)?;
    if size == bytes.len() {
        complain(rt, name, ending)?;
    }
    Ok(size)
}

pub fn load_text(rt: &(impl Files + Print), name: &[u8], bytes: &mut [u8]) -> io::Result<usize>
    ensures ok { IfOk result (λ n. IsPrefixLen n bytes.new) }
    ensures err { OnErr result (length bytes.new ≡ length bytes.old) }
{
    load(rt, name, b".in", bytes)
}

pub fn load_expected(rt: &(impl Files + Print), name: &[u8], bytes: &mut [u8]) -> io::Result<usize>
    ensures ok { IfOk result (λ n. IsPrefixLen n bytes.new) }
    ensures err { OnErr result (length bytes.new ≡ length bytes.old) }
{
    load(rt, name, b".out", bytes)
}
