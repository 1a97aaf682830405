// Reads encoded programs from standard input, one to a line, and writes the reply to each, number and place; behind an accepted one its shapes,
// each with the number of its variables and its cells.
#![tactic(auto)]

ghost use Rattle.std.specs.Prelude.{◌<◌, ◌≡◌, length};
ghost use Rattle.program.specs.Limits.{max_shapes};
ghost use Rattle.program.specs.Program.{Program};
ghost use Rattle.program.specs.Faults.{faults, sound};
ghost use Rattle.directory.specs.Layout.{dir_words};

use cases::{Input, print, print_words};
use directory::layout::{DIR_WORDS, MAX_SHAPES, SHAPE_CELLS, SHAPE_COUNT, SHAPE_START, SHAPE_VARS};
use program::reply::Reply;
use program::scan::check;
use shaping::directory;
use std::io;

fn shape(rt: &impl Print, dir: &[u16], s: usize) -> io::Result<()>
    requires { (length dir.now ≡ dir_words) × (s < max_shapes) }
{
    let from = usize::from(dir[SHAPE_START + s]).min(2048);
    let to = usize::from(dir[SHAPE_START + s + 1]).min(2048);
    rt.write_all(b"| ")?;
    print(rt, usize::from(dir[SHAPE_VARS + s]), b" ")?;
    if from <= to {
        print_words(rt, &dir[SHAPE_CELLS + from..SHAPE_CELLS + to])?;
    }
    Ok(())
}

fn shapes(rt: &impl Print, words: &[u16]) -> io::Result<()>
    requires { (p : Program) × (faults words.now ≡ sound p) }
{
    let mut dir = [0u16; DIR_WORDS];
    directory(words, &mut dir);
    let count = usize::from(dir[SHAPE_COUNT]).min(MAX_SHAPES);
    for s in 0..count {
        shape(rt, &dir, s)?;
    }
    Ok(())
}

fn reply(rt: &impl Print, words: &[u16]) -> io::Result<()> {
    let outcome = check(words);
    let r = Reply::from(outcome.map(|()| 0));
    print(rt, usize::from(r.number), b" ")?;
    print(rt, r.place, b" ")?;
    if let Ok(()) = outcome {
        shapes(rt, words)?;
    }
    rt.write_all(b"\n")
}

fn main(rt: HostRuntime) -> io::Result<()> {
    // one word more than a program may have, so that a longer line is too long
    let mut words = [0u16; 2049];
    Input::new(rt.stdin()).each_line(&mut words, |line| reply(&rt, line))
}
