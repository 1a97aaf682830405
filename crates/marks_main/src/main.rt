// Passes marks on hand-chosen sets, and writes each resulting mask on a line. A set's bit v is A's variable v, its bit 16 + v is B's.
#![tactic(auto)]

use marks::pass::pass_on;
use marks::rows::{Order, kept, renumber, together};
use std::io;

// Where the sets of atom A begin, and those of atom B.
const A: usize = 0;

const B: usize = 16;

fn print(rt: &impl Print, n: u16) -> io::Result<()> {
    println!(rt; "{n}")
}

// *Legs*: A is the call `leg(G0,V1)`. It passes its mark to the head `leg(V0,V1)`, and none to `leg(b,V0)`.
fn call_to_head(rt: &impl Print) -> io::Result<()> {
    let mut sets = [0u32; 32];
    sets[0] = 0x10000;
    sets[1] = 0x20000;
    sets[16] = 0x10000;
    sets[17] = 0x20000;
    print(rt, pass_on(&sets, A, 1, 3, B, 0, 3))?;
    sets[0] = 0;
    sets[1] = 0x10000;
    print(rt, pass_on(&sets, A, 1, 3, B, 0, 1))
}

// The head `leg(a,b)` has no variables: "None at all counts as all." The call keeps its own mark.
fn head_to_call(rt: &impl Print) -> io::Result<()> {
    let sets = [0u32; 32];
    print(rt, pass_on(&sets, B, 0, 0, A, 1, 3))?;
    print(rt, pass_on(&sets, B, 0, 0, A, 0, 3))?;
    print(rt, pass_on(&sets, B, 0, 0, A, 0, 0))
}

// *Late call*: `p(V0,V0)` takes its mark to both arguments; a mark of B's own feeds no other variable of B.
fn one_for_two(rt: &impl Print) -> io::Result<()> {
    let mut sets = [0u32; 32];
    sets[0] = 0x10000;
    sets[16] = 0x10000;
    sets[17] = 0x10000;
    print(rt, pass_on(&sets, A, 1, 1, B, 0, 3))?;
    print(rt, pass_on(&sets, A, 0, 1, B, 1, 3))?;
    print(rt, pass_on(&sets, B, 1, 3, A, 0, 1))?;
    print(rt, pass_on(&sets, B, 2, 3, A, 0, 1))
}

// B's V0 stands for a compound of A's V0 and V1: both must be known. A mark of a variable that A has not makes none known.
fn compound(rt: &impl Print) -> io::Result<()> {
    let mut sets = [0u32; 32];
    sets[0] = 1;
    sets[1] = 2;
    sets[16] = 3;
    print(rt, pass_on(&sets, A, 1, 3, B, 0, 1))?;
    print(rt, pass_on(&sets, A, 3, 3, B, 0, 1))?;
    print(rt, pass_on(&sets, A, 3, 1, B, 0, 1))
}

// The last variables of both atoms, and all of them.
fn most_variables(rt: &impl Print) -> io::Result<()> {
    let mut sets = [0u32; 32];
    sets[15] = 0x80000000;
    sets[31] = 0x80000000;
    print(rt, pass_on(&sets, A, 0x8000, 0x8000, B, 0, 0x8000))?;
    print(rt, pass_on(&sets, A, 0x7fff, 0xffff, B, 0, 0xffff))?;
    print(rt, pass_on(&sets, A, 0xffff, 0xffff, B, 0, 0xffff))
}

fn rows(rt: &impl Print) -> io::Result<()> {
    print(rt, together(5, 3))?;
    print(rt, kept(6, 3))?;
    let mut variables = [0u8; 16];
    variables[0] = 5;
    variables[1] = 15;
    let three = Order {
        variables,
        count: 3,
    };
    let none = Order {
        variables,
        count: 0,
    };
    print(rt, renumber(&three, 0x8001))?;
    print(rt, renumber(&none, 0xffff))
}

fn main(rt: HostRuntime) -> io::Result<()> {
    call_to_head(&rt)?;
    head_to_call(&rt)?;
    one_for_two(&rt)?;
    compound(&rt)?;
    most_variables(&rt)?;
    rows(&rt)
}
