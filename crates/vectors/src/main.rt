// Tries the sample texts of the data folder, whose names stand on standard input, one a line: prints the name of each with what the reader
// replies to it, what is read, and whether the whole path prints what is expected. Before them, a text with bad bytes; last, how many agree.
#![tactic(auto)]

mod bad_bytes;
mod reading;
mod samples;

use bad_bytes::try_bad_bytes;
use cases::fields::print_tally;
use intake::read_full;
use samples::try_sample;
use std::io;
use std::rt::Files;
use text::cut::{LINE_FEED, find};

// Every sample that is named.
fn try_samples(rt: &(impl Files + Print), names: &[u8]) -> io::Result<()> {
    let mut agreed = 0;
    let mut tried = 0;
    // A `for` over `split_inclusive` was tried: no bound on the counts can be stated, since an invariant over such an iterator does not
    // compile in a function with type parameters.
    let mut at = 0;
    while at < names.len() {
        let end = find(names, at, LINE_FEED);
        agreed += try_sample(rt, &names[at..end])?;
        tried += 1;
        at = end + 1;
    }
    print_tally(rt, agreed, tried)
}

fn main(rt: HostRuntime) -> io::Result<()> {
    try_bad_bytes(&rt)?;
    let mut names = [0u8; 65536];
    let size = read_full(&mut rt.stdin(), &mut names)?;
    try_samples(&rt, &names[..size])
}
