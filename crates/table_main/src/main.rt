// Reads cases from standard input, one to a line: the length of the table in words, then the words of an encoded program.
// Writes the reply to each, number, place and count, then the rows, then how many of the words behind them are not 0.
#![tactic(auto)]

use analysis::analyse::analyse;
use cases::{Input, print, print_words};
use program::limits::{ROW_SIZE, TABLE_WORDS};
use program::reply::Reply;
use std::io;

// How many of the words are not 0.
fn others(words: &[u16]) -> usize {
    words.iter().filter(|word| **word != 0).count()
}

// The table still has the words of the case before.
fn reply(rt: &impl Print, words: &[u16], table: &mut [u16]) -> io::Result<()> {
    let r = Reply::from(analyse(words, table));
    print(rt, usize::from(r.number), b" ")?;
    print(rt, r.place, b" ")?;
    print(rt, r.count, b" ")?;
    let end = ROW_SIZE * r.count.min(table.len() / ROW_SIZE);
    print_words(rt, &table[..end])?;
    print(rt, others(&table[end..]), b"\n")
}

fn case(rt: &impl Print, line: &[u16], table: &mut [u16]) -> io::Result<()> {
    if line.len() == 0 {
        return Ok(());
    }
    let size = usize::from(line[0]).min(table.len());
    reply(rt, &line[1..], &mut table[..size])
}

fn main(rt: HostRuntime) -> io::Result<()> {
    // the length of the table, and one word more than a program may have, so that a longer line is too long
    let mut words = [0u16; 2050];
    let mut table = [0u16; TABLE_WORDS];
    Input::new(rt.stdin()).each_line(&mut words, |line| case(&rt, line, &mut table))
}
