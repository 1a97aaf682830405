// What a token is at its place in a line.
ghost use Rattle.std.specs.Prelude.{◌≡◌, ◌+◌, ◌≤◌, ◌<◌, length, [], Some};
ghost use Rattle.text.specs.Name.{Hashed, max_names};
ghost use Rattle.cells.specs.Cells.{mode_of, symbol_at, variable_at, named_of, start_of, argument_of, look_of};
ghost use Rattle.cells.specs.Room.{Few, symbols_in, row_of, look_in};

use crate::state::{Counts, Progress, SymbolRoom};
use program::limits::{ATOM_CELLS, MAX_BODY, MAX_VARIABLE};
use program::reply::Refusal;
use text::name::{find_name, pad};
use text::token::{Token, token_of};

// What is seen where a token is sound.
#[derive(Clone, Copy)]
pub enum Seen {
    // a symbol's cell, and how many arguments it wants
    Symbol { word: u16, arity: u16 },
    Variable { number: usize, grounded: bool },
}

pub fn mode_of(grounded: bool) -> u16
    ensures { result ≡ mode_of grounded }
{
    u16::from(grounded)
}

fn symbol_at(arities: &[u16], from: usize, to: usize, n: usize) -> Result<Seen, Refusal>
    requires { (from ≤ n) × (to ≤ max_names) × (to ≤ length arities.now) }
    ensures { look_in result ≡ symbol_at arities.now from to n }
{
    if n < to {
        return Ok(Seen::Symbol {
            word: (n - from) as u16,
            arity: arities[n],
        });
    }
    Err(Refusal::Undeclared)
}

// "a variable is above 15 or skips a number"; "a query variable is both `V` and `G`"
fn variable_at(seen: usize, modes: &[u16; 16], v: usize, grounded: bool) -> Result<Seen, Refusal>
    ensures { look_in result ≡ variable_at seen modes.now v grounded }
{
    if MAX_VARIABLE < v || seen < v {
        return Err(Refusal::BadVariable);
    }
    if v < seen && modes[v] != mode_of(grounded) {
        return Err(Refusal::BothModes);
    }
    Ok(Seen::Variable {
        number: v,
        grounded,
    })
}

// A symbol that is declared, from number `from` on and below number `to`.
fn named(s: &[u8], from: usize, to: usize, symbols: &SymbolRoom) -> Result<Seen, Refusal>
    requires { (from ≤ to) × (to ≤ max_names) }
    ensures { Hashed symbols.now.names symbols.now.hashes from to → look_in result ≡ named_of symbols.now.names symbols.now.arities from to s.now }
{
    let key = pad(s);
    let n = find_name(&symbols.names, &symbols.hashes, from, to, &key);
    symbol_at(&symbols.arities, from, to, n)
}

// The first cell of an atom.
fn start_of(
    s: &[u8],
    token: Token,
    p: Progress,
    c: Counts,
    symbols: &SymbolRoom,
) -> Result<Seen, Refusal>
    requires { Few c }
    ensures { Hashed symbols.now.names symbols.now.hashes 0 (c.predicates + c.functions) → look_in result ≡ start_of (symbols_in c symbols.now.names symbols.now.arities) p.atoms s.now (Some token) }
{
    if MAX_BODY < p.atoms {
        return Err(Refusal::OutOfRange);
    }
    match token {
        Token::Name => named(s, 0, c.predicates, symbols),
        Token::Variable { .. } => Err(Refusal::Undeclared),
    }
}

// A cell of an argument.
fn argument_of(
    s: &[u8],
    token: Token,
    p: Progress,
    c: Counts,
    symbols: &SymbolRoom,
    modes: &[u16; 16],
) -> Result<Seen, Refusal>
    requires { Few c }
    ensures { Hashed symbols.now.names symbols.now.hashes 0 (c.predicates + c.functions) → look_in result ≡ argument_of (symbols_in c symbols.now.names symbols.now.arities) (row_of p modes.now []) s.now (Some token) }
{
    if ATOM_CELLS <= p.cells {
        return Err(Refusal::LongAtom);
    }
    match token {
        Token::Name => named(s, c.predicates, c.predicates + c.functions, symbols),
        Token::Variable { grounded, number } => variable_at(p.variables, modes, number, grounded),
    }
}

// "At one place the order is 1, 11, 2, 5, 3, 4, 13."
pub fn look_at(
    s: &[u8],
    query: bool,
    p: Progress,
    c: Counts,
    symbols: &SymbolRoom,
    modes: &[u16; 16],
) -> Result<Seen, Refusal>
    requires { Few c }
    ensures { Hashed symbols.now.names symbols.now.hashes 0 (c.predicates + c.functions) → look_in result ≡ look_of (symbols_in c symbols.now.names symbols.now.arities) query (row_of p modes.now []) s.now }
{
    let token = token_of(s, query).ok_or(Refusal::IllFormed)?;
    if p.wanted == 0 {
        return start_of(s, token, p, c, symbols);
    }
    argument_of(s, token, p, c, symbols, modes)
}
