// Names, numbers and variables as tokens.
ghost use Rattle.std.specs.Prelude.{◌≡◌, ◌+◌, ◌-◌, ◌*◌, ◌≤◌, ◌<◌, min, length, drop};
ghost use Rattle.text.specs.Token.{every, is_digit, is_name_byte, is_name, zero_first, number_of, capped, variable_of, token_of, digit0, too_large};

use crate::bytes::{UPPER_G, UPPER_V, is_digit, is_lower, is_name_byte};
use crate::name::NAME_BYTES;

pub const TOO_LARGE: usize = 99;

#[derive(Clone, Copy)]
pub enum Token {
    Name,
    Variable { grounded: bool, number: usize },
}

fn all_name_bytes(s: &[u8]) -> bool
    ensures { result ≡ every is_name_byte s.now }
{
    s.iter().all(|b| is_name_byte(*b))
}

fn all_digits(s: &[u8]) -> bool
    ensures { result ≡ every is_digit s.now }
{
    s.iter().all(|b| is_digit(*b))
}

// "A name is a lower-case letter and then up to 15 letters a-z, digits or `_`"
pub fn is_name(s: &[u8]) -> bool
    ensures { result ≡ is_name s.now }
{
    match s.split_first() {
        Some((first, others)) if s.len() <= NAME_BYTES => {
            is_lower(*first) && all_name_bytes(others)
        }
        _ => false,
    }
}

// One more digit behind a number; one number stands for all that are too large.
fn with_digit(n: usize, b: u8) -> usize
    requires { n ≤ too_large }
    ensures { result ≡ min too_large (10 * n + (b - digit0)) }
{
    let digit = usize::from(b.saturating_sub(b'0'));
    (10 * n + digit).min(TOO_LARGE)
}

fn value(s: &[u8]) -> usize
    ensures { result ≡ capped s.now }
{
    let mut n = 0;
    for b in s {
        n = with_digit(n, *b);
    }
    n
}

fn zero_first(s: &[u8], from: usize) -> bool
    requires { from < length s.now }
    ensures { result ≡ zero_first (drop from s.now) }
{
    if from + 1 < s.len() {
        return s[from] == b'0';
    }
    false
}

// "Numbers have no leading zero."
pub fn number_of(s: &[u8], from: usize) -> Option<usize>
    requires { from ≤ length s.now }
    ensures { result ≡ number_of (drop from s.now) }
{
    if s.len() <= from {
        return None;
    }
    if zero_first(s, from) {
        return None;
    }
    if !all_digits(&s[from..]) {
        return None;
    }
    Some(value(&s[from..]))
}

fn variable_of(s: &[u8], grounded: bool) -> Option<Token>
    requires { 0 < length s.now }
    ensures { result ≡ variable_of grounded (drop 1 s.now) }
{
    let number = number_of(s, 1)?;
    Some(Token::Variable { grounded, number })
}

// A token of a query line, or of a clause line.
pub fn token_of(s: &[u8], query: bool) -> Option<Token>
    ensures { result ≡ token_of query s.now }
{
    if is_name(s) {
        return Some(Token::Name);
    }
    if s.len() == 0 {
        return None;
    }
    let sign = s[0];
    if sign == UPPER_V {
        return variable_of(s, false);
    }
    if query {
        if sign == UPPER_G {
            return variable_of(s, true);
        }
    }
    None
}
