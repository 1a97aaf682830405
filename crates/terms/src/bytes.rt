// Words and sets of variables as they stand in lent bytes, the low byte first.
ghost use Rattle.std.specs.Prelude.{◌≡◌, ◌+◌, ◌≤◌, ◌<◌, length};
ghost use Rattle.terms.specs.Bytes.{word_at, noted_set, WordPut, SetPut};

use crate::walk::narrow;

// The word in two bytes.
pub fn word_at(bytes: &[u8], i: usize) -> usize
    requires { i + 2 ≤ length bytes.now }
    ensures { (result ≡ word_at bytes.now i) × (result < 65536) }
{
    usize::from(u16::from_le_bytes([bytes[i], bytes[i + 1]]))
}

// Puts a word into two bytes.
pub fn put_word(bytes: &mut [u8], i: usize, word: usize)
    requires { (i + 2 ≤ length bytes.old) × (word < 65536) }
    ensures { WordPut bytes.old bytes.new i word }
{
    bytes[i..i + 2].copy_from_slice(&narrow(word).to_le_bytes());
}

// The set in four bytes.
pub fn noted_set(bytes: &[u8], i: usize) -> u32
    requires { i + 4 ≤ length bytes.now }
    ensures { result ≡ noted_set bytes.now i }
{
    u32::from_le_bytes([bytes[i], bytes[i + 1], bytes[i + 2], bytes[i + 3]])
}

// Puts a set into four bytes.
pub fn put_set(bytes: &mut [u8], i: usize, set: u32)
    requires { i + 4 ≤ length bytes.old }
    ensures { SetPut bytes.old bytes.new i set }
{
    bytes[i..i + 4].copy_from_slice(&set.to_le_bytes());
}
