// Names as they are kept: 16 bytes each, one behind another. C lends them as such bytes, and memory is fixed; so the hashes of names stand in an array beside them.
ghost use Rattle.std.specs.Prelude.{◌≡◌, ◌+◌, ◌-◌, ◌*◌, ◌≤◌, ◌<◌, length, take, drop};
ghost use Rattle.text.specs.Name.{name_bytes, max_names, padded, entry, same, seek, hash_of, Hashed};

pub const NAME_BYTES: usize = 16;

pub fn pad(s: &[u8]) -> [u8; 16]
    ensures { result ≡ padded s.now }
{
    let mut key = [0u8; 16];
    // Byte by byte: `copy_from_slice`, of a length that is not known, would have the archive for C ask for `memcpy`.
    for i in 0..NAME_BYTES {
        if s.len() <= i {
            return key;
        }
        key[i] = s[i];
    }
    key
}

pub fn same_bytes(a: &[u8], b: &[u8]) -> bool
    ensures { result ≡ same a.now b.now }
{
    a == b
}

pub fn hash_of(key: &[u8]) -> u32
    ensures { result ≡ hash_of key.now }
{
    let hash = key.iter().fold(0u16, |hash, b| {
        hash.wrapping_mul(31).wrapping_add(u16::from(*b))
    });
    u32::from(hash)
}

// The bytes of name number i.
pub fn name_at(names: &[u8], i: usize) -> &[u8]
    requires { (i < max_names) × (i * name_bytes + name_bytes ≤ length names.now) }
    ensures { result.now ≡ entry names.now i }
{
    &names[i * NAME_BYTES..][..NAME_BYTES]
}

// Whether name number i, with its hash, is the key with its hash.
fn is_at(names: &[u8], its: u32, i: usize, key: &[u8], hash: u32) -> bool
    requires { (length key.now ≡ name_bytes) × (i * name_bytes + name_bytes ≤ length names.now) × (i < max_names) }
    ensures { its ≡ hash_of (entry names.now i) → hash ≡ hash_of key.now → result ≡ same (entry names.now i) key.now }
{
    its == hash && same_bytes(name_at(names, i), key)
}

// The first name from number `from` on, and below number `to`, that is the key, or `to`: a number behind those sought, as the promise has it.
pub fn find_name(names: &[u8], hashes: &[u32], from: usize, to: usize, key: &[u8]) -> usize
    requires { (length key.now ≡ name_bytes) × (to * name_bytes ≤ length names.now) × (to ≤ length hashes.now) × (to ≤ max_names) × (from ≤ to) }
    ensures value { Hashed names.now hashes.now from to → result ≡ seek names.now key.now from (to - from) }
    ensures within { (from ≤ result) × (result ≤ to) }
{
    let hash = hash_of(key);
    for i in from..to {
        if is_at(names, hashes[i], i, key, hash) {
            return i;
        }
    }
    to
}
