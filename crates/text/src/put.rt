// Bytes written into lent room from a place on: each function hands back the place behind them, or one past the room.
// One past the room is a place like any other to the next function, so a caller tests once, behind the last.
ghost use Rattle.std.specs.Prelude.{◌≡◌, [], ◌∷◌, ◌+◌, ◌*◌, ◌≤◌, ◌<◌, length, take};
ghost use Rattle.text.specs.Decimal.{decimal};
ghost use Rattle.text.specs.Line.{up_to};
ghost use Rattle.text.specs.Name.{name_bytes, max_names, entry};
ghost use Rattle.text.specs.Put.{Put};
ghost use Rattle.text.specs.Room.{in_room};
ghost use Rattle.text.specs.Token.{digit0};

use crate::name::name_at;

pub fn put_byte(out: &mut [u8], at: usize, b: u8) -> usize
    ensures { Put (b ∷ []) out.old out.new at result }
{
    if at < out.len() {
        out[at] = b;
        return at + 1;
    }
    out.len() + 1
}

pub fn put_bytes(out: &mut [u8], at: usize, s: &[u8]) -> usize
    ensures { Put s.now out.old out.new at result }
{
    let mut end = at;
    for b in s {
        end = put_byte(out, end, *b);
    }
    end
}

fn digit(n: usize) -> u8
    requires { n < 10 }
    ensures { result ≡ digit0 + n }
{
    b'0' + n as u8
}

// "Numbers have no leading zero."
pub fn put_wide(out: &mut [u8], at: usize, n: usize) -> usize
    ensures { Put (decimal n) out.old out.new at result }
{
    if n < 10 {
        return put_byte(out, at, digit(n));
    }
    let end = put_wide(out, at, n / 10);
    put_byte(out, end, digit(n % 10))
}

pub fn put_number(out: &mut [u8], at: usize, n: u16) -> usize
    ensures { Put (decimal n) out.old out.new at result }
{
    put_wide(out, at, usize::from(n))
}

// Name number i: its bytes before the first zero.
pub fn put_name(out: &mut [u8], at: usize, names: &[u8], i: usize) -> usize
    requires { (i < max_names) × (i * name_bytes + name_bytes ≤ length names.now) }
    ensures { Put (up_to 0 (entry names.now i)) out.old out.new at result }
{
    let mut end = at;
    for b in name_at(names, i) {
        if *b == 0 {
            return end;
        }
        end = put_byte(out, end, *b);
    }
    end
}

// "lent output past what was written is 0": zeros from a place on.
pub fn clear(out: &mut [u8], from: usize)
    ensures { out.new ≡ in_room (length out.old) (take from out.old) }
{
    if from < out.len() {
        out[from..].fill(0);
    }
}
