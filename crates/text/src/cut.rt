// Where a line or a field ends.
ghost use Rattle.std.specs.Prelude.{◌≡◌, ◌+◌, ◌≤◌, ◌==◌, length, drop, position};
ghost use Rattle.text.specs.Line.{up_to};

pub const LINE_FEED: u8 = 10;

pub const TAB: u8 = 9;

// The place of the first b.
fn first_place(s: &[u8], b: u8) -> Option<usize>
    ensures { result ≡ position (λ x. x == b) s.now }
{
    s.iter().position(|x| *x == b)
}

// The place of the first b from `from` on, or the length, where the last line and the last field end.
pub fn find(s: &[u8], from: usize, b: u8) -> usize
    requires { from ≤ length s.now }
    ensures { result ≡ from + length (up_to b (drop from s.now)) }
{
    let rest = &s[from..];
    from + first_place(rest, b).unwrap_or(rest.len())
}
