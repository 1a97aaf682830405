// Words that are set to zero.
ghost use Rattle.std.specs.Prelude.{◌≡◌, ◌++◌, ◌≤◌, length, replicate, drop};

// The first `count` words become 0, the others stay.
pub fn clear(words: &mut [u16], count: usize)
    requires { count ≤ length words.old }
    ensures { words.new ≡ replicate count 0 ++ drop count words.old }
{
    words[..count].fill(0);
}

// Every word becomes 0.
pub fn zero(words: &mut [u16])
    ensures { words.new ≡ replicate (length words.old) 0 }
{
    words.fill(0);
}
