// Single variables of a 16-bit mask.
ghost use Rattle.std.specs.Prelude.{◌≡◌, ◌↔◌, ◌<◌, ◌^◌, T};
ghost use Rattle.std.specs.Int.Count.{count_trailing_zeros};
ghost use Rattle.terms.specs.Cells.{variables};
ghost use Rattle.terms.specs.Mask.{Has};

use terms::walk::has;

// The lowest variable of a mask; 16 where it has none.
pub fn lowest(mask: u16) -> usize
    ensures { result ≡ count_trailing_zeros variables mask }
{
    mask.trailing_zeros() as usize
}

// The mask that marks the variable v alone. Beside `only` of `terms`, whose sets have 32 variables: a cast of that to a word would be no plainer.
pub fn mark(v: usize) -> u16
    requires { v < variables }
    ensures { result ≡ 2 ^ v }
{
    1u16 << v
}

// Whether the mask marks the variable v.
pub fn marks(mask: u16, v: usize) -> bool
    requires { v < variables }
    ensures { T result ↔ Has mask v }
{
    has(u32::from(mask), v)
}
