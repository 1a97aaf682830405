// The symbols of a program.
ghost use Rattle.std.specs.Prelude.{◌≡◌, ◌+◌, ◌*◌, ◌≤◌, length};
ghost use Rattle.text.specs.Name.{name_bytes, max_names};

// The arities of the predicates and of the functions, and the names of both, one behind another.
#[derive(Clone, Copy)]
pub struct Symbols<'a> {
    pub predicates: &'a [u16],
    pub functions: &'a [u16],
    pub names: &'a [u8],
    ghost few: { length predicates.now + length functions.now ≤ max_names },
    ghost size: { length names.now ≡ (length predicates.now + length functions.now) * name_bytes },
}
