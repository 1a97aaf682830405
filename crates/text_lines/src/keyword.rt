// The keywords of lines.
ghost use Rattle.std.specs.Prelude.{◌≡◌};
ghost use Rattle.text_lines.specs.Keyword.{kind_of};

use text::name::same_bytes;

#[derive(Drop)]
pub enum Kind {
    Pred,
    Func,
    Clause,
    Query,
    Other,
}

pub fn kind_of(s: &[u8]) -> Kind
    ensures { result ≡ kind_of s.now }
{
    if same_bytes(s, b"pred") {
        return Kind::Pred;
    }
    if same_bytes(s, b"func") {
        return Kind::Func;
    }
    if same_bytes(s, b"clause") {
        return Kind::Clause;
    }
    if same_bytes(s, b"query") {
        return Kind::Query;
    }
    Kind::Other
}
