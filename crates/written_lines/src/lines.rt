// Declarations, clauses and the query, a line each.
ghost use Rattle.std.specs.Prelude.{◌≡◌, [], ◌∷◌, ◌+◌, ◌*◌, ◌≤◌, ◌<◌, length};
ghost use Rattle.terms.specs.Cells.{enc};
ghost use Rattle.program.specs.Limits.{max_words};
ghost use Rattle.program.specs.Within.{after, modes_of};
ghost use Rattle.directory.specs.From.{AtomFrom, ClauseFrom, ClausesFrom, GoalFrom};
ghost use Rattle.text.specs.Decimal.{decimal};
ghost use Rattle.text.specs.Name.{name_bytes, max_names};
ghost use Rattle.text.specs.Put.{Put};
ghost use Rattle.text_lines.specs.Keyword.{clause, query};
ghost use Rattle.written_lines.specs.Tokens.{symbol_token, atom_tokens, atoms_tokens, line};
ghost use Rattle.written_lines.specs.Lines.{declarations, clause_lines};
ghost use Rattle.written_lines.specs.Walked.{NameAt, Written};

use crate::atoms::{put_atom, put_atoms};
use crate::symbols::Symbols;
use crate::tokens::put_symbol;
use crate::walked::Walked;
use directory::encoded::Declared;
use directory::places::atom_cells;
use text::cut::{LINE_FEED, TAB};
use text::put::{put_byte, put_bytes, put_number};

// "`pred` lines (name, arity), then `func` lines"
fn put_declaration(
    out: &mut [u8],
    from: usize,
    keyword: &[u8],
    names: &[u8],
    n: usize,
    arity: u16,
) -> usize
    requires { NameAt names.now n }
    ensures { Put (line keyword.now (symbol_token names.now n ∷ decimal arity ∷ [])) out.old out.new from result }
{
    let word = put_bytes(out, from, keyword);
    let name = put_symbol(out, word, names, n);
    let tab = put_byte(out, name, TAB);
    let number = put_number(out, tab, arity);
    put_byte(out, number, LINE_FEED)
}

// The declarations of one kind, whose first name has number `first`.
pub fn put_declarations(
    out: &mut [u8],
    from: usize,
    keyword: &[u8],
    names: &[u8],
    first: usize,
    arities: &[u16],
) -> usize
    requires { (first + length arities.now ≤ max_names) × ((first + length arities.now) * name_bytes ≤ length names.now) }
    ensures { Put (declarations keyword.now names.now first arities.now) out.old out.new from result }
{
    let mut end = from;
    for (i, arity) in arities.iter().enumerate() {
        end = put_declaration(out, end, keyword, names, first + i, *arity);
    }
    end
}

// The clause at a place of the words: "a body length m (0 to 16), the head atom, m body atoms"
fn put_clause(out: &mut [u8], words: &[u16], from: Walked, symbols: &Symbols<'_>) -> Walked
    requires { ClauseFrom words.now from.at symbols.now.predicates.now symbols.now.functions.now }
    ensures { (a : ClauseFrom words.now from.at symbols.now.predicates.now symbols.now.functions.now)
        → Written (line clause (atoms_tokens symbols.now.names.now (length symbols.now.predicates.now) (a.clause.head ∷ a.clause.body))) a.rest words.now out.old out.new from.end result }
{
    let count = usize::from(words[from.at]) + 1;
    let head = Walked {
        at: from.at + 1,
        end: put_bytes(out, from.end, b"clause"),
    };
    let atoms = put_atoms(out, words, head, count, symbols);
    Walked {
        at: atoms.at,
        end: put_byte(out, atoms.end, LINE_FEED),
    }
}

// So many clauses, one after another.
pub fn put_clauses(
    out: &mut [u8],
    words: &[u16],
    from: Walked,
    count: usize,
    symbols: &Symbols<'_>,
) -> Walked
    requires { (ClausesFrom words.now from.at symbols.now.predicates.now symbols.now.functions.now count) × (from.at ≤ length words.now) }
    ensures { (a : ClausesFrom words.now from.at symbols.now.predicates.now symbols.now.functions.now count)
        → Written (clause_lines symbols.now.names.now (length symbols.now.predicates.now) a.clauses) a.rest words.now out.old out.new from.end result }
{
    let mut walked = from;
    for _ in 0..count {
        walked = put_clause(out, words, walked, symbols);
    }
    walked
}

// The goal at a place of the words: "one atom, its variable count k, then k modes"
pub fn put_query(out: &mut [u8], words: &[u16], from: Walked, symbols: &Symbols<'_>) -> usize
    requires { (GoalFrom words.now from.at symbols.now.predicates.now symbols.now.functions.now) × (length words.now ≤ max_words) }
    ensures { (a : GoalFrom words.now from.at symbols.now.predicates.now symbols.now.functions.now)
        → Put (line query (atom_tokens symbols.now.names.now (length symbols.now.predicates.now) (modes_of (after 0 a.goal) a.grounded) (enc a.goal))) out.old out.new from.end result }
{
    let declared = Declared {
        words,
        predicates: symbols.predicates,
        functions: symbols.functions,
    };
    let variables = from.at + atom_cells(&declared, from.at);
    let first = variables + 1;
    let last = first + usize::from(words[variables]);
    let atom = Walked {
        at: from.at,
        end: put_bytes(out, from.end, b"query"),
    };
    let walked = put_atom(out, words, atom, symbols, &words[first..last]);
    put_byte(out, walked.end, LINE_FEED)
}
