// Walks over a prefix run of cells, "argument by argument, each a shorter run of cells".
ghost use Rattle.std.specs.Prelude.{◌≡◌, ℕ, ◌+◌, ◌≤◌, ◌<◌, ◌^◌, T, ◌↔◌};
ghost use Rattle.terms.specs.Cells.{Run};
ghost use Rattle.terms.specs.Mask.{Has};
ghost use Rattle.terms.specs.Walk.{cells_of, Cells, Present, InRun, InSets};

// "a variable, 32768 + v"
pub const FIRST_VARIABLE: u16 = 32768;

// A count or a place as a word. Not by `TryFrom`, which would leave each caller a refusal that cannot come.
pub fn narrow(x: usize) -> u16
    requires { x < 65536 }
    ensures { result ≡ x }
{
    x as u16
}

// Where the first n terms of the run end: how many cells they have.
pub fn terms_end(run: &[u16], functions: &[u16], n: usize) -> usize
    requires { Run functions.now run.now n }
    ensures { result ≡ cells_of functions.now run.now n }
{
    if n == 0 {
        return 0;
    }
    let cell = run[0];
    let opened = if cell < FIRST_VARIABLE {
        usize::from(functions[usize::from(cell)])
    } else {
        0
    };
    1 + terms_end(&run[1..], functions, n - 1 + opened)
}

// The set that has the variable v alone.
pub fn only(v: usize) -> u32
    requires { v < 32 }
    ensures { result ≡ 2 ^ v }
{
    1u32 << v
}

// Which variables the run has, as a set.
pub fn present(run: &[u16]) -> u32
    requires { Cells run.now }
    ensures { Present run.now result }
{
    if run.len() == 0 {
        return 0;
    }
    let later = present(&run[1..]);
    let cell = run[0];
    if cell < FIRST_VARIABLE {
        return later;
    }
    later | only(usize::from(cell - FIRST_VARIABLE))
}

// Whether the set has the variable.
pub fn has(set: u32, v: usize) -> bool
    requires { v < 32 }
    ensures { T result ↔ Has set v }
{
    (set >> v) % 2 == 1
}

// Whether every variable of the run is in the set: "all ground" where the set marks the ground ones.
pub fn all_in(run: &[u16], set: u32) -> bool
    requires { Cells run.now }
    ensures { T result ↔ ((v : ℕ) → InRun v run.now → Has set v) }
{
    if run.len() == 0 {
        return true;
    }
    let cell = run[0];
    if cell < FIRST_VARIABLE {
        return all_in(&run[1..], set);
    }
    if has(set, usize::from(cell - FIRST_VARIABLE)) {
        all_in(&run[1..], set)
    } else {
        false
    }
}

// The union of the sets of the run's variables; the set of variable v is at `base` + v.
pub fn union_of(run: &[u16], base: usize, sets: &[u32; 32]) -> u32
    requires { (Cells run.now) × (base ≤ 16) }
    ensures { (z : ℕ) → Has result z ↔ InSets run.now base sets.now z }
{
    if run.len() == 0 {
        return 0;
    }
    let later = union_of(&run[1..], base, sets);
    let cell = run[0];
    if cell < FIRST_VARIABLE {
        return later;
    }
    later | sets[base + usize::from(cell - FIRST_VARIABLE)]
}
