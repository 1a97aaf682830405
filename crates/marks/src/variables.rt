// The variables of an atom, as a 16-bit mask.
ghost use Rattle.terms.specs.Walk.{Cells, Present};

// Which variables the run of cells has: "v is at most 15".
pub fn variables_of(run: &[u16]) -> u16
    requires { Cells run.now }
    ensures { Present run.now result }
{
    terms::walk::present(run) as u16
}
