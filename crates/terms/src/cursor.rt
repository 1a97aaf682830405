// A reading place in a run of cells: "A reading place moves one cell on and is handed back by value."
ghost use Rattle.std.specs.Prelude.{◌≡◌};
ghost use Rattle.terms.specs.Cursor.{step_at};

#[derive(Clone, Copy)]
pub struct Cursor {
    pub at: usize,
}

impl Cursor {
    // The cell at a reading place with the place after it, unless the cells end there.
    pub fn step(self, cells: &[u16]) -> Option<(u16, Cursor)>
        ensures { result ≡ step_at cells.now self.at }
    {
        let cell = *cells.get(self.at)?;
        Some((cell, Cursor { at: self.at + 1 }))
    }
}
