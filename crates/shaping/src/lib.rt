// The shapes of an accepted program, and with them its whole directory.
#![tactic(auto)]

mod naming;
mod shapes;

ghost use Rattle.std.specs.Prelude.{◌≡◌, length};
ghost use Rattle.program.specs.Program.{Program};
ghost use Rattle.program.specs.Faults.{faults, sound};
ghost use Rattle.directory.specs.Layout.{dir_words};
ghost use Rattle.directory.specs.Directory.{Directory};

use directory::lists::lists;
use directory::placing::places;
use naming::shapes;

// Makes the directory. Called only once the scan has accepted the words.
pub fn directory(words: &[u16], dir: &mut [u16])
    requires { (length dir.old ≡ dir_words) × ((p : Program) × (faults words.now ≡ sound p)) }
    ensures { (p : Program) → faults words.now ≡ sound p → Directory words.now p dir.new }
{
    places(words, dir);
    lists(words, dir);
    shapes(words, dir);
}
