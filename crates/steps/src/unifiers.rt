// Unifiers that are noted: what comes of shapes that meet one atom is noted, and taken from the notes where they meet it again in the same order.
ghost use Rattle.std.specs.Prelude.{List, ℕ, ◌+◌, ◌<◌, IfSome};
ghost use Rattle.terms.specs.Bytes.{word_at, WordPut};
ghost use Rattle.program.specs.Limits.{max_shapes};
ghost use Rattle.steps.specs.Situation.{Meeting, Met};
ghost use Rattle.steps.specs.Unifiers.{taken_at, Room, Fitting, Notes, ApartNoted, UnifiedNoted, NextWord, NextWithin, NextTaken};

use crate::meet::{meet, meet_store, meet_stored};
use directory::encoded::{Encoded, Span};
use terms::bytes::{put_word, word_at};
use terms::noted::{bound_set, noted_size, put_bindings, take_bindings};
use terms::unifier::NO_PLACE;

// The bytes in which a clause without a body notes what comes of its head and the shapes of calls to it: as many as those of any program can take.
pub const UNIFIER_BYTES: usize = 10400;

// The counts stand in the lent bytes themselves, as the notes outlive each call and there is no heap to keep a list in.
// The words that say how many bytes of the notes are taken, and how many the notes have; the notes stand behind them.
const TAKEN: usize = 0;

const NOTED: usize = 2;

const FIRST_NOTE: usize = 4;

// What a note begins with: a word. Behind it stand the bindings, where the shape unifies.
const WORD: usize = 2;

// Nothing is noted any more.
pub fn forget_notes(unifiers: &mut [u8])
    requires { Room unifiers.old }
    ensures { (words dir : List ℕ) (start cells : ℕ) → Notes words dir start cells unifiers.new }
{
    put_word(unifiers, TAKEN, 0);
    put_word(unifiers, NOTED, 0);
}

// Notes behind the notes so far that a shape is apart, where there is room.
fn note_apart(unifiers: &mut [u8], shape: usize)
    requires { Fitting unifiers.old × (shape < max_shapes) }
    ensures { ApartNoted shape unifiers.old unifiers.new }
{
    let noted = word_at(unifiers, NOTED);
    let at = FIRST_NOTE + noted;
    if unifiers.len() < at + WORD {
        return;
    }
    put_word(unifiers, at, 2 * shape);
    put_word(unifiers, NOTED, noted + WORD);
}

// Notes behind the notes so far the bindings of a shape that unifies, where there is room.
fn note_unified(unifiers: &mut [u8], shape: usize, places: &[u8; 32])
    requires { Fitting unifiers.old × (shape < max_shapes) }
    ensures { UnifiedNoted shape places.now unifiers.old unifiers.new }
{
    let set = bound_set(places);
    let size = WORD + noted_size(set);
    let noted = word_at(unifiers, NOTED);
    let at = FIRST_NOTE + noted;
    if unifiers.len() < at + size {
        return;
    }
    put_word(unifiers, at, 2 * shape + 1);
    put_bindings(places, set, unifiers, at + WORD);
    put_word(unifiers, NOTED, noted + size);
}

// The first word of the next note that is not taken yet, where there is one.
fn next_word(unifiers: &[u8]) -> Option<usize>
    requires { Fitting unifiers.now }
    ensures { IfSome result (λ word. NextWord unifiers.now word) }
{
    let taken = word_at(unifiers, TAKEN);
    let noted = word_at(unifiers, NOTED);
    if noted < taken + WORD {
        return None;
    }
    Some(word_at(unifiers, FIRST_NOTE + taken))
}

// Takes the next note, of a shape that is apart.
fn take_apart(unifiers: &mut [u8])
    requires { Room unifiers.old × (word_at unifiers.old taken_at + 2 < 65536) }
    ensures { WordPut unifiers.old unifiers.new taken_at (word_at unifiers.old taken_at + 2) }
{
    let taken = word_at(unifiers, TAKEN);
    put_word(unifiers, TAKEN, taken + WORD);
}

// Takes the next note, of a shape that unifies, and its bindings.
fn take_unified(unifiers: &mut [u8], places: &mut [u8; 32])
    requires { NextWithin unifiers.old }
    ensures { NextTaken unifiers.old unifiers.new places.new }
{
    let at = FIRST_NOTE + word_at(unifiers, TAKEN);
    let end = take_bindings(unifiers, at + WORD, places);
    put_word(unifiers, TAKEN, end - FIRST_NOTE);
}

// A shape meets the atom for the first time: what comes of it is noted behind the notes so far, where there is room.
pub fn meet_noting<'a>(
    program: &Encoded<'a>,
    shape: usize,
    atom: Span,
    sets: &mut [u32; 32],
    unifiers: &mut [u8],
) -> bool
    requires { Meeting program.now.words.now program.now.dir.now shape atom.start atom.cells × Notes program.now.words.now program.now.dir.now atom.start atom.cells unifiers.old }
    ensures { ((m : Meeting program.now.words.now program.now.dir.now shape atom.start atom.cells) → Met m.S m.A result sets.new)
        × Notes program.now.words.now program.now.dir.now atom.start atom.cells unifiers.new }
{
    let mut places = [NO_PLACE; 32];
    if meet_store(program, shape, atom, &mut places, sets) {
        note_unified(unifiers, shape, &places);
        return true;
    }
    note_apart(unifiers, shape);
    false
}

// A shape meets the atom again: what is noted of them is taken where it is the next note; else they are unified anew.
pub fn meet_noted<'a>(
    program: &Encoded<'a>,
    shape: usize,
    atom: Span,
    sets: &mut [u32; 32],
    unifiers: &mut [u8],
) -> bool
    requires { Meeting program.now.words.now program.now.dir.now shape atom.start atom.cells × Notes program.now.words.now program.now.dir.now atom.start atom.cells unifiers.old }
    ensures { ((m : Meeting program.now.words.now program.now.dir.now shape atom.start atom.cells) → Met m.S m.A result sets.new)
        × Notes program.now.words.now program.now.dir.now atom.start atom.cells unifiers.new }
{
    if let Some(word) = next_word(unifiers) {
        if word == 2 * shape {
            take_apart(unifiers);
            return false;
        }
        if word == 2 * shape + 1 {
            let mut places = [NO_PLACE; 32];
            take_unified(unifiers, &mut places);
            meet_stored(program, shape, atom, &places, sets);
            return true;
        }
    }
    meet(program, shape, atom, sets)
}
