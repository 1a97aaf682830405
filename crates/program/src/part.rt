// Reading a part of the words: why it is refused and where, or what it comes to and the place after it.
ghost use Rattle.std.specs.Prelude.{◌≤◌, length};

use crate::reply::{Fault, Refusal};
use terms::cursor::Cursor;

// A place in the words: one of them stands there, or they end there.
#[derive(Clone, Copy)]
pub struct Place<'a> {
    words: &'a [u16],
    cursor: Cursor,
    ghost inside: { cursor.at ≤ length words.now },
}

impl<'a> Place<'a> {
    ghost use Rattle.std.specs.Prelude.{◌≡◌, ◌-◌, take};
    ghost use Rattle.program.specs.Reply.{number_of};
    ghost use Rattle.program.specs.Reading.{bounded, several};
    ghost use Rattle.program.specs.Part.{Meets, Itself, Ends, left, next_word};

    // The place of the first word.
    pub fn first(words: &'a [u16]) -> Place<'a>
        ensures words { result.words.now ≡ words.now }
        ensures first { result.cursor.at ≡ 0 }
    {
        Place {
            words,
            cursor: Cursor { at: 0 },
        }
    }

    // This refusal, for the place.
    pub fn refused(self, refusal: Refusal) -> Fault
        ensures { result ≡ record { refusal = refusal; place = self.entry.cursor.at } }
    {
        Fault {
            refusal,
            place: self.cursor.at,
        }
    }

    // The word at the place.
    pub fn word(self) -> Result<(u16, Place<'a>), Fault>
        ensures { Meets self.entry.words.now Itself result (next_word (left self.entry)) }
    {
        let step = self.cursor.step(self.words);
        let (word, cursor) = step.ok_or(self.refused(Refusal::TooSoon))?;
        let words = self.words;
        Ok((word, Place { words, cursor }))
    }

    // A word from low to high, else it is refused for this.
    #[tactic(auto, unfolding(crate::specs::Reading::bounded))]
    pub fn bounded(
        self,
        refusal: Refusal,
        low: usize,
        high: usize,
    ) -> Result<(usize, Place<'a>), Fault>
        ensures { Meets self.entry.words.now Itself result (bounded (number_of refusal) low high (left self.entry)) }
    {
        let (word, next) = self.word()?;
        let word = usize::from(word);
        if word < low || high < word {
            return Err(self.refused(refusal));
        }
        Ok((word, next))
    }

    // So many words, each at most high.
    pub fn several(self, refusal: Refusal, high: usize, count: usize) -> Result<Place<'a>, Fault>
        ensures { Meets self.entry.words.now Ends result (several (bounded (number_of refusal) 0 high) count (left self.entry)) }
    {
        let mut at = self;
        for _ in 0..count {
            let (_, next) = at.bounded(refusal, 0, high)?;
            at = next;
        }
        Ok(at)
    }

    // The words up to a later place.
    pub fn until(self, end: Place<'_>) -> &'a [u16]
        requires later { self.cursor.at ≤ end.cursor.at }
        requires inside { end.cursor.at ≤ length self.words.now }
        ensures { result.now ≡ take (end.entry.cursor.at - self.entry.cursor.at) (left self.entry) }
    {
        &self.words[self.cursor.at..end.cursor.at]
    }
}
