// The answers to body atoms that are kept between rounds: for each of the first atoms a set of masks in the atom's own numbering, and of how many rows it has the answers.
ghost use Rattle.std.specs.Prelude.{◌*◌, ◌^◌};
ghost use Rattle.rows.specs.KeptSets.{Gained};
ghost use Rattle.joining.specs.Answers.{Found};
ghost use Rattle.joining.specs.KeptAnswers.{answer_set, Ordered, Recalled, KeepAsked, RecallAsked};

use marks::rows::{Order, renumber, restore};
use rows::keptset::{THINGS, is_kept, keep_mask};
use rows::maskset::insert;

pub const ANSWER_VARS: usize = 8;

// How many words the set of an atom takes. The sets are lent words, since they outlive the calls and there is no heap for a map of them.
const ANSWER_SET: usize = 16;

// Behind the sets, for each atom, of how many rows they have the answers.
pub const ANSWER_ROWS: usize = ANSWER_SET * THINGS;

pub const ANSWER_WORDS: usize = ANSWER_ROWS + THINGS;

// Puts the answers beside those that are kept for body atom j.
pub fn keep_answers(order: &Order, answers: &[u16], j: usize, answered: &mut [u16])
    requires { KeepAsked order.now.variables answered.old order.now.count j }
    ensures { Gained (Ordered order.now.variables order.now.count answers.now) (answer_set * j) answer_set answered.old answered.new }
{
    for &answer in answers {
        keep_mask(answered, ANSWER_SET, j, renumber(order, answer));
    }
}

// The answers that are kept for body atom j are listed behind the first `upto`, each that is not seen yet.
pub fn recall_answers(
    order: &Order,
    answered: &[u16],
    j: usize,
    seen: &mut [u16],
    answers: &mut [u16],
    upto: usize,
) -> usize
    requires { RecallAsked order.now.variables seen.old answers.old answered.now order.now.count upto j }
    ensures { Found (Recalled order.now.variables order.now.count answered.now j (2 ^ order.now.count)) seen.new answers.new upto result answers.old }
{
    let masks = 1u16 << order.count;
    let mut all = upto;
    for q in 0..masks {
        if is_kept(answered, ANSWER_SET, j, q) {
            let mask = restore(order, q);
            if insert(seen, mask) {
                answers[all] = mask;
                all += 1;
            }
        }
    }
    all
}
