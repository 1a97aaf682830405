// What the slot of a row stands for.
ghost use Rattle.concerns.specs.Slots.{SlotOf};

use steps::place::{CONTS, SOLUTIONS};

// A call row is of a shape, a cont row of a body atom, a solution row of a shape.
#[derive(Clone, Copy)]
pub enum Slot {
    Call(usize),
    Cont(usize),
    Solution(usize),
}

impl Slot {
    // The slots of call rows come first, then those of cont rows and those of solution rows.
    pub fn of(slot: u16) -> Slot
        ensures { SlotOf slot result }
    {
        let at = usize::from(slot);
        if at < CONTS {
            return Slot::Call(at);
        }
        if at < SOLUTIONS {
            return Slot::Cont(at - CONTS);
        }
        Slot::Solution(at - SOLUTIONS)
    }
}
