// Replies: "A reply is a number, a place, and a count of what was written".
ghost use Rattle.std.specs.Prelude.{◌≡◌};
ghost use Rattle.program.specs.Reply.{number_of, replied};

// Why an input is refused: the reply's number is the variant's. 10 is withdrawn.
#[derive(Clone, Copy, PartialEq, Eq)]
pub enum Refusal {
    TooSoon = 1,
    OutOfRange,
    Undeclared,
    BadVariable,
    LongAtom,
    BadGoal,
    Follows,
    TooLong,
    NoRoom,
    IllFormed = 11,
    BadName,
    BothModes,
}

// A refusal, and the place in the input that it is for.
#[derive(Clone, Copy, PartialEq, Eq)]
pub struct Fault {
    pub refusal: Refusal,
    pub place: usize,
}

#[derive(Clone, Copy)]
pub struct Reply {
    pub number: u16,
    pub place: usize,
    pub count: usize,
}

impl From<Result<usize, Fault>> for Reply {
    ghost from_gives = { λ outcome reply. reply ≡ replied outcome };

    fn from(outcome: Result<usize, Fault>) -> Reply {
        match outcome {
            Ok(count) => Reply {
                number: ACCEPTED,
                place: 0,
                count,
            },
            Err(fault) => Reply {
                number: fault.refusal as u16,
                place: fault.place,
                count: 0,
            },
        }
    }
}

// "Accepted is number 0 with place 0"
pub const ACCEPTED: u16 = 0;
