// The reader of a table's text: replies 1 to 7, 18 and 19, all but 1 with their line, and the words of a table that is accepted.
#![tactic(auto)]

pub mod placing; // placing.rt: replies 2, 18, 19 and 3
pub mod loading; // loading.rt: frames into the words of a table
pub mod climbing; // climbing.rt: reply 7
pub mod reading; // reading.rt: the reader

ghost use Rattle.std.specs.Prelude.{◌≡◌};
ghost use Rattle.reading.specs.Reader.{told_of, told_at};

use tables::replies::{ACCEPTED, Refusal};

// A reply, with the number of the line that it tells, from 1, or 0: what C is told.
#[repr(C)]
#[derive(Clone, Copy)]
pub struct Told {
    pub reply: u32,
    pub line: u32,
}

// Why a text is refused, with the number of the line that tells it, from 1, or 0 where none does.
#[derive(Clone, Copy)]
pub struct Refused {
    pub refusal: Refusal,
    pub line: u32,
}

impl From<Result<(), Refused>> for Told {
    ghost from_gives = { λ r t. t ≡ told_of r };

    fn from(outcome: Result<(), Refused>) -> Told {
        match outcome {
            Ok(()) => Told {
                reply: ACCEPTED,
                line: 0,
            },
            Err(refused) => Told {
                reply: u32::from(refused.refusal),
                line: refused.line,
            },
        }
    }
}

// An answer to this line, with the line's number where it refuses.
pub(crate) fn at_line(answer: Result<(), Refusal>, line: u32) -> Result<(), Refused>
    ensures { told_of result ≡ told_at line answer }
{
    answer.map_err(|refusal| Refused { refusal, line })
}
