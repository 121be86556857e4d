// The writer of a table's text: replies 1, 8 and 20, and the bytes of a table that is accepted.
#![tactic(auto)]

pub mod lines; // lines.rt: the lines of a table
pub mod writing; // writing.rt: the writer

ghost use Rattle.std.specs.Prelude.{◌≡◌};
ghost use Rattle.writing.specs.Calls.{wrote_of};
ghost use Rattle.writing.specs.declared.Unwritten.TheVariants.{Refused};

use tables::replies::{ACCEPTED, Refusal};

// A reply, with the length of the table's text; 0 where the table is refused: what C is told.
#[repr(C)]
#[derive(Clone, Copy)]
pub struct Wrote {
    pub reply: u32,
    pub length: u32,
}

// Why a table's text is not written: the table is refused, or its text, of this length, has no room.
#[derive(Clone, Copy)]
pub enum Unwritten {
    Refused(Refusal),
    TooLong(u32),
}

impl From<Refusal> for Unwritten {
    ghost from_gives = { λ r u. u ≡ Refused r };

    fn from(refusal: Refusal) -> Unwritten {
        Unwritten::Refused(refusal)
    }
}

impl From<Result<u32, Unwritten>> for Wrote {
    ghost from_gives = { λ r w. w ≡ wrote_of r };

    fn from(outcome: Result<u32, Unwritten>) -> Wrote {
        match outcome {
            Ok(length) => Wrote {
                reply: ACCEPTED,
                length,
            },
            Err(Unwritten::Refused(why)) => Wrote {
                reply: u32::from(why),
                length: 0,
            },
            Err(Unwritten::TooLong(length)) => Wrote {
                reply: u32::from(Refusal::TextTooLong),
                length,
            },
        }
    }
}
