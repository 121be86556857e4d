// Why a call refuses, in one place for every crate, by the names of the header. 14 is reserved, and has no name: no call gives it.
ghost use Rattle.std.specs.Prelude.{◌≡◌};
ghost use Rattle.tables.specs.Replies.{number_of, reply};

#[derive(Clone, Copy, PartialEq, Eq)]
pub enum Refusal {
    // A table, state or output buffer is too short.
    BufferTooShort = 1,
    // A character that is no upper-case hexadecimal digit, or no newline.
    BadCharacter = 2,
    LineOutOfPlace = 3,
    BadField = 4,
    BadTarget = 5,
    BadWindow = 6,
    WindowGoesBack = 7,
    BadTable = 8,
    BadState = 9,
    NoSuchAgent = 10,
    AgentEnded = 11,
    TimeBelowClock = 12,
    TimeBelowEarly = 13,
    TimeAboveLate = 15,
    OddChoices = 16,
    InputTooLong = 17,
    // A length that the line's first byte does not have.
    BadLength = 18,
    // A first byte that is not known, or none.
    UnknownFirstByte = 19,
    // A table's text is longer than the buffer.
    TextTooLong = 20,
}

impl From<Refusal> for u32 {
    ghost from_gives = { λ r n. n ≡ number_of r };

    #[tactic(auto, unfolding(crate::specs::Replies::number_of))]
    fn from(refusal: Refusal) -> u32 {
        refusal as u32
    }
}

// The reply of a call that is accepted.
pub const ACCEPTED: u32 = 0;

// The reply of a call that may refuse, as C is told: the number of the refusal, if there is one.
#[tactic(auto, unfolding(crate::specs::Replies::reply))]
pub fn reply_of(outcome: Result<(), Refusal>) -> u32
    ensures { result ≡ reply outcome }
{
    match outcome {
        Ok(()) => ACCEPTED,
        Err(refusal) => u32::from(refusal),
    }
}
