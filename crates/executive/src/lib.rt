// The executive: the start state, one step, a run over a list of choices and a choice that is accepted, on lent words.
#![tactic(auto)]

ghost use Rattle.std.specs.Prelude.{◌≡◌};
ghost use Rattle.executive.specs.Replies.{ran_of, picked_of};

use tables::replies::{ACCEPTED, Refusal};

pub mod starting; // starting.rt: the start state of a table
mod checking; // checking.rt: whether a state fits a table
pub mod registers; // registers.rt: the registers of all agents, out of a state's words and back into them
pub mod turns; // turns.rt: a state of a table while its choices are taken
mod running; // running.rt: a run over a list of choices
pub mod calls; // calls.rt: start, step, run and pick on lent words

// A run that a refusal stopped, and the count of the steps accepted before it.
#[derive(Clone, Copy)]
pub struct Stopped {
    pub refusal: Refusal,
    pub count: u32,
}

// One that is refused before any step.
impl From<Refusal> for Stopped {
    ghost from_gives = { λ r s. s ≡ record { refusal = r; count = 0 } };

    fn from(refusal: Refusal) -> Stopped {
        Stopped { refusal, count: 0 }
    }
}

// The choice that a caller is given.
#[derive(Clone, Copy)]
pub struct Choice {
    pub agent: u32,
    pub time: u32,
}

// How a run ends, as C is told: its reply, and the count of accepted steps.
#[repr(C)]
#[derive(Clone, Copy)]
pub struct Ran {
    pub reply: u32,
    pub count: u32,
}

impl From<Result<u32, Stopped>> for Ran {
    ghost from_gives = { λ r q. q ≡ ran_of r };

    fn from(run: Result<u32, Stopped>) -> Ran {
        match run {
            Ok(count) => Ran {
                reply: ACCEPTED,
                count,
            },
            Err(stopped) => Ran {
                reply: u32::from(stopped.refusal),
                count: stopped.count,
            },
        }
    }
}

// The choice that a caller is given, as C is told: its reply, and the agent and the time, 0 with a refusal.
#[repr(C)]
#[derive(Clone, Copy)]
pub struct Picked {
    pub reply: u32,
    pub agent: u32,
    pub time: u32,
}

impl From<Result<Choice, Refusal>> for Picked {
    ghost from_gives = { λ r q. q ≡ picked_of r };

    fn from(pick: Result<Choice, Refusal>) -> Picked {
        match pick {
            Ok(choice) => Picked {
                reply: ACCEPTED,
                agent: choice.agent,
                time: choice.time,
            },
            Err(refusal) => Picked {
                reply: u32::from(refusal),
                agent: 0,
                time: 0,
            },
        }
    }
}
