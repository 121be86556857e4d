// One choice of a good table: its reply, what the accepted one does to the words of a state, and one that is accepted.
#![tactic(auto)]

use tables::layout::REGISTERS;

pub mod layout; // layout.rt: where each thing stands in the words of a state
mod agents; // agents.rt: what a row does to its agent, one method for each family
mod messages; // messages.rt: the best of the messages that a row sees
pub mod deadlines; // deadlines.rt: the lates of the agents' current rows, and whether a time is in time
pub mod picking; // picking.rt: the agent and the time that a caller is given
pub mod stepping; // stepping.rt: the reply to a choice, and its effect

// An agent's state, which goes in whole and comes back whole.
#[derive(Clone, Copy)]
pub struct Agent {
    pub pos: u32,
    pub regs: [u32; REGISTERS],
}

// A message that was sent: the late and the place of the row that sent it, and its value.
#[derive(Clone, Copy)]
pub struct Message {
    pub late: u32,
    pub agent: usize,
    pub row: usize,
    pub value: u32,
}
