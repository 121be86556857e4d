// A state of a table while its choices are taken, one turn after another.
ghost use Rattle.std.specs.Prelude.{◌≡◌, ◌≤◌, true, length, nat_le};
ghost use Rattle.tables.specs.Layout.{table_words};
ghost use Rattle.tables.specs.Replies.{reply};
ghost use Rattle.tables.specs.Table.{good_table};
ghost use Rattle.choices.specs.State.{state_words};
ghost use Rattle.choices.specs.Fit.{in_time};
ghost use Rattle.choices.specs.Step.{choice_reply};
ghost use Rattle.choices.specs.Registers.{with_regs};
ghost use Rattle.executive.specs.InTurn.{InTurn, Takes};

use crate::registers::{load_registers, store_registers};
use choices::Agent;
use choices::deadlines::{deadline_for, late_at, load_lates};
use choices::stepping::{act, choice_reply};
use tables::layout::{MOST_AGENTS, REGISTERS};
use tables::replies::Refusal;

// A table and the words of a state. The registers stand beside them until the turns end, and so do the lates of the agents' current rows:
// two arrays by the agent's number, and not one of records, so that each is loaded, compared and stored in vector registers.
// The deadline is the last one that was worked out. What holds of them between two choices is `InTurn`, which `take` asks and keeps, and no ghost field:
// through the state's `&mut` that would have to hold at each write.
#[derive(Drop)]
pub struct Turns<'t, 's> {
    table: &'t [u32],
    state: &'s mut [u32],
    regs: [[u32; REGISTERS]; MOST_AGENTS],
    lates: [u32; MOST_AGENTS],
    deadline: u32,
}

impl<'t, 's> Turns<'t, 's> {
    // Before the first choice: 0 is above no late.
    pub fn begin(table: &'t [u32], state: &'s mut [u32]) -> Turns<'t, 's>
        requires { (length table.now ≡ table_words) × (length state.old ≡ state_words) × (good_table table.now ≡ true) }
        ensures ready { InTurn result.table.now result.state.now result.regs result.lates result.deadline }
        ensures whole { with_regs result.state.now result.regs ≡ state.old }
        ensures same_table { result.table.now ≡ table.now }
        ensures same_reference { result.state.ghost_name ≡ state.entry.ghost_name }
    {
        let regs = load_registers(state);
        let lates = load_lates(table, state);
        Turns {
            table,
            state,
            regs,
            lates,
            deadline: 0,
        }
    }

    // What the choice of agent a at time t is refused with, where the deadline tells whether t is in time.
    fn reply(&self, a: u32, t: u32) -> Result<(), Refusal>
        requires { (length self.now.table.now ≡ table_words) × (length self.now.state.now ≡ state_words) × (good_table self.now.table.now ≡ true)
            × (in_time self.now.table.now self.now.state.now t ≡ nat_le t self.now.deadline) }
        ensures { reply result ≡ choice_reply self.now.table.now self.now.state.now a t }
    {
        choice_reply(self.table, self.state, a, t, self.deadline)
    }

    // The choice of agent a at time t: its agent's state after it, or what it is refused with. Inlined, so that `act` alone is called from a loop.
    #[inline(always)]
    pub fn take(&mut self, a: u32, t: u32) -> Result<Agent, Refusal>
        requires { InTurn self.old.table.now self.old.state.now self.old.regs self.old.lates self.old.deadline }
        ensures took { Takes self.old.table.now (with_regs self.old.state.now self.old.regs) (with_regs self.new.state.now self.new.regs) a t result }
        ensures ready { InTurn self.new.table.now self.new.state.now self.new.regs self.new.lates self.new.deadline }
        ensures same_table { self.new.table.now ≡ self.old.table.now }
        ensures same_reference { self.new.state.ghost_name ≡ self.old.state.ghost_name }
    {
        let table = self.table;
        self.deadline = deadline_for(&self.lates, self.deadline, t);
        self.reply(a, t)?;
        let b = a as usize;
        let own = self.regs[b];
        let agent = act(table, self.state, b, t, own);
        let new = agent.regs;
        self.regs[b] = new;
        self.lates[b] = late_at(table, b, agent.pos);
        Ok(agent)
    }

    // After the last choice: the registers into the state's words.
    pub fn end(&mut self)
        requires { state_words ≤ length self.old.state.now }
        ensures stored { self.new.state.now ≡ with_regs self.old.state.now self.old.regs }
        ensures same_reference { self.new.state.ghost_name ≡ self.old.state.ghost_name }
    {
        let all = self.regs;
        store_registers(self.state, all);
    }
}
