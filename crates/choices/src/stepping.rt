// A choice of an agent and a time, of a good table.
ghost use Rattle.std.specs.Prelude.{◌≡◌, ℕ, ◌<◌, ◌≤◌, true, List, [], length, nat_le, slice_index_or, slice_set};
ghost use Rattle.tables.specs.Layout.{agents, table_words};
ghost use Rattle.tables.specs.Replies.{reply};
ghost use Rattle.tables.specs.Rows.{well_formed};
ghost use Rattle.tables.specs.Table.{good_table};
ghost use Rattle.choices.specs.State.{pool, pos_place, state_words};
ghost use Rattle.choices.specs.Messages.{best};
ghost use Rattle.choices.specs.Effect.{after};
ghost use Rattle.choices.specs.Fit.{in_time};
ghost use Rattle.choices.specs.Step.{choice_reply, with_sent};
ghost use Rattle.choices.specs.Registers.{acted, act_into};

use crate::Agent;
use crate::layout::{CLOCK_AT, clock, mark_place, pos_place, position, value_place};
use crate::messages::find_best;
use tables::layout::{REGISTERS, agent_count, row_count};
use tables::replies::Refusal;
use tables::rows::{SEND, row_at};
use tables::{Family, Row};

// The reply to the choice of agent a at time t: 10 to 13, 15 or 0, given a deadline by which t is told to be in time or not.
pub fn choice_reply(
    table: &[u32],
    state: &[u32],
    a: u32,
    t: u32,
    deadline: u32,
) -> Result<(), Refusal>
    requires { (length table.now ≡ table_words) × (length state.now ≡ state_words) × (good_table table.now ≡ true) × (in_time table.now state.now t ≡ nat_le t deadline) }
    ensures { reply result ≡ choice_reply table.now state.now a t }
{
    if agent_count(table) <= a {
        return Err(Refusal::NoSuchAgent);
    }
    let b = a as usize;
    let p = position(state, b);
    if row_count(table, b) <= p {
        return Err(Refusal::AgentEnded);
    }
    if t < clock(state) {
        return Err(Refusal::TimeBelowClock);
    }
    let r = row_at(table, b, p as usize);
    if t < r.early {
        return Err(Refusal::TimeBelowEarly);
    }
    if deadline < t {
        return Err(Refusal::TimeAboveLate);
    }
    Ok(())
}

// The state of an agent after its row r. The family says which method, by a match: the families are five, each arm owes its method what its rows have, and a closure would carry
// no more.
fn effect(table: &[u32], state: &[u32], s: Agent, r: Row) -> Agent
    requires { (table_words ≤ length table.now) × (state_words ≤ length state.now) × (agents table.now ≤ 16) × (s.pos < 32) × (well_formed r ≡ true) }
    ensures { result ≡ after r (best table.now (pool state.now) r) s }
{
    match Family::from(r.op) {
        Family::Local => s.local(r),
        Family::Move => s.moved(r),
        Family::Send => s.sent(r),
        Family::Receive => s.received(r, find_best(table, state, r)),
        // No good table has one.
        Family::Unknown => s,
    }
}

// The words that an accepted choice changes, but for the registers: s is the agent's state before its row r, p its position afterwards.
#[tactic(auto, unfolding(crate::specs::Step::with_sent))]
fn put_choice(state: &mut [u32], a: usize, t: u32, r: Row, s: Agent, p: u32)
    requires { (state_words ≤ length state.old) × (a < 16) × (s.pos < 32) × (r.x ≤ 3) }
    ensures { state.new ≡ with_sent (slice_set (slice_set state.old 0 t) (pos_place a) p) a r s }
{
    state[CLOCK_AT] = t;
    state[pos_place(a)] = p;
    if r.op == SEND {
        let i = s.pos as usize;
        state[mark_place(a, i)] = 1;
        state[value_place(a, i)] = s.regs[r.x as usize];
    }
}

// The accepted choice of agent a at time t, where own are the agent's registers: those among the state's words are neither read nor written.
pub fn act(table: &[u32], state: &mut [u32], a: usize, t: u32, own: [u32; REGISTERS]) -> Agent
    requires { (length table.now ≡ table_words) × (length state.old ≡ state_words) × (good_table table.now ≡ true) × (choice_reply table.now state.old a t ≡ 0) }
    ensures { (g : List (List ℕ)) → slice_index_or g a [] ≡ own → acted result state.new ≡ act_into table.now state.old g a t }
{
    let s = Agent {
        pos: position(state, a),
        regs: own,
    };
    let r = row_at(table, a, s.pos as usize);
    let agent = effect(table, state, s, r);
    put_choice(state, a, t, r, s, agent.pos);
    agent
}
