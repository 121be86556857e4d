// Which messages a row sees, and which of them it takes.
ghost use Rattle.std.specs.Prelude.{◌≡◌, ◌<◌, ◌≤◌, ◌&&◌, Some, length, nat_le};
ghost use Rattle.tables.specs.Layout.{agents, row, table_words};
ghost use Rattle.choices.specs.State as State;
ghost use Rattle.choices.specs.Messages as Messages;

use crate::Message;
use crate::layout::{mark, value};
use tables::Row;
use tables::layout::{MOST_AGENTS, MOST_ROWS, agent_count};
use tables::rows::row_at;

// Whether the message of row i of agent b is visible to the row r, and its late is not below least: only the two windows count, not the clock.
#[tactic(auto, unfolding(crate::specs::Messages::visible))]
fn is_better(table: &[u32], state: &[u32], r: Row, b: usize, i: usize, least: u32) -> bool
    requires { (table_words ≤ length table.now) × (State.state_words ≤ length state.now) × (b < 16) × (i < 32) }
    ensures { result ≡ (nat_le least (row table.now b i).late && Messages.visible table.now (State.pool state.now) r b i) }
{
    let sender = row_at(table, b, i);
    // The windows first, and by two branches: in one && chain the compiler makes one of both, which the rows of a search pay with two fifths more instructions,
    // and the message numbers first cost a quarter more where they are equal.
    if r.early <= sender.late {
        return false;
    }
    if sender.late < least {
        return false;
    }
    mark(state, b, i) == 1 && sender.k == r.k
}

// The message of row i of agent b.
fn message_at(table: &[u32], state: &[u32], b: usize, i: usize) -> Message
    requires { (table_words ≤ length table.now) × (State.state_words ≤ length state.now) × (b < 16) × (i < 32) }
    ensures { result ≡ Messages.message_at table.now (State.pool state.now) b i }
{
    let sender = row_at(table, b, i);
    Message {
        late: sender.late,
        agent: b,
        row: i,
        value: value(state, b, i),
    }
}

// Of the messages visible to the row r, the one that is taken: of two of one late that of the lower agent, and of the higher row of one agent.
pub fn find_best(table: &[u32], state: &[u32], r: Row) -> Option<Message>
    requires { (table_words ≤ length table.now) × (State.state_words ≤ length state.now) × (agents table.now ≤ 16) }
    ensures { result ≡ Messages.best table.now (State.pool state.now) r }
{
    let n = agent_count(table) as usize;
    let mut m = None;
    // Loops and no chain: the best so far is a running choice, and past the agent count both end at once. At a fixed number of turns they cost as little.
    // The least late with which a message of the agents that follow goes before m, and with which one of this agent does.
    let mut least_of_next = 0;
    'agents: for b in 0..MOST_AGENTS {
        let mut least = least_of_next;
        for i in 0..MOST_ROWS {
            if b == n {
                break 'agents;
            }
            if is_better(table, state, r, b, i, least) {
                m = Some(message_at(table, state, b, i));
                let sender = row_at(table, b, i);
                least = sender.late;
                least_of_next = least + 1;
            }
        }
    }
    m
}
