// The lates of the agents' current rows, which stand in an array of their own while choices are worked out, and the deadline that they set.
ghost use Rattle.std.specs.Prelude.{◌≡◌, ℕ, ◌^◌, ◌<◌, ◌≤◌, true, length, nat_le};
ghost use Rattle.tables.specs.Layout.{rows, table_words};
ghost use Rattle.tables.specs.Table.{good_table};
ghost use Rattle.choices.specs.State.{state_words};
ghost use Rattle.choices.specs.Lates.{late_at, Lates, above_none};

use crate::layout::position;
use tables::layout::{MOST_AGENTS, row_count};
use tables::rows::row_at;

// The greatest word, which no time is above: the late of an agent that has ended, as in the definition `late_at`; an Option for each agent would be no least of sixteen words.
pub const NO_LATE: u32 = u32::MAX;

// The late of agent a's row p; none where p is its end.
#[tactic(auto, unfolding(crate::specs::Lates::late_at))]
pub fn late_at(table: &[u32], a: usize, p: u32) -> u32
    requires { (table_words ≤ length table.now) × (a < 16) × (rows table.now a ≤ 32) }
    ensures { result ≡ late_at table.now a p }
{
    if row_count(table, a) <= p {
        return NO_LATE;
    }
    let r = row_at(table, a, p as usize);
    r.late
}

// The lates of all agents' current rows. An agent past the count has no row to run, and a fixed number of turns is unrolled.
pub fn load_lates(table: &[u32], state: &[u32]) -> [u32; MOST_AGENTS]
    requires { (length table.now ≡ table_words) × (length state.now ≡ state_words) × (good_table table.now ≡ true) }
    ensures { Lates table.now state.now result }
{
    let mut lates = [0u32; MOST_AGENTS];
    for (a, late) in lates.iter_mut().enumerate() {
        *late = late_at(table, a, position(state, a));
    }
    lates
}

// The least late: a time is in time where it is not above it.
pub fn deadline(lates: &[u32]) -> u32
    requires { length lates.now ≡ 16 }
    ensures { (t : ℕ) → t < 2 ^ 32 → above_none lates.now t ≡ nat_le t result }
{
    lates[..MOST_AGENTS]
        .iter()
        .fold(NO_LATE, |least, late| least.min(*late))
}

// A deadline by which the time t is told to be in time or not, where the last one was d: windows climb, so that a deadline only rises, and the lates are looked at only
// where t is above it.
#[tactic(auto, using(crate::proofs::Lates::above_none_lem))]
pub fn deadline_for(lates: &[u32], d: u32, t: u32) -> u32
    requires { (length lates.now ≡ 16) × (above_none lates.now d ≡ true) }
    ensures { (above_none lates.now t ≡ nat_le t result) × (above_none lates.now result ≡ true) }
{
    if t <= d {
        return d;
    }
    deadline(lates)
}
