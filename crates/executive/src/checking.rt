// Whether a state fits a good table: what reply 9 denies.
ghost use Rattle.std.specs.Prelude.{◌≡◌, true, ◌&&◌, [], ◌∷◌, ◌≤◌, ◌<◌, length, nat_le};
ghost use Rattle.tables.specs.Basics.{every, all_below, zero_from};
ghost use Rattle.tables.specs.Layout.{agents, rows, table_words};
ghost use Rattle.tables.specs.Table.{good_table};
ghost use Rattle.choices.specs.State.{pos_place, reg_place, mark_place, value_place, state_words};
ghost use Rattle.choices.specs.Fit.{good_mark, good_places, in_time, fits};

use choices::deadlines::{deadline, load_lates};
use choices::layout::{
    MARKS_AT, REGISTERS_AT, STATE_WORDS, VALUES_AT, clock, mark, mark_place, pos_place, position,
    reg_place, value, value_place,
};
use tables::layout::{LAST_TIME, agent_count, row_count};
use tables::rows::{SEND, row_at};
use tables::words::all_zero;

// Whether row i of agent a, below the agent's position, has a mark and a value that it may have.
#[tactic(auto, unfolding(choices::specs::Fit::good_mark))]
fn mark_is_good(table: &[u32], state: &[u32], a: usize, i: usize) -> bool
    requires { (table_words ≤ length table.now) × (state_words ≤ length state.now) × (a < 16) × (i < 32) }
    ensures { result ≡ good_mark table.now state.now a i }
{
    match mark(state, a, i) {
        0 => value(state, a, i) == 0,
        1 => row_at(table, a, i).op == SEND,
        _ => false,
    }
}

// Whether each row of agent a below p has.
fn marks_are_good(table: &[u32], state: &[u32], a: usize, p: usize) -> bool
    requires { (table_words ≤ length table.now) × (state_words ≤ length state.now) × (a < 16) × (p ≤ 32) }
    ensures { result ≡ all_below p (good_mark table.now state.now a) }
{
    (0..p).all(|i| mark_is_good(table, state, a, i))
}

// Whether agent a's position, marks and values are as they may be.
#[tactic(auto, unfolding(choices::specs::Fit::good_places, tables::specs::Basics::every))]
fn places_are_good(table: &[u32], state: &[u32], a: usize) -> bool
    requires { (table_words ≤ length table.now) × (state_words ≤ length state.now) × (a < 16) × (rows table.now a ≤ 32) }
    ensures { result ≡ good_places table.now state.now a }
{
    let p = position(state, a) as usize;
    p <= row_count(table, a) as usize
        && marks_are_good(table, state, a, p)
        && all_zero(state, mark_place(a, p), mark_place(a + 1, 0))
        && all_zero(state, value_place(a, p), value_place(a + 1, 0))
}

// Whether each agent's are.
fn agents_are_good(table: &[u32], state: &[u32]) -> bool
    requires { (table_words ≤ length table.now) × (state_words ≤ length state.now) × (good_table table.now ≡ true) }
    ensures { result ≡ all_below (agents table.now) (good_places table.now state.now) }
{
    (0..agent_count(table) as usize).all(|a| places_are_good(table, state, a))
}

// Whether the places from agent n on are 0.
#[tactic(auto, unfolding(tables::specs::Basics::every))]
fn unused_are_zero(state: &[u32], n: usize) -> bool
    requires { (state_words ≤ length state.now) × (n ≤ 16) }
    ensures { result ≡ every (zero_from state.now (pos_place n) (reg_place 0) ∷ zero_from state.now (reg_place n) (mark_place 0 0)
        ∷ zero_from state.now (mark_place n 0) (value_place 0 0) ∷ zero_from state.now (value_place n 0) state_words ∷ []) }
{
    all_zero(state, pos_place(n), REGISTERS_AT)
        && all_zero(state, reg_place(n), MARKS_AT)
        && all_zero(state, mark_place(n, 0), VALUES_AT)
        && all_zero(state, value_place(n, 0), STATE_WORDS)
}

// Whether a clock may stand at t.
fn may_be_clock(t: u32) -> bool
    ensures { result ≡ (nat_le 1 t && nat_le t 1000000) }
{
    1 <= t && t <= LAST_TIME
}

// Whether the time is above no late.
fn is_in_time(table: &[u32], state: &[u32], t: u32) -> bool
    requires { (length table.now ≡ table_words) × (length state.now ≡ state_words) × (good_table table.now ≡ true) }
    ensures { result ≡ in_time table.now state.now t }
{
    t <= deadline(&load_lates(table, state))
}

// Whether the state fits the table.
#[tactic(auto, using(tables::proofs::Good::few), unfolding(choices::specs::Fit::fits, tables::specs::Basics::every))]
pub fn state_fits(table: &[u32], state: &[u32]) -> bool
    requires { (length table.now ≡ table_words) × (length state.now ≡ state_words) × (good_table table.now ≡ true) }
    ensures { result ≡ fits table.now state.now }
{
    let t = clock(state);
    may_be_clock(t)
        && is_in_time(table, state, t)
        && agents_are_good(table, state)
        && unused_are_zero(state, agent_count(table) as usize)
}
