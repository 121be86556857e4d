// The calls on lent words: of any words, any lengths and any numbers. What stands past a table's or a state's words is neither read nor written.
ghost use Rattle.std.specs.Prelude.{◌≡◌, ◌≤◌, true, not, [], ◌∷◌, length, ltb, OnOk};
ghost use Rattle.tables.specs.Basics.{first, ◌⇒◌};
ghost use Rattle.tables.specs.Layout.{table_words};
ghost use Rattle.tables.specs.Replies.{reply};
ghost use Rattle.tables.specs.Table.{good_table};
ghost use Rattle.choices.specs.State.{state_words};
ghost use Rattle.choices.specs.Fit.{fits};
ghost use Rattle.executive.specs.Calls as Calls;
ghost use Rattle.executive.specs.Replies.{ran_of, picked_of};

use crate::checking::state_fits;
use crate::running::{run_choices, take_choices};
use crate::starting::put_start;
use crate::{Choice, Stopped};
use choices::layout::STATE_WORDS;
use choices::picking::{picked_agent, soonest};
use tables::checking::table_is_good;
use tables::layout::TABLE_WORDS;
use tables::replies::Refusal;

// Refused with 1 where the words of a table or of a state are too few.
#[tactic(auto, using(tables::proofs::Passed::refusals), unfolding(tables::specs::Replies::reply, tables::specs::Replies::number_of, tables::specs::Basics::first))]
fn enough_words(table: &[u32], state: &[u32]) -> Result<(), Refusal>
    ensures told { reply result ≡ first ((ltb (length table.now) table_words ⇒ 1) ∷ (ltb (length state.now) state_words ⇒ 1) ∷ []) }
    ensures room { OnOk result ((table_words ≤ length table.now) × (state_words ≤ length state.now)) }
{
    if table.len() < TABLE_WORDS {
        return Err(Refusal::BufferTooShort);
    }
    if state.len() < STATE_WORDS {
        return Err(Refusal::BufferTooShort);
    }
    Ok(())
}

// Refused with 8 where the words of a table break a rule.
#[tactic(auto, using(tables::proofs::Passed::refusals), unfolding(tables::specs::Replies::reply, tables::specs::Replies::number_of, tables::specs::Basics::first))]
fn good_words(table: &[u32]) -> Result<(), Refusal>
    requires { length table.now ≡ table_words }
    ensures told { reply result ≡ first ((not (good_table table.now) ⇒ 8) ∷ []) }
    ensures good { OnOk result (good_table table.now ≡ true) }
{
    if !table_is_good(table) {
        return Err(Refusal::BadTable);
    }
    Ok(())
}

// What `start` is refused with: 1 or 8.
#[tactic(auto, using(tables::proofs::Refusals::no_zero), unfolding(tables::specs::Replies::reply, tables::specs::Basics::first, crate::specs::Calls::start_reply))]
fn start_reply(table: &[u32], state: &[u32]) -> Result<(), Refusal>
    ensures told { reply result ≡ Calls.start_reply table.now state.now }
    ensures ready { OnOk result ((table_words ≤ length table.now) × (state_words ≤ length state.now) × (good_table (Calls.table_part table.now) ≡ true)) }
{
    enough_words(table, state)?;
    good_words(&table[..TABLE_WORDS])
}

// Where it is not refused the start state stands in the state's words.
pub fn start(table: &[u32], state: &mut [u32]) -> Result<(), Refusal>
    ensures { Calls.Started table.now state.old (reply result) state.new }
{
    start_reply(table, state)?;
    put_start(&table[..TABLE_WORDS], &mut state[..STATE_WORDS]);
    Ok(())
}

// What the words of a table and a state are refused with, whatever is asked of them: 1, 8 or 9.
#[tactic(auto, using(tables::proofs::Refusals::no_zero), unfolding(tables::specs::Replies::reply, tables::specs::Replies::number_of, tables::specs::Basics::first, crate::specs::Calls::start_reply, crate::specs::Calls::words_reply))]
fn words_reply(table: &[u32], state: &[u32]) -> Result<(), Refusal>
    ensures told { reply result ≡ Calls.words_reply table.now state.now }
    ensures ready { OnOk result ((table_words ≤ length table.now) × (state_words ≤ length state.now) × (good_table (Calls.table_part table.now) ≡ true)
        × (fits (Calls.table_part table.now) (Calls.state_part state.now) ≡ true)) }
{
    start_reply(table, state)?;
    if !state_fits(&table[..TABLE_WORDS], &state[..STATE_WORDS]) {
        return Err(Refusal::BadState);
    }
    Ok(())
}

// Refused with 1, 8, 9, 10 to 13 or 15; or the state's words are those after the step.
pub fn step(table: &[u32], state: &mut [u32], agent: u32, time: u32) -> Result<(), Refusal>
    ensures { Calls.Stepped table.now state.old agent time (reply result) state.new }
{
    words_reply(table, state)?;
    let choice = [agent, time];
    match take_choices(&table[..TABLE_WORDS], &mut state[..STATE_WORDS], &choice) {
        Ok(_) => Ok(()),
        Err(stopped) => Err(stopped.refusal),
    }
}

// Refused with 1, 16 or 8 before any step; or it starts, takes the choices up to the first that is refused, and counts the accepted steps.
pub fn run(table: &[u32], state: &mut [u32], choices: &[u32]) -> Result<u32, Stopped>
    ensures { Calls.Ran table.now state.old choices.now (ran_of result).reply (ran_of result).count state.new }
{
    enough_words(table, state)?;
    if choices.len() % 2 == 1 {
        return Err(Stopped::from(Refusal::OddChoices));
    }
    let tb = &table[..TABLE_WORDS];
    good_words(tb)?;
    run_choices(tb, &mut state[..STATE_WORDS], choices)
}

// Refused with 1, 8, 9 or 11; or the unfinished agent of the least late, at the soonest that it may be run at: `step` accepts that choice.
pub fn pick(table: &[u32], state: &[u32]) -> Result<Choice, Refusal>
    ensures { Calls.Picked table.now state.now (picked_of result).reply (picked_of result).agent (picked_of result).time }
{
    words_reply(table, state)?;
    let tb = &table[..TABLE_WORDS];
    let st = &state[..STATE_WORDS];
    let a = picked_agent(tb, st).ok_or(Refusal::AgentEnded)?;
    Ok(Choice {
        agent: a as u32,
        time: soonest(tb, st, a),
    })
}
