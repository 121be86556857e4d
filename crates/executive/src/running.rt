// Choices taken one after another: on from the words of a state as they stand, and a run from the start state.
ghost use Rattle.std.specs.Prelude.{◌≡◌, true, length};
ghost use Rattle.tables.specs.Layout.{table_words};
ghost use Rattle.tables.specs.Table.{good_table};
ghost use Rattle.choices.specs.State.{start_words, state_words};
ghost use Rattle.choices.specs.Fit.{fits};
ghost use Rattle.executive.specs.Replies.{ran_of};
ghost use Rattle.executive.specs.Run.{ended, run_from};

use crate::Stopped;
use crate::starting::put_start;
use crate::turns::Turns;

// On from the words of a state as they stand.
pub fn take_choices(table: &[u32], state: &mut [u32], choices: &[u32]) -> Result<u32, Stopped>
    requires { (length table.now ≡ table_words) × (length state.old ≡ state_words) × (good_table table.now ≡ true) × (fits table.now state.old ≡ true) }
    ensures { ended (ran_of result).reply (ran_of result).count state.new ≡ run_from table.now state.old 0 choices.now }
{
    let mut turns = Turns::begin(table, state);
    // Counted beside the loop: it is told in 32 bits, also after the last choice, where `enumerate` would have lost it.
    let mut count: u32 = 0;
    // In pairs, and not by a slice pattern: that takes two instructions more a choice.
    let (pairs, _) = choices.as_chunks::<2>();
    for pair in pairs {
        if let Err(refusal) = turns.take(pair[0], pair[1]) {
            turns.end();
            return Err(Stopped { refusal, count });
        }
        count += 1;
    }
    turns.end();
    Ok(count)
}

// The choices from the start state.
pub fn run_choices(table: &[u32], state: &mut [u32], choices: &[u32]) -> Result<u32, Stopped>
    requires { (length table.now ≡ table_words) × (length state.old ≡ state_words) × (good_table table.now ≡ true) }
    ensures { ended (ran_of result).reply (ran_of result).count state.new ≡ run_from table.now (start_words table.now) 0 choices.now }
{
    put_start(table, state);
    take_choices(table, state, choices)
}
