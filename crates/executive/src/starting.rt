// The start state of a table.
ghost use Rattle.std.specs.Prelude.{◌≡◌, ◌≤◌, length};
ghost use Rattle.tables.specs.Layout.{table_words};
ghost use Rattle.choices.specs.State.{start_words, state_words};

use choices::layout::{CLOCK_AT, MARKS_AT, REGISTERS_AT};
use tables::layout::{ROWS_AT, STARTS_AT};
use tables::words::copy;

// The start state into the words of a state: the table's registers stand where the state's do.
pub fn put_start(table: &[u32], state: &mut [u32])
    requires { (table_words ≤ length table.now) × (length state.old ≡ state_words) }
    ensures { state.new ≡ start_words table.now }
{
    state.fill(0);
    state[CLOCK_AT] = 1;
    copy(
        &table[STARTS_AT..ROWS_AT],
        &mut state[REGISTERS_AT..MARKS_AT],
    );
}
