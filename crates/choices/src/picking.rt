// The choice that a caller is given, of a good table.
ghost use Rattle.std.specs.Prelude.{◌≡◌, ◌<◌, ◌≤◌, true, MatchOption, length};
ghost use Rattle.tables.specs.Layout.{table_words};
ghost use Rattle.tables.specs.Table.{good_table};
ghost use Rattle.choices.specs.State.{pos, state_words};
ghost use Rattle.choices.specs.Pick as Pick;
ghost use Rattle.choices.specs.Lates.{Picks};

use crate::deadlines::{NO_LATE, load_lates};
use crate::layout::{clock, position};
use tables::rows::row_at;

// The unfinished agent of the least late, of equal lates the lowest number; none where all have ended. Not inlined: `pick` takes 272 bytes of stack so, and 448 with this in it.
#[inline(never)]
pub fn picked_agent(table: &[u32], state: &[u32]) -> Option<usize>
    requires { (length table.now ≡ table_words) × (length state.now ≡ state_words) × (good_table table.now ≡ true) }
    ensures { MatchOption result (Pick.all_ended table.now state.now ≡ true) (λ a. Picks table.now state.now a) }
{
    let lates = load_lates(table, state);
    // Tried: no Option in the loop, which would keep its tag in each of the 16 turns (138 instructions in place of 94), and no `min_by_key`, which makes one too (141).
    let mut first = 0;
    let mut least = NO_LATE;
    for (a, &late) in lates.iter().enumerate() {
        if late < least {
            least = late;
            first = a;
        }
    }
    if least == NO_LATE {
        return None;
    }
    Some(first)
}

// The soonest that agent a's row may be run at.
pub fn soonest(table: &[u32], state: &[u32], a: usize) -> u32
    requires { (table_words ≤ length table.now) × (state_words ≤ length state.now) × (a < 16) × (pos state.now a < 32) }
    ensures { result ≡ Pick.soonest table.now state.now a }
{
    let r = row_at(table, a, position(state, a) as usize);
    clock(state).max(r.early)
}
