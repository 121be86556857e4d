// The words of a state: how many there are, and where each thing stands in them. Each place and each word has a function of its own, here and in tables' layout, though some are
// alike but for a number: each says its own definition by its own name, which docs/STATEMENTS.md lists.
ghost use Rattle.std.specs.Prelude.{◌≡◌, ◌<◌, ◌≤◌, length};
ghost use Rattle.choices.specs.State as State;

use tables::layout::{MOST_AGENTS, MOST_ROWS, REGISTERS};

pub const CLOCK_AT: usize = 0;
// Where the registers begin, after the clock and the positions.
pub const REGISTERS_AT: usize = 1 + MOST_AGENTS;
// Where the sent marks begin, after the registers.
pub const MARKS_AT: usize = REGISTERS_AT + REGISTERS * MOST_AGENTS;
// Where the sent values begin, after the marks.
pub const VALUES_AT: usize = MARKS_AT + MOST_ROWS * MOST_AGENTS;

pub const STATE_WORDS: usize = VALUES_AT + MOST_ROWS * MOST_AGENTS;

// The clock.
pub fn clock(state: &[u32]) -> u32
    requires { State.state_words ≤ length state.now }
    ensures { result ≡ State.clock state.now }
{
    state[CLOCK_AT]
}

// Where the position of agent a stands.
pub fn pos_place(a: usize) -> usize
    requires { a ≤ 16 }
    ensures { result ≡ State.pos_place a }
{
    1 + a
}

// The position of agent a.
pub fn position(state: &[u32], a: usize) -> u32
    requires { (State.state_words ≤ length state.now) × (a < 16) }
    ensures { result ≡ State.pos state.now a }
{
    state[pos_place(a)]
}

// Where the registers of agent a begin.
pub fn reg_place(a: usize) -> usize
    requires { a ≤ 16 }
    ensures { result ≡ State.reg_place a }
{
    REGISTERS_AT + REGISTERS * a
}

// Where the mark of row i of agent a stands.
pub fn mark_place(a: usize, i: usize) -> usize
    requires { (a ≤ 16) × (i ≤ 32) }
    ensures { result ≡ State.mark_place a i }
{
    MARKS_AT + (MOST_ROWS * a + i)
}

// The mark of row i of agent a. (mark and value are one line each over their place, and one function of both would need the place as an argument.)
pub fn mark(state: &[u32], a: usize, i: usize) -> u32
    requires { (State.state_words ≤ length state.now) × (a < 16) × (i < 32) }
    ensures { result ≡ State.mark state.now a i }
{
    state[mark_place(a, i)]
}

// Where the value of row i of agent a stands.
pub fn value_place(a: usize, i: usize) -> usize
    requires { (a ≤ 16) × (i ≤ 32) }
    ensures { result ≡ State.value_place a i }
{
    VALUES_AT + (MOST_ROWS * a + i)
}

// The value of row i of agent a.
pub fn value(state: &[u32], a: usize, i: usize) -> u32
    requires { (State.state_words ≤ length state.now) × (a < 16) × (i < 32) }
    ensures { result ≡ State.value state.now a i }
{
    state[value_place(a, i)]
}
