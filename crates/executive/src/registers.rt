// The registers of all agents, out of a state's words and back into them.
ghost use Rattle.std.specs.Prelude.{◌≡◌, ◌≤◌, length};
ghost use Rattle.choices.specs.State.{state_words};
ghost use Rattle.choices.specs.Registers.{with_regs};

use choices::layout::{MARKS_AT, REGISTERS_AT};
use tables::layout::{MOST_AGENTS, REGISTERS};

// The registers of all agents.
const ALL_REGISTERS: usize = REGISTERS * MOST_AGENTS;

// The registers that stand in the state.
pub fn load_registers(state: &[u32]) -> [[u32; REGISTERS]; MOST_AGENTS]
    requires { state_words ≤ length state.now }
    ensures { with_regs state.now result ≡ state.now }
{
    let (all, _) = state[REGISTERS_AT..MARKS_AT].as_chunks();
    <[[u32; REGISTERS]; MOST_AGENTS]>::try_from(all).unwrap()
}

// The registers g into the state.
pub fn store_registers(state: &mut [u32], g: [[u32; REGISTERS]; MOST_AGENTS])
    requires { state_words ≤ length state.old }
    ensures { state.new ≡ with_regs state.old g }
{
    // Word by word: `copy_from_slice(g.as_flattened())` moves the same 64 words, but its proof against `with_regs` did not close.
    for j in 0..ALL_REGISTERS {
        state[REGISTERS_AT + j] = g[j / REGISTERS][j % REGISTERS];
    }
}
