// The trace program's work: from input bytes to output bytes, on slices.
#![tactic(auto)]

ghost use Rattle.std.specs.Prelude.{◌≡◌, ◌≤◌, IfErr, length};
ghost use Rattle.traces.specs.Calls.{WroteTrace, longest_output, written};
ghost use Rattle.traces.specs.Output.{trace_of};
ghost use Rattle.traces.specs.Places.{Counts, so_far};

use crate::input::{first_bad_choice, table_end};
use crate::tracing::{Untraced, finish, trace_steps};
use crate::writing::{LAST_BYTES, STEP_BYTES};
use reading::reading::read;
use tables::layout::{MOST_AGENTS, MOST_ROWS, TABLE_WORDS};
use tables::replies::Refusal;
use tables::words::filled;

mod input; // input.rt: the table's text and the choice lines
mod writing; // writing.rt: hexadecimal text in the output buffer
mod tracing; // tracing.rt: the steps and the last line

// Every row's step and the last line: 512 lines of 47 bytes and one of 9.
pub const LONGEST_OUTPUT: usize = MOST_AGENTS * MOST_ROWS * STEP_BYTES + LAST_BYTES;

pub const LONGEST_INPUT: usize = 65536;

// The reply of a trace, and the length of its text: C's struct. Its text has a length with a refusal as well, so no Result says more.
#[repr(C)]
#[derive(Clone, Copy)]
pub struct TraceReply {
    pub reply: u32,
    pub length: usize,
}

// The trace of an input, at the start of `out`; or why the input is refused before any step, where nothing is written.
fn trace_input(input: &[u8], out: &mut [u8]) -> Result<TraceReply, Untraced>
    requires { longest_output ≤ length out.old }
    ensures traced { so_far result out.new ≡ written (trace_of input.now) out.old }
    ensures no_step { IfErr result (λ e. e.steps ≡ 0) }
{
    if LONGEST_INPUT < input.len() {
        return Err(Untraced::from(Refusal::InputTooLong));
    }
    let end = table_end(input);
    let at = end.at;
    let mut table = filled::<u32, TABLE_WORDS>(0);
    read(&input[..at], &mut table)?;
    first_bad_choice(input, at, end.lines + 1)?;
    Ok(trace_steps(&input[at..], &table, out))
}

// The output for an input, at the start of `out`.
pub fn trace(input: &[u8], out: &mut [u8]) -> TraceReply
    ensures wrote { WroteTrace input.now out.old result.reply result.length out.new }
    ensures counts { Counts result.length out.new }
{
    if out.len() < LONGEST_OUTPUT {
        return TraceReply {
            reply: u32::from(Refusal::BufferTooShort),
            length: 0,
        };
    }
    match trace_input(input, out) {
        Ok(traced) => traced,
        Err(e) => finish(out, 0, u32::from(e.refusal), e.told),
    }
}
