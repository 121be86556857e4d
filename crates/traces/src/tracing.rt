// The choice lines of an input, one step after the other, and the output's last line.
ghost use Rattle.std.specs.Prelude.{◌≡◌, true, ◌+◌, ◌*◌, ◌≤◌, length};
ghost use Rattle.tables.specs.Layout.{table_words};
ghost use Rattle.tables.specs.Lines.{lines};
ghost use Rattle.tables.specs.Table.{good_table};
ghost use Rattle.choices.specs.State.{start_words};
ghost use Rattle.executive.specs.Replies.{ran_of};
ghost use Rattle.traces.specs.Input.{bad_choice, choices_in};
ghost use Rattle.traces.specs.Output.{traced, last_line, trace_from};
ghost use Rattle.traces.specs.Calls.{trace_outcome, longest_output, written};
ghost use Rattle.traces.specs.Places.{placed, last, ending};

use crate::TraceReply;
use crate::input::{CHOICE_BYTES, TIME_AT};
use crate::writing::{LAST_BYTES, STEP_BYTES, put_last_line, put_step_line};
use choices::layout::STATE_WORDS;
use executive::Stopped;
use executive::starting::put_start;
use executive::turns::Turns;
use reading::Refused;
use tables::frames::AGENT_AT;
use tables::hex::field;
use tables::replies::{ACCEPTED, Refusal};
use tables::words::filled;

// Why a trace ends before its last choice, the number that its last line tells, and the steps before that line.
#[derive(Clone, Copy)]
pub struct Untraced {
    pub refusal: Refusal,
    pub told: u32,
    pub steps: u32,
}

// The whole input is refused: no line and no step is counted.
impl From<Refusal> for Untraced {
    ghost from_gives = { λ r u. u ≡ record { refusal = r; told = 0; steps = 0 } };

    fn from(refusal: Refusal) -> Untraced {
        Untraced {
            refusal,
            told: 0,
            steps: 0,
        }
    }
}

// A line is refused before any step, and its number is told.
impl From<Refused> for Untraced {
    ghost from_gives = { λ q u. u ≡ record { refusal = q.refusal; told = q.line; steps = 0 } };

    fn from(refused: Refused) -> Untraced {
        Untraced {
            refusal: refused.refusal,
            told: refused.line,
            steps: 0,
        }
    }
}

// A choice is refused, and the count of the steps before it is told.
impl From<Stopped> for Untraced {
    ghost from_gives = { λ s u. u ≡ record { refusal = s.refusal; told = s.count; steps = s.count } };

    fn from(stopped: Stopped) -> Untraced {
        Untraced {
            refusal: stopped.refusal,
            told: stopped.count,
            steps: stopped.count,
        }
    }
}

// The last line, after the step lines that end at this place, and what C is told of the whole.
#[tactic(auto, using(crate::proofs::Steps::last_line_length))]
pub fn finish(out: &mut [u8], at: usize, reply: u32, told: u32) -> TraceReply
    requires { at + 9 ≤ length out.old }
    ensures { trace_outcome result.reply result.length out.new ≡ placed (traced reply (last_line reply told)) at out.old }
{
    put_last_line(out, at, reply, told);
    TraceReply {
        reply,
        length: at + LAST_BYTES,
    }
}

// Where the lines of so many steps end.
fn steps_end(steps: u32) -> usize
    requires { steps ≤ 512 }
    ensures { result ≡ 47 * steps }
{
    STEP_BYTES * steps as usize
}

// The steps of the choice lines, none of which has a fault, from the start state of a good table: the rest of a trace.
pub fn trace_steps(choices: &[u8], table: &[u32], out: &mut [u8]) -> TraceReply
    requires { (length table.now ≡ table_words) × (good_table table.now ≡ true) × ((bad_choice 1 (lines choices.now)).reply ≡ 0) × (longest_output ≤ length out.old) }
    ensures { trace_outcome result.reply result.length out.new ≡ written (trace_from table.now (start_words table.now) 0 (choices_in (lines choices.now))) out.old }
{
    match put_step_lines(choices, table, out).map_err(|stopped| Untraced::from(stopped)) {
        Ok(count) => finish(out, steps_end(count), ACCEPTED, count),
        Err(e) => finish(out, steps_end(e.steps), u32::from(e.refusal), e.told),
    }
}

// Their step lines: the count of these, or where a choice is refused. The last line is left to `trace_steps`.
pub fn put_step_lines(choices: &[u8], table: &[u32], out: &mut [u8]) -> Result<u32, Stopped>
    requires { (length table.now ≡ table_words) × (good_table table.now ≡ true) × ((bad_choice 1 (lines choices.now)).reply ≡ 0) × (longest_output ≤ length out.old) }
    ensures traced { ending (last (ran_of result).count (ran_of result).reply (ran_of result).count) out.new ≡ written (trace_from table.now (start_words table.now) 0 (choices_in (lines choices.now))) out.old }
    ensures few { (ran_of result).count ≤ 512 }
{
    let mut state = filled::<u32, STATE_WORDS>(0);
    put_start(table, &mut state);
    let mut turns = Turns::begin(table, &mut state);
    // Counted beside the loop: it is told in 32 bits, also after the last line, where `enumerate` would have lost it.
    let mut n: u32 = 0;
    for line in choices.chunks_exact(CHOICE_BYTES) {
        let a = field(line, AGENT_AT, 2);
        let t = field(line, TIME_AT, 8);
        match turns.take(a, t) {
            Ok(agent) => put_step_line(out, STEP_BYTES * n as usize, a, t, agent),
            Err(refusal) => return Err(Stopped { refusal, count: n }),
        }
        n += 1;
    }
    Ok(n)
}
