// The lines of the output, put into a lent buffer from a place on.
ghost use Rattle.std.specs.Prelude.{◌≡◌, ◌+◌, ◌≤◌, length};
ghost use Rattle.std.proofs.lemmas.List.Edits.{sets};
ghost use Rattle.traces.specs.Output.{step_line, last_line};

use choices::Agent;
use digits::{BYTE_DIGITS, put_four, put_hex, put_word};
use tables::frames::AGENT_AT;

// Where the position, the time and the registers stand in the line of a step, after the agent.
const POSITION_AT: usize = 4;

const TIME_AT: usize = 6;

const REGISTERS_AT: usize = 14;

const STEP_DIGITS: usize = 46;
// The line of a step, with its newline.
pub const STEP_BYTES: usize = STEP_DIGITS + 1;

// Where the reply and the number that is told stand in the last line, and that number's digits.
const REPLY_AT: usize = 2;

const TOLD_AT: usize = 4;

const TOLD_DIGITS: usize = 4;

const LAST_DIGITS: usize = TOLD_AT + TOLD_DIGITS;
// The last line, with its newline.
pub const LAST_BYTES: usize = LAST_DIGITS + 1;

// The line of an accepted step: s is agent a's state after it.
pub fn put_step_line(out: &mut [u8], at: usize, a: u32, t: u32, s: Agent)
    requires { at + 47 ≤ length out.old }
    ensures { out.new ≡ sets out.old at (step_line a t s) }
{
    put_hex(out, at, BYTE_DIGITS, 0x03);
    put_hex(out, at + AGENT_AT, BYTE_DIGITS, a);
    put_hex(out, at + POSITION_AT, BYTE_DIGITS, s.pos);
    put_word(out, at + TIME_AT, t);
    put_four(out, at + REGISTERS_AT, s.regs);
    out[at + STEP_DIGITS] = b'\n';
}

// The last line.
pub fn put_last_line(out: &mut [u8], at: usize, reply: u32, n: u32)
    requires { at + 9 ≤ length out.old }
    ensures { out.new ≡ sets out.old at (last_line reply n) }
{
    put_hex(out, at, BYTE_DIGITS, 0xFE);
    put_hex(out, at + REPLY_AT, BYTE_DIGITS, reply);
    put_hex(out, at + TOLD_AT, TOLD_DIGITS, n);
    out[at + LAST_DIGITS] = b'\n';
}
