// What is wrong with a line, if anything: one answer for the lines of a table and for choice lines.
ghost use Rattle.std.specs.Prelude.{◌≡◌, true, ◌+◌, ◌≤◌, ◌<◌, ltb, length, take, drop, position};
ghost use Rattle.tables.specs.Replies.{number_of};
ghost use Rattle.tables.specs.Lines.{all_hex, hex_digit};
ghost use Rattle.tables.specs.Faults.{fault_reply, judge_kind, judge};
ghost use Rattle.tables.specs.Heads.{line_from};

use crate::hex::{digit, field};
use crate::replies::Refusal;

// What can be wrong with a line: its characters, then its length, then its kind.
#[derive(Clone, Copy, PartialEq, Eq)]
pub enum Fault {
    Character,
    Length,
    FirstByte,
}

impl From<Fault> for Refusal {
    ghost from_gives = { λ w r. number_of r ≡ fault_reply w };

    #[tactic(auto, unfolding(crate::specs::Replies::number_of, crate::specs::Faults::fault_reply))]
    fn from(fault: Fault) -> Refusal {
        match fault {
            Fault::Character => Refusal::BadCharacter,
            Fault::Length => Refusal::BadLength,
            Fault::FirstByte => Refusal::UnknownFirstByte,
        }
    }
}

// A line that begins with so many digits, judged by the first bytes that are known, each followed by the digits of its line.
fn judge_kind(line: &[u8], digits: usize, known: &[usize]) -> Result<(), Fault>
    requires { (digits < length line.now) × (all_hex (take digits line.now) ≡ true) }
    ensures { result ≡ judge_kind known.now (take (digits + 1) line.now) }
{
    if digits < 2 {
        return Err(Fault::FirstByte);
    }
    let first = field(line, 0, 2) as usize;
    let (kinds, _) = known.as_chunks::<2>();
    for kind in kinds {
        if kind[0] == first {
            return if kind[1] == digits {
                Ok(())
            } else {
                Err(Fault::Length)
            };
        }
    }
    Err(Fault::FirstByte)
}

// How many digits the line begins with, where another byte follows them.
fn digits_first(line: &[u8]) -> Option<usize>
    ensures { result ≡ position (λ b. ltb 15 (hex_digit b)) line.now }
{
    line.iter().position(|b| 15 < digit(*b))
}

// The line that begins at this place, judged. The first byte that is no digit is to be its newline.
pub fn judge_line(text: &[u8], at: usize, known: &[usize]) -> Result<(), Fault>
    requires { at ≤ length text.now }
    ensures { result ≡ judge known.now (line_from text.now at) }
{
    let line = &text[at..];
    let digits = digits_first(line).ok_or(Fault::Character)?;
    if line[digits] != b'\n' {
        return Err(Fault::Character);
    }
    judge_kind(line, digits, known)
}
