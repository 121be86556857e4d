// The parts of the input: the table's text up to the end line, and the choice lines after it.
ghost use Rattle.std.specs.Prelude.{◌≡◌, ◌+◌, ◌≤◌, ◌<◌, ◌^◌, length, drop};
ghost use Rattle.tables.specs.Lines.{lines};
ghost use Rattle.tables.specs.Faults.{judge};
ghost use Rattle.tables.specs.Heads.{line_length, line_from};
ghost use Rattle.reading.specs.Reader.{told_of};
ghost use Rattle.traces.specs.Input.{longest_input, table_bytes, table_text, known_in_choices, bad_choice};

use reading::Refused;
use tables::faults::{Fault, judge_line};
use tables::frames::{END_BYTES, is_end};
use tables::replies::Refusal;

const CHOICE_DIGITS: usize = 12;
// The one first byte that a choice line may have, and the digits of the line: a flat list, as `judge_line` takes and `known_in_choices` is.
const KNOWN_IN_CHOICES: [usize; 2] = [0x02, CHOICE_DIGITS];
// Where the time stands in a choice line, after the agent.
pub const TIME_AT: usize = 4;
// A choice line, with its newline.
pub const CHOICE_BYTES: usize = CHOICE_DIGITS + 1;

// Where the table's text ends, and how many lines it has.
#[derive(Clone, Copy)]
pub struct TableEnd {
    pub at: usize,
    pub lines: u32,
}

// The place after the line that begins here.
fn next_line(text: &[u8], at: usize) -> usize
    requires { at ≤ length text.now }
    ensures { result ≡ at + line_length (drop at text.now) }
{
    match text[at..].iter().position(|b| *b == b'\n') {
        Some(n) => at + n + 1,
        None => text.len(),
    }
}

// The end of the table's text: after the first end line, and of the whole input where there is none.
pub fn table_end(input: &[u8]) -> TableEnd
    requires { length input.now ≤ longest_input }
    ensures { (result.at ≡ table_bytes (lines input.now)) × (result.lines ≡ length (lines (table_text input.now))) × (result.at ≤ length input.now) × (result.lines ≤ result.at) }
{
    let mut at = 0;
    let mut count: u32 = 0;
    // Lines of several widths. `split_inclusive` would give each, and the place and the count, which are what is returned, would be added up by hand all the same.
    while at < input.len() {
        if is_end(input, at) {
            return TableEnd {
                at: at + END_BYTES,
                lines: count + 1,
            };
        }
        at = next_line(input, at);
        count += 1;
    }
    TableEnd { at, lines: count }
}

// The choice line that begins at this place, judged.
fn judge_choice(text: &[u8], at: usize) -> Result<(), Fault>
    requires { at ≤ length text.now }
    ensures { result ≡ judge known_in_choices (line_from text.now at) }
{
    judge_line(text, at, &KNOWN_IN_CHOICES)
}

// The first choice line that has a fault, where the line that begins at this place has the number `line`. All lines before it have one width.
pub fn first_bad_choice(input: &[u8], at: usize, line: u32) -> Result<(), Refused>
    requires { (at ≤ length input.now) × (line + length input.now < 2 ^ 32) }
    ensures { told_of result ≡ bad_choice line (lines (drop at input.now)) }
{
    // The line's number as it is told, in 32 bits; `enumerate` counts from 0 in another type.
    let mut n = line;
    for p in (at..input.len()).step_by(CHOICE_BYTES) {
        if let Err(fault) = judge_choice(input, p) {
            let refusal = Refusal::from(fault);
            return Err(Refused { refusal, line: n });
        }
        n += 1;
    }
    Ok(())
}
