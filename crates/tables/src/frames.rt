// What stands at a place of a table's text. Its lines have fixed widths, so no newline is searched for until one is refused. A text and a place go together through these functions,
// as in the definitions that they answer (`end_at`, `line_at`, `words_at`).
ghost use Rattle.std.specs.Prelude.{◌≡◌, true, ◌≤◌, ◌<◌, length, drop};
ghost use Rattle.tables.specs.Lines as Lines;
ghost use Rattle.tables.specs.Replies.{reply};
ghost use Rattle.tables.specs.Faults.{judged_reply, judge};
ghost use Rattle.tables.specs.Frames.{known_in_tables, frames_of};
ghost use Rattle.tables.specs.Heads.{end_at, digits_at, line_from, line_at, sound};

use crate::faults::judge_line;
use crate::hex::{digit, field};
use crate::replies::Refusal;

// The digits of a line that opens an agent or gives a row, and its bytes, with the newline.
pub const FRAME_DIGITS: usize = 36;

pub const FRAME_BYTES: usize = FRAME_DIGITS + 1;
// Where the agent's number begins in such a line, after the first byte, and where its four words do.
pub const AGENT_AT: usize = 2;

pub const FIRST_WORD: usize = 4;

pub const SECOND_WORD: usize = 12;

pub const THIRD_WORD: usize = 20;

pub const FOURTH_WORD: usize = 28;
// The digits of the end line, and its bytes.
const END_DIGITS: usize = 2;

pub const END_BYTES: usize = END_DIGITS + 1;
// The end line, as it is read and as it is written.
pub const END_LINE: [u8; END_BYTES] = *b"FF\n";
// The first bytes of the lines that open an agent and give a row.
pub const OPENS: u32 = 0x00;

pub const GIVES: u32 = 0x01;
// The first bytes of a table's lines, each followed by the digits of its line: a flat list, as `judge_line` takes and `known_in_tables` is.
const KNOWN_IN_TABLES: [usize; 6] = [
    OPENS as usize,
    FRAME_DIGITS,
    GIVES as usize,
    FRAME_DIGITS,
    0xFF,
    END_DIGITS,
];

// A line of a table's text: its kind, with the agent's number. Malformed is one of them, and no Err, as in the definition `line_at`.
#[derive(Clone, Copy, PartialEq, Eq)]
pub enum Line {
    Opens(u32),
    Gives(u32),
    Ends,
    Malformed,
}

// Whether the end line stands at this place.
pub fn is_end(text: &[u8], at: usize) -> bool
    requires { at ≤ length text.now }
    ensures { result ≡ end_at text.now at }
{
    text[at..].starts_with(&END_LINE)
}

// Whether all bytes are digits. Each is looked at, which runs in vector registers.
fn are_digits(bytes: &[u8]) -> bool
    ensures { result ≡ Lines.all_hex bytes.now }
{
    bytes.iter().fold(true, |all, b| all & (digit(*b) < 16))
}

// Whether 36 digits and a newline stand at this place.
fn is_frame(text: &[u8], at: usize) -> bool
    requires { at ≤ length text.now }
    ensures { result ≡ digits_at 36 text.now at }
{
    if text.len() - at < FRAME_BYTES {
        return false;
    }
    are_digits(&text[at..at + FRAME_DIGITS]) && text[at + FRAME_DIGITS] == b'\n'
}

// The line that begins at this place.
pub fn line_at(text: &[u8], at: usize) -> Line
    requires { at ≤ length text.now }
    ensures { result ≡ line_at text.now at }
{
    if is_end(text, at) {
        return Line::Ends;
    }
    if !is_frame(text, at) {
        return Line::Malformed;
    }
    let agent = field(text, at + AGENT_AT, 2);
    match field(text, at, 2) {
        OPENS => Line::Opens(agent),
        GIVES => Line::Gives(agent),
        _ => Line::Malformed,
    }
}

// The reply to the line that begins at this place, by all its characters, its length and its first byte.
#[tactic(auto, unfolding(crate::specs::Replies::reply, crate::specs::Faults::judged_reply))]
pub fn line_reply(text: &[u8], at: usize) -> Result<(), Refusal>
    requires { at ≤ length text.now }
    ensures { reply result ≡ judged_reply (judge known_in_tables (line_from text.now at)) }
{
    Ok(judge_line(text, at, &KNOWN_IN_TABLES)?)
}

// The line that begins at this place, where no line from here to the end is malformed: two of its bytes tell.
pub fn sound_line(text: &[u8], at: usize) -> Line
    requires { (at < length text.now) × (sound (frames_of (drop at text.now)) ≡ true) }
    ensures { result ≡ line_at text.now at }
{
    if text[at] == b'F' {
        return Line::Ends;
    }
    let agent = field(text, at + AGENT_AT, 2);
    if text[at + 1] == b'0' {
        Line::Opens(agent)
    } else {
        Line::Gives(agent)
    }
}
