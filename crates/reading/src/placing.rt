// Replies 2, 18, 19 and 3: the lines of a text, and whether they are in their places.
ghost use Rattle.std.specs.Prelude.{◌≡◌, eqb};
ghost use Rattle.tables.specs.Basics.{first};
ghost use Rattle.tables.specs.Frames.{frames_of};
ghost use Rattle.reading.specs.Reader.{told, told_of, opening_rules, row_rules, in_place};

use crate::{Refused, at_line};
use tables::frames::{END_BYTES, FRAME_BYTES, Line, line_at, line_reply};
use tables::layout::{MOST_AGENTS, MOST_ROWS};
use tables::replies::Refusal;

// Whether agent b may be opened after a agents, the last of which has i rows.
#[tactic(auto, using(tables::proofs::Tests::firsts), unfolding(tables::specs::Basics::first))]
fn may_open(b: u32, a: u32, i: u32) -> bool
    ensures { result ≡ eqb (first (opening_rules b a i)) 0 }
{
    b == a && (a as usize) < MOST_AGENTS && (a == 0 || 0 < i)
}

// Whether agent b may be given a row after a agents, the last of which has i rows.
#[tactic(auto, using(tables::proofs::Tests::firsts), unfolding(tables::specs::Basics::first))]
fn may_give(b: u32, a: u32, i: u32) -> bool
    ensures { result ≡ eqb (first (row_rules b a i)) 0 }
{
    a != 0 && b == a - 1 && (i as usize) < MOST_ROWS
}

// Line n is out of its place.
#[tactic(auto, unfolding(tables::specs::Replies::number_of))]
fn out_of_place(n: u32) -> Result<(), Refused>
    ensures { told_of result ≡ told 3 n }
{
    Err(Refused {
        refusal: Refusal::LineOutOfPlace,
        line: n,
    })
}

// Replies 2, 18, 19 and 3. Each line that is passed has FRAME_BYTES: nothing is read past the end line. Only a line that is refused is judged, which looks for its newline. At most MOST_AGENTS of MOST_ROWS rows are passed, so the lines can be counted.
pub fn in_place(text: &[u8]) -> Result<(), Refused>
    ensures { told_of result ≡ in_place 1 0 0 (frames_of text.now) }
{
    // The line's number as it is told, in 32 bits, also past the last line; `enumerate` counts from 0 in another type.
    let mut n = 1;
    let mut a = 0;
    let mut i = 0;
    for p in (0..text.len()).step_by(FRAME_BYTES) {
        match line_at(text, p) {
            Line::Opens(b) if may_open(b, a, i) => {
                a += 1;
                i = 0;
            }
            Line::Gives(b) if may_give(b, a, i) => i += 1,
            Line::Ends if 0 < i => {
                if p + END_BYTES < text.len() {
                    return out_of_place(n + 1);
                }
                return Ok(());
            }
            Line::Malformed => return at_line(line_reply(text, p), n),
            _ => return out_of_place(n),
        }
        n += 1;
    }
    out_of_place(n)
}
