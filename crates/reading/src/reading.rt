// The reader of frames. The text is passed for replies 2, 18, 19 and 3, then for 4 to 6 while a table beside the lent one is filled; that is passed for 7, and then copied.
ghost use Rattle.std.specs.Prelude.{ℕ, ◌≡◌, true, ◌++◌, ◌≤◌, ◌<◌, length, drop, get_or};
ghost use Rattle.tables.specs.Frames.{frames_of};
ghost use Rattle.tables.specs.Heads.{sound};
ghost use Rattle.tables.specs.Layout.{row_from, table_words};
ghost use Rattle.reading.specs.Reader.{told_of, in_place, rows_next, rows_good, table_of};
ghost use Rattle.reading.specs.Calls.{Read};

use crate::climbing::table_climbs;
use crate::loading::{put_agent, put_row, words_of};
use crate::placing::in_place;
use crate::{Refused, at_line};
use tables::RowWords;
use tables::frames::{FRAME_BYTES, Line, sound_line};
use tables::layout::TABLE_WORDS;
use tables::replies::Refusal;
use tables::rows::row_reply;
use tables::words::{copy, filled};

// The rows that come before the next agent or the end.
fn rows_next(text: &[u8], at: usize) -> u32
    requires { (at ≤ length text.now) × (sound (frames_of (drop at text.now)) ≡ true) × (rows_next (frames_of (drop at text.now)) ≤ 32) }
    ensures { result ≡ rows_next (frames_of (drop at text.now)) }
{
    let mut c = 0;
    for p in (at..text.len()).step_by(FRAME_BYTES) {
        match sound_line(text, p) {
            Line::Gives(_) => c += 1,
            _ => return c,
        }
    }
    c
}

// Replies 4 to 6 of the first row of a text, whose lines are in their places, that is refused; else the table, into words that are 0.
fn take_rows(text: &[u8], table: &mut [u32]) -> Result<(), Refused>
    requires { ((in_place 1 0 0 (frames_of text.now)).reply ≡ 0) × (length table.old ≡ table_words) × ((k : ℕ) → k < table_words → get_or table.old k 0 ≡ 0) }
    ensures { (told_of result ≡ rows_good 1 0 0 (frames_of text.now)) × ((told_of result).reply ≡ 0 → table.new ≡ table_of (frames_of text.now)) }
{
    // The line's number as it is told, in 32 bits; `enumerate` counts from 0 in another type.
    let mut n = 1;
    let mut a = 0;
    let mut c = 0;
    let mut i = 0;
    for p in (0..text.len()).step_by(FRAME_BYTES) {
        match sound_line(text, p) {
            Line::Opens(_) => {
                put_agent(text, p, table, a);
                a += 1;
                c = rows_next(text, p + FRAME_BYTES);
                i = 0;
            }
            Line::Gives(_) => {
                let words = words_of(text, p);
                at_line(row_reply(RowWords::from(words), i as u32, c), n)?;
                put_row(table, a, i, words);
                i += 1;
            }
            _ => return Ok(()),
        }
        n += 1;
    }
    Ok(())
}

// The words of a table take the place of the lent ones; those past them stay.
fn put_table(words: &[u32], table: &mut [u32])
    requires { (length words.now ≡ table_words) × (table_words ≤ length table.old) }
    ensures { table.new ≡ words.now ++ drop table_words table.old }
{
    copy(words, &mut table[..TABLE_WORDS]);
}

// Reads a table's text into the lent words: the reply, with its line. They are written only once every row is accepted.
pub fn read(text: &[u8], table: &mut [u32]) -> Result<(), Refused>
    ensures { Read text.now table.old (told_of result) table.new }
{
    if table.len() < TABLE_WORDS {
        return Err(Refused {
            refusal: Refusal::BufferTooShort,
            line: 0,
        });
    }
    in_place(text)?;
    let mut words = filled::<u32, TABLE_WORDS>(0);
    take_rows(text, &mut words)?;
    table_climbs(&words, 1)?;
    put_table(&words, table);
    Ok(())
}
