// The writer. The table is checked and its text measured before the first byte is written.
ghost use Rattle.std.specs.Prelude.{◌≡◌, true, ◌^◌, ◌≤◌, ◌<◌, length, sum};
ghost use Rattle.std.proofs.lemmas.List.Edits.{sets};
ghost use Rattle.tables.specs.Layout.{table_words};
ghost use Rattle.tables.specs.Table.{good_table};
ghost use Rattle.writing.specs.Writer.{text_of};
ghost use Rattle.writing.specs.Calls.{wrote_of, Written};

use crate::Unwritten;
use crate::lines::{put_agent_line, put_end_line, put_row_lines};
use tables::checking::check;
use tables::frames::{END_BYTES, FRAME_BYTES};
use tables::layout::{TABLE_WORDS, agent_count, count_place, row_count};

// The rows of all agents together, by their row counts.
fn all_rows(counts: &[u32]) -> u32
    requires { sum counts.now < 2 ^ 32 }
    ensures { result ≡ sum counts.now }
{
    counts.iter().sum()
}

// The length of a good table's text, which 32 bits hold: no text is longer than 19,539 bytes.
fn text_length(table: &[u32]) -> u32
    requires { (length table.now ≡ table_words) × (good_table table.now ≡ true) }
    ensures { (result ≡ length (text_of table.now)) × (result ≤ 19539) }
{
    let n = agent_count(table);
    let rows = all_rows(&table[count_place(0)..count_place(n as usize)]);
    FRAME_BYTES as u32 * (n + rows) + END_BYTES as u32
}

// The text of a good table, at the start of a buffer that has room for it.
fn put_text(table: &[u32], text: &mut [u8])
    requires { (length table.now ≡ table_words) × (good_table table.now ≡ true) × (length (text_of table.now) ≤ length text.old) }
    ensures { text.new ≡ sets text.old 0 (text_of table.now) }
{
    let n = agent_count(table) as usize;
    // Where an agent's lines begin, only the row counts before it tell.
    let mut at = 0;
    for a in 0..n {
        let c = row_count(table, a) as usize;
        put_agent_line(text, at, table, a);
        put_row_lines(text, at + FRAME_BYTES, table, a, c);
        at += FRAME_BYTES * (1 + c);
    }
    put_end_line(text, at);
}

// Writes a table's text into the lent bytes, and returns its length. They are written only where the table is accepted and its text has room.
pub fn write(table: &[u32], text: &mut [u8]) -> Result<u32, Unwritten>
    ensures { Written table.now text.old (wrote_of result) text.new }
{
    check(table)?;
    let words = &table[..TABLE_WORDS];
    let length = text_length(words);
    if text.len() < length as usize {
        return Err(Unwritten::TooLong(length));
    }
    put_text(words, text);
    Ok(length)
}
