// The lines of a table, put into a lent buffer from a place on.
ghost use Rattle.std.specs.Prelude.{◌≡◌, ◌+◌, ◌*◌, ◌≤◌, ◌<◌, length};
ghost use Rattle.std.proofs.lemmas.List.Edits.{sets};
ghost use Rattle.tables.specs.Layout.{table_words, start_place};
ghost use Rattle.tables.specs.Lines.{end_line};
ghost use Rattle.writing.specs.Writer.{four_at, frame_line, lines_of, rows_from};

use digits::{BYTE_DIGITS, put_four, put_hex};
use tables::frames::{
    AGENT_AT, END_BYTES, END_LINE, FIRST_WORD, FRAME_BYTES, FRAME_DIGITS, GIVES, OPENS,
};
use tables::layout::{row_place, start_place};

// The line of this kind, for agent a, with the four words from place p of the table on.
fn put_line(text: &mut [u8], at: usize, kind: u32, a: usize, table: &[u32], p: usize)
    requires { (at + 37 ≤ length text.old) × (a < 16) × (p + 4 ≤ length table.now) }
    ensures { text.new ≡ sets text.old at (frame_line kind a (four_at table.now p)) }
{
    put_hex(text, at, BYTE_DIGITS, kind);
    put_hex(text, at + AGENT_AT, BYTE_DIGITS, a as u32);
    put_four(
        text,
        at + FIRST_WORD,
        [table[p], table[p + 1], table[p + 2], table[p + 3]],
    );
    text[at + FRAME_DIGITS] = b'\n';
}

// The line that opens agent a, with its starting registers.
pub fn put_agent_line(text: &mut [u8], at: usize, table: &[u32], a: usize)
    requires { (at + 37 ≤ length text.old) × (length table.now ≡ table_words) × (a < 16) }
    ensures { text.new ≡ sets text.old at (frame_line 0x00 a (four_at table.now (start_place a))) }
{
    put_line(text, at, OPENS, a, table, start_place(a));
}

// The lines of the c rows of agent a.
pub fn put_row_lines(text: &mut [u8], at: usize, table: &[u32], a: usize, c: usize)
    requires { (at + 37 * c ≤ length text.old) × (length table.now ≡ table_words) × (a < 16) × (c ≤ 32) }
    ensures { text.new ≡ sets text.old at (lines_of (rows_from table.now a 0 c)) }
{
    for i in 0..c {
        put_line(text, at + FRAME_BYTES * i, GIVES, a, table, row_place(a, i));
    }
}

// The end line.
pub fn put_end_line(text: &mut [u8], at: usize)
    requires { at + 3 ≤ length text.old }
    ensures { text.new ≡ sets text.old at end_line }
{
    text[at..at + END_BYTES].copy_from_slice(&END_LINE);
}
