// The words of a line into the words of a table.
ghost use Rattle.std.specs.Prelude.{◌≡◌, true, ◌+◌, ◌-◌, ◌≤◌, ◌<◌, length, set};
ghost use Rattle.std.proofs.lemmas.List.Edits.{sets};
ghost use Rattle.tables.specs.Layout.{table_words, agents_place, count_place, start_place, row_place};
ghost use Rattle.tables.specs.Heads.{digits_at, words_at};

use tables::frames::{FIRST_WORD, FOURTH_WORD, SECOND_WORD, THIRD_WORD};
use tables::hex::word;
use tables::layout::{AGENTS_AT, count_place, row_place, start_place};

// The four words of the line at this place: the starting registers of an agent, or a row.
#[tactic(auto, unfolding(tables::specs::Frames::four_words))]
pub(crate) fn words_of(text: &[u8], at: usize) -> [u32; 4]
    requires { (at ≤ length text.now) × (digits_at 36 text.now at ≡ true) }
    ensures { result ≡ words_at text.now at }
{
    [
        word(text, at, FIRST_WORD),
        word(text, at, SECOND_WORD),
        word(text, at, THIRD_WORD),
        word(text, at, FOURTH_WORD),
    ]
}

// Four words go into the table, each from its register: `copy_from_slice` was tried, and takes them through the stack, with 25 instructions more a row.
fn put_words(table: &mut [u32], place: usize, words: [u32; 4])
    requires { place + 4 ≤ length table.old }
    ensures { table.new ≡ sets table.old place words }
{
    let [w, x, y, z] = words;
    table[place] = w;
    table[place + 1] = x;
    table[place + 2] = y;
    table[place + 3] = z;
}

// Agent a with the starting registers of the line at this place.
pub fn put_agent(text: &[u8], at: usize, table: &mut [u32], a: usize)
    requires { (at ≤ length text.now) × (digits_at 36 text.now at ≡ true) × (length table.old ≡ table_words) × (a < 16) }
    ensures { table.new ≡ sets (set table.old agents_place (a + 1)) (start_place a) (words_at text.now at) }
{
    table[AGENTS_AT] = (a + 1) as u32;
    put_words(table, start_place(a), words_of(text, at));
}

// Row i of the last of a agents.
pub fn put_row(table: &mut [u32], a: usize, i: usize, words: [u32; 4])
    requires { (length table.old ≡ table_words) × (1 ≤ a) × (a ≤ 16) × (i < 32) }
    ensures { table.new ≡ sets (set table.old (count_place (a - 1)) (i + 1)) (row_place (a - 1) i) words }
{
    let b = a - 1;
    table[count_place(b)] = (i + 1) as u32;
    put_words(table, row_place(b, i), words);
}
