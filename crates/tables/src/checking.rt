// The check of a table's words.
ghost use Rattle.std.specs.Prelude.{◌≡◌, ◌≤◌, ◌<◌, length};
ghost use Rattle.tables.specs.Basics.{all_below};
ghost use Rattle.tables.specs.Layout.{rows, table_words};
ghost use Rattle.tables.specs.Replies.{reply};
ghost use Rattle.tables.specs.Table.{row_passes, good_rows, good_agent, good_table};
ghost use Rattle.tables.specs.Calls.{Checked};

use crate::climbing::row_climbs;
use crate::layout::{
    MOST_AGENTS, MOST_ROWS, ROWS_AT, STARTS_AT, TABLE_WORDS, agent_count, count_place, row_count,
    row_place, start_place,
};
use crate::replies::Refusal;
use crate::rows::row_reply_at;
use crate::words::all_zero;

// Whether row i of agent a, one of its c rows, is within the rules.
#[tactic(auto, using(crate::proofs::Refusals::ok_is_0, std::proofs::lemmas::Bool::Decides::nat_tests))]
fn row_is_good(table: &[u32], a: usize, i: u32, c: u32) -> bool
    requires { (table_words ≤ length table.now) × (a < 16) × (c ≡ rows table.now a) × (c ≤ 32) × (i < c) }
    ensures { result ≡ row_passes table.now a i }
{
    row_reply_at(table, a, i, c).is_ok() && row_climbs(table, a, i as usize, c as usize)
}

// Whether each row of agent a is within the rules.
fn rows_are_good(table: &[u32], a: usize, c: u32) -> bool
    requires { (table_words ≤ length table.now) × (a < 16) × (c ≡ rows table.now a) × (c ≤ 32) }
    ensures { result ≡ good_rows table.now a }
{
    (0..c).all(|i| row_is_good(table, a, i, c))
}

// Whether agent a has 1 to 32 rows, each within the rules, and 0 in the places past them.
#[tactic(auto, using(std::proofs::lemmas::Bool::Decides::nat_tests), unfolding(crate::specs::Basics::every, crate::specs::Table::good_agent))]
fn agent_is_good(table: &[u32], a: usize) -> bool
    requires { (table_words ≤ length table.now) × (a < 16) }
    ensures { result ≡ good_agent table.now a }
{
    let c = row_count(table, a);
    1 <= c
        && c <= MOST_ROWS as u32
        && rows_are_good(table, a, c)
        && all_zero(table, row_place(a, c as usize), row_place(a + 1, 0))
}

// Whether each of the first n agents is good.
fn agents_are_good(table: &[u32], n: usize) -> bool
    requires { (table_words ≤ length table.now) × (n ≤ 16) }
    ensures { result ≡ all_below n (good_agent table.now) }
{
    (0..n).all(|a| agent_is_good(table, a))
}

// Whether the table's words break no rule.
#[tactic(auto, using(std::proofs::lemmas::Bool::Decides::nat_tests))]
pub fn table_is_good(table: &[u32]) -> bool
    requires { length table.now ≡ table_words }
    ensures { result ≡ good_table table.now }
{
    let n = agent_count(table) as usize;
    1 <= n
        && n <= MOST_AGENTS
        && agents_are_good(table, n)
        && all_zero(table, count_place(n), STARTS_AT)
        && all_zero(table, start_place(n), ROWS_AT)
        && all_zero(table, row_place(n, 0), TABLE_WORDS)
}

// Refused with 1 or 8. Words past the table's are not looked at.
#[tactic(auto, using(std::proofs::lemmas::Bool::Decides::nat_tests), unfolding(crate::specs::Basics::first, crate::specs::Calls::check_reply, crate::specs::Replies::reply, crate::specs::Replies::number_of))]
pub fn check(table: &[u32]) -> Result<(), Refusal>
    ensures { Checked table.now (reply result) }
{
    if table.len() < TABLE_WORDS {
        return Err(Refusal::BufferTooShort);
    }
    if !table_is_good(&table[..TABLE_WORDS]) {
        return Err(Refusal::BadTable);
    }
    Ok(())
}
