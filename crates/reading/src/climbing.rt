// Reply 7, with the line of the first row that goes on to an earlier window: of a table whose rows have passed 4 to 6.
ghost use Rattle.std.specs.Prelude.{◌≡◌, ℕ, ◌+◌, ◌*◌, ◌^◌, ◌≤◌, ◌<◌, length};
ghost use Rattle.tables.specs.Layout.{agents, rows, table_words};
ghost use Rattle.tables.specs.Table.{row_reply_at};
ghost use Rattle.reading.specs.Reader.{told_of, rows_climb, table_climbs};

use crate::Refused;
use tables::climbing::row_climbs;
use tables::layout::{agent_count, row_count};
use tables::replies::Refusal;

// Reply 7 of the first of the c rows of agent a that goes back, the first row of which stands in line n; 32 lines can be counted from there.
fn rows_climb(table: &[u32], n: u32, a: usize, c: usize) -> Result<(), Refused>
    requires { (table_words ≤ length table.now) × (n + 32 < 2 ^ 32) × (a < 16) × (c ≡ rows table.now a) × (c ≤ 32) × ((i : ℕ) → i < c → row_reply_at table.now a i ≡ 0) }
    ensures { told_of result ≡ rows_climb table.now n a 0 c }
{
    for i in 0..c {
        if !row_climbs(table, a, i, c) {
            return Err(Refused {
                refusal: Refusal::WindowGoesBack,
                line: n + i as u32,
            });
        }
    }
    Ok(())
}

// Reply 7 of the first row of any agent that goes back, the first of which line n opens; the lines of 16 agents of 32 rows can be counted from there.
pub fn table_climbs(table: &[u32], n: u32) -> Result<(), Refused>
    requires { (length table.now ≡ table_words) × (n + 16 * 33 < 2 ^ 32) × (agents table.now ≤ 16) × ((a : ℕ) → a < agents table.now → rows table.now a ≤ 32) × ((a i : ℕ) → a < agents table.now → i < rows table.now a → row_reply_at table.now a i ≡ 0) }
    ensures { told_of result ≡ table_climbs table.now n }
{
    let m = agent_count(table) as usize;
    let mut line = n;
    for a in 0..m {
        let c = row_count(table, a);
        rows_climb(table, line + 1, a, c as usize)?;
        line += 1 + c;
    }
    Ok(())
}
