// Rule 7: a row's early and late are each not above those of every row that it can go on to.
ghost use Rattle.std.specs.Prelude.{◌≡◌, ◌≤◌, ◌<◌, length};
ghost use Rattle.tables.specs.Layout.{rows, table_words};
ghost use Rattle.tables.specs.Table.{row_reply_at, climbs_to, climbs};

use crate::rows::{JUMP, row_at};

// Whether the window of row i of agent a is not above that of its row j. Row c is the end, which has no window.
#[tactic(auto, using(std::proofs::lemmas::Bool::Decides::nat_tests), unfolding(crate::specs::Table::climbs_to, crate::specs::Rows::not_above))]
fn climbs_to(table: &[u32], a: usize, i: usize, j: usize, c: usize) -> bool
    requires { (table_words ≤ length table.now) × (a < 16) × (c ≡ rows table.now a) × (c ≤ 32) × (i < 32) }
    ensures { result ≡ climbs_to table.now a i j }
{
    if c <= j {
        return true;
    }
    let r = row_at(table, a, i);
    let next = row_at(table, a, j);
    r.early <= next.early && r.late <= next.late
}

// Whether row i of agent a, one of its c rows, which has passed 4 to 6, goes on to no earlier window. A row that is no SKIP, JUMP or RECV has n 0.
pub fn row_climbs(table: &[u32], a: usize, i: usize, c: usize) -> bool
    requires { (table_words ≤ length table.now) × (a < 16) × (c ≡ rows table.now a) × (c ≤ 32) × (i < c) × (row_reply_at table.now a i ≡ 0) }
    ensures { result ≡ climbs table.now a i }
{
    let r = row_at(table, a, i);
    let n = r.n as usize;
    if n == 0 {
        return climbs_to(table, a, i, i + 1, c);
    }
    climbs_to(table, a, i, i + 1 + n, c) && (r.op == JUMP || climbs_to(table, a, i, i + 1, c))
}
