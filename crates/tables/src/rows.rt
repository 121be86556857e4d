// A row of a table: its words taken apart, its family, and its refusal.
ghost use Rattle.std.specs.Prelude.{◌≡◌, ◌≤◌, ◌<◌, length};
ghost use Rattle.tables.specs.Layout.{rows, row, row_in, row_from, table_words};
ghost use Rattle.tables.specs.Family.{family_of};
ghost use Rattle.tables.specs.Replies.{reply};
ghost use Rattle.tables.specs.Rows.{well_formed, row_reply};
ghost use Rattle.tables.specs.Table.{row_reply_at};

use crate::layout::{LAST_TIME, row_place};
use crate::replies::Refusal;
use crate::{Family, Row, RowWords};

// The ops that are told apart within a family. An op is its number in 01's table, of which the definitions speak (`Row.op`, `names_of`, `goes_on_to`): an enum of ops
// would be a second name for each, and a row that is not well formed has an op that is none of them.
pub const SET: u32 = 0x00;

pub const ADD: u32 = 0x01;

pub const SUB: u32 = 0x02;

pub const ONES: u32 = 0x03;
// Where a SKIP goes on depends on a register, a JUMP always goes on at p+1+n.
pub const SKIP: u32 = 0x10;

pub const JUMP: u32 = 0x11;

pub const SEND: u32 = 0x20;

// The family that an op is in.
impl From<u32> for Family {
    ghost from_gives = { λ op f. f ≡ family_of op };

    #[tactic(auto, using(crate::proofs::Tests::firsts), unfolding(crate::specs::Family::family_of))]
    fn from(op: u32) -> Family {
        match op {
            0x00..=0x04 => Family::Local,
            0x10..=0x11 => Family::Move,
            0x20 => Family::Send,
            0x30 => Family::Receive,
            _ => Family::Unknown,
        }
    }
}

impl From<[u32; 4]> for RowWords {
    ghost from_gives = { λ ws w. row_from w ≡ row_in ws };

    fn from(words: [u32; 4]) -> RowWords {
        let [code, k, early, late] = words;
        RowWords {
            code,
            k,
            early,
            late,
        }
    }
}

impl From<RowWords> for Row {
    ghost from_gives = { λ w r. r ≡ row_from w };

    #[tactic(auto, unfolding(crate::specs::Layout::row_of))]
    fn from(words: RowWords) -> Row {
        Row {
            op: words.code / 16777216,
            x: words.code / 65536 % 256,
            y: words.code / 256 % 256,
            n: words.code % 256,
            k: words.k,
            early: words.early,
            late: words.late,
        }
    }
}

// The words of row i of agent a.
fn row_words(table: &[u32], a: usize, i: usize) -> RowWords
    requires { (table_words ≤ length table.now) × (a < 16) × (i < 32) }
    ensures { row_from result ≡ row table.now a i }
{
    let p = row_place(a, i);
    RowWords {
        code: table[p],
        k: table[p + 1],
        early: table[p + 2],
        late: table[p + 3],
    }
}

// Row i of agent a.
pub fn row_at(table: &[u32], a: usize, i: usize) -> Row
    requires { (table_words ≤ length table.now) × (a < 16) × (i < 32) }
    ensures { result ≡ row table.now a i }
{
    Row::from(row_words(table, a, i))
}

// The bits of a code word, below the op, that must be 0, by the fields that its row names: x and y are at most 3, n is at most 31, and those not named are 0.
const ALL_BUT_X: u32 = 0x00FC_FFFF;

const ALL_BUT_X_Y: u32 = 0x00FC_FCFF;

const ALL_BUT_X_N: u32 = 0x00FC_FFE0;

const ALL_BUT_N: u32 = 0x00FF_FFE0;

// Whether the op is known, the registers are 0 to 3, n is 0 to 31, and the fields that are not named are 0.
fn is_well_formed(words: RowWords) -> bool
    ensures { result ≡ well_formed (row_from words) }
{
    let code = words.code;
    let op = code / 16777216;
    match Family::from(op) {
        Family::Local => {
            if op == SET {
                code & ALL_BUT_X == 0
            } else {
                code & ALL_BUT_X_Y == 0 && words.k == 0
            }
        }
        Family::Move => {
            if op == SKIP {
                code & ALL_BUT_X_N == 0 && words.k == 0
            } else {
                code & ALL_BUT_N == 0 && words.k == 0
            }
        }
        Family::Send => code & ALL_BUT_X == 0,
        Family::Receive => code & ALL_BUT_X_N == 0,
        Family::Unknown => false,
    }
}

// A row's refusal, 4 to 6, if any: the row of these words at place i of an agent of c rows.
#[tactic(auto, using(std::proofs::lemmas::Bool::Decides::nat_tests), unfolding(crate::specs::Basics::first, crate::specs::Layout::row_of, crate::specs::Replies::reply, crate::specs::Replies::number_of, crate::specs::Rows::row_reply))]
pub fn row_reply(words: RowWords, i: u32, c: u32) -> Result<(), Refusal>
    requires { i < c }
    ensures { reply result ≡ row_reply (row_from words) i c }
{
    if !is_well_formed(words) {
        return Err(Refusal::BadField);
    }
    if c - i - 1 < words.code % 256 {
        return Err(Refusal::BadTarget);
    }
    if words.late <= words.early || LAST_TIME < words.late {
        return Err(Refusal::BadWindow);
    }
    Ok(())
}

// The same of row i of agent a, in the words of a table.
#[tactic(auto, unfolding(crate::specs::Table::row_reply_at))]
pub fn row_reply_at(table: &[u32], a: usize, i: u32, c: u32) -> Result<(), Refusal>
    requires { (table_words ≤ length table.now) × (a < 16) × (c ≡ rows table.now a) × (c ≤ 32) × (i < c) }
    ensures { reply result ≡ row_reply_at table.now a i }
{
    row_reply(row_words(table, a, i as usize), i, c)
}
