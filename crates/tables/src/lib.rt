// Tables of rows: their words, the rules of a row, the check of a table, and the lines of a text.
// Everything above relies only on what this crate promises.
#![tactic(auto)]

pub mod replies; // replies.rt: why a call refuses, and the numbers of the replies
pub mod layout; // layout.rt: where each thing stands in the words of a table
pub mod words; // words.rt: words that are 0, or taken from others; an array of one value
pub mod rows; // rows.rt: a row of a table, its family, and replies 4 to 6
pub mod climbing; // climbing.rt: reply 7, a row that goes on to an earlier window
pub mod checking; // checking.rt: the check of a table's words, reply 8
pub mod hex; // hex.rt: hexadecimal digits, and the numbers that they stand for
pub mod faults; // faults.rt: what is wrong with a line
pub mod frames; // frames.rt: the lines of a table's text

// A row's four words, as they stand in a table and in a line of its text.
#[derive(Clone, Copy)]
pub struct RowWords {
    pub code: u32,
    pub k: u32,
    pub early: u32,
    pub late: u32,
}

// A row, taken apart.
#[derive(Clone, Copy)]
pub struct Row {
    pub op: u32,
    pub x: u32,
    pub y: u32,
    pub n: u32,
    pub k: u32,
    pub early: u32,
    pub late: u32,
}

// The family that an op is in; Unknown is one, as in the definition `family_of`.
#[derive(Clone, Copy)]
pub enum Family {
    Local,
    Move,
    Send,
    Receive,
    Unknown,
}
