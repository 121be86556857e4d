// The words of a table: how many there are, and where each thing stands in them. Every function is lent the words as a slice, and not a type that says how many they are or that
// they are good: docs/STATEMENTS.md names the public ones, and a narrower argument would ask more of their callers; a private one is lent what a public one was. So it is with the words
// of a state.
// And each place and each word has a function of its own, by its own name, though some are alike.
ghost use Rattle.std.specs.Prelude.{◌≡◌, ◌≤◌, ◌<◌, length};
ghost use Rattle.tables.specs.Layout.{table_words, agents, rows, count_place, start_place, row_place};

pub const MOST_AGENTS: usize = 16;

pub const MOST_ROWS: usize = 32;

pub const REGISTERS: usize = 4;

pub const ROW_WORDS: usize = 4;
// Where the number of agents stands, before the row counts.
pub const AGENTS_AT: usize = 0;
// Where the starting registers begin, after the number of agents and the row counts.
pub const STARTS_AT: usize = 1 + MOST_AGENTS;
// Where the rows begin, after the starting registers.
pub const ROWS_AT: usize = STARTS_AT + REGISTERS * MOST_AGENTS;

pub const TABLE_WORDS: usize = ROWS_AT + ROW_WORDS * MOST_ROWS * MOST_AGENTS;
// The greatest late of a row, and so the greatest clock.
pub const LAST_TIME: u32 = 1000000;

// The number of agents.
pub fn agent_count(table: &[u32]) -> u32
    requires { table_words ≤ length table.now }
    ensures { result ≡ agents table.now }
{
    table[AGENTS_AT]
}

// Where the row count of agent a stands.
pub fn count_place(a: usize) -> usize
    requires { a ≤ 16 }
    ensures { result ≡ count_place a }
{
    1 + a
}

// The row count of agent a.
pub fn row_count(table: &[u32], a: usize) -> u32
    requires { (table_words ≤ length table.now) × (a < 16) }
    ensures { result ≡ rows table.now a }
{
    table[count_place(a)]
}

// Where the starting registers of agent a begin.
pub fn start_place(a: usize) -> usize
    requires { a ≤ 16 }
    ensures { result ≡ start_place a }
{
    STARTS_AT + REGISTERS * a
}

// Where row i of agent a begins.
pub fn row_place(a: usize, i: usize) -> usize
    requires { (a ≤ 16) × (i ≤ 32) }
    ensures { result ≡ row_place a i }
{
    ROWS_AT + ROW_WORDS * (MOST_ROWS * a + i)
}
