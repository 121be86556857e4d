// Hexadecimal digits of a text, and the numbers that they stand for.
ghost use Rattle.std.specs.Prelude.{◌≡◌, true, ◌+◌, ◌≤◌, ◌<◌, length, take, drop};
ghost use Rattle.tables.specs.Lines as Lines;
ghost use Rattle.tables.specs.Heads.{digits_at, eight_bytes};

// The number that an upper-case hexadecimal digit stands for, 16 for any other byte. An Option would be no plainer: the definition hex_digit gives 16,
// and `are_digits` runs in vector registers by it: the 10 is added to the byte, as after the conversion a line costs it twice the instructions.
#[tactic(auto, using(crate::proofs::Tests::firsts), unfolding(crate::specs::Lines::hex_digit))]
pub fn digit(b: u8) -> u32
    ensures { result ≡ Lines.hex_digit b }
{
    match b {
        b'0'..=b'9' => u32::from(b - b'0'),
        b'A'..=b'F' => u32::from(b - b'A' + 10),
        _ => 16,
    }
}

// The number that a digit stands for, without a branch.
#[tactic(auto, using(crate::proofs::Lines::hex_value))]
fn value(b: u8) -> u32
    requires { Lines.hex_digit b < 16 }
    ensures { result ≡ Lines.hex_digit b }
{
    let c = u32::from(b);
    c % 16 + 9 * (c / 64)
}

// The number in k digits.
pub fn field(text: &[u8], at: usize, k: usize) -> u32
    requires { (at + k ≤ length text.now) × (k ≤ 8) × (Lines.all_hex (take k (drop at text.now)) ≡ true) }
    ensures { result ≡ Lines.field text.now at k }
{
    let mut v = 0;
    for b in &text[at..at + k] {
        v = 16 * v + value(*b);
    }
    v
}

// Eight bytes as a number, the first the highest.
fn eight(text: &[u8], p: usize) -> u64
    requires { p + 8 ≤ length text.now }
    ensures { result ≡ eight_bytes text.now p }
{
    u64::from_be_bytes([
        text[p],
        text[p + 1],
        text[p + 2],
        text[p + 3],
        text[p + 4],
        text[p + 5],
        text[p + 6],
        text[p + 7],
    ])
}

// The word in the eight digits from digit i of the line at this place. All eight are decoded at once: each byte to its digit, then the digits are
// moved together in pairs.
pub fn word(text: &[u8], at: usize, i: usize) -> u32
    requires { (at ≤ length text.now) × (digits_at 36 text.now at ≡ true) × (i + 8 ≤ 36) }
    ensures { result ≡ Lines.field (drop at text.now) i 8 }
{
    let x = eight(text, at + i);
    let digits = (x & 0x0F0F_0F0F_0F0F_0F0F) + 9 * ((x & 0x4040_4040_4040_4040) / 64);
    let bytes = (digits + digits / 16) & 0x00FF_00FF_00FF_00FF;
    let pairs = (bytes + bytes / 256) & 0x0000_FFFF_0000_FFFF;
    ((pairs + pairs / 65536) % 4294967296) as u32
}
