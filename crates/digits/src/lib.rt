// Text of upper-case hexadecimal digits, put into a lent buffer from a place on. (The digits that are read are in tables/src/hex.rt.)
#![tactic(auto)]

ghost use Rattle.std.specs.Prelude.{◌≡◌, ◌+◌, ◌≤◌, ◌<◌, length};
ghost use Rattle.std.proofs.lemmas.List.Edits.{sets};
ghost use Rattle.digits.specs.Hex.{hex_char, hex_digits, hex_words};
ghost use Rattle.digits.specs.Eight.{eight_of};

// The digits of a byte and of a word.
pub const BYTE_DIGITS: usize = 2;

const WORD_DIGITS: usize = 8;

// The upper-case hexadecimal digit of a number below 16. (A look-up: char::from_digit gives lower case.)
fn hex_char(d: u32) -> u8
    requires { d < 16 }
    ensures { result ≡ hex_char d }
{
    b"0123456789ABCDEF"[d as usize]
}

// The k lowest digits of m, the highest first; by their places, since over `iter_mut().rev()` a proof loses which is put where.
pub fn put_hex(out: &mut [u8], at: usize, k: usize, m: u32)
    requires { at + k ≤ length out.old }
    ensures { out.new ≡ sets out.old at (hex_digits k m) }
{
    let mut v = m;
    for i in (0..k).rev() {
        out[at + i] = hex_char(v % 16);
        v /= 16;
    }
}

// The eight bytes of a number, the lowest first: together they are one store.
fn put_eight(out: &mut [u8], at: usize, x: u64)
    requires { at + 8 ≤ length out.old }
    ensures { out.new ≡ sets out.old at (eight_of x) }
{
    out[at..at + 8].copy_from_slice(&x.to_le_bytes());
}

// The eight digits of a word, all at once: its halves are moved apart, then their bytes, then the digits, each to a byte of its own, the first to the lowest.
// Each byte becomes a character: a digit of 10 or more reaches 16 by 6, which tells the letters, and 7 characters lie between 9 and A.
pub fn put_word(out: &mut [u8], at: usize, w: u32)
    requires { at + 8 ≤ length out.old }
    ensures { out.new ≡ sets out.old at (hex_digits 8 w) }
{
    let x = w as u64;
    let halves = x / 65536 + 4294967296 * (x % 65536);
    let bytes = ((halves / 256) & 0x0000_00FF_0000_00FF) + 65536 * (halves & 0x0000_00FF_0000_00FF);
    let digits = ((bytes / 16) & 0x000F_000F_000F_000F) + 256 * (bytes & 0x000F_000F_000F_000F);
    let letters = ((digits + 0x0606_0606_0606_0606) / 16) & 0x0101_0101_0101_0101;
    put_eight(out, at, digits + 0x3030_3030_3030_3030 + 7 * letters);
}

// Four words, one after the other: registers, or a row's. They are passed as a copy, so that all are read before the first digit is put and two of them become digits at once;
// a part that is lent would be read word by word between the stores.
pub fn put_four(out: &mut [u8], at: usize, words: [u32; 4])
    requires { at + 32 ≤ length out.old }
    ensures { out.new ≡ sets out.old at (hex_words words) }
{
    for (i, w) in words.iter().enumerate() {
        put_word(out, at + WORD_DIGITS * i, *w);
    }
}
