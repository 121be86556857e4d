// Lent words: whether they are 0, and taken from others; an array of one value.
ghost use Rattle.std.specs.Prelude.{ℕ, ◌≡◌, ◌≤◌, ◌<◌, length, replicate, get_or};
ghost use Rattle.tables.specs.Basics.{zero_from};

// Whether the words from i up to j are 0. With `&` each is looked at: a loop without an early exit runs in vector registers, as `all` does not.
pub fn all_zero(ws: &[u32], i: usize, j: usize) -> bool
    requires { (i ≤ j) × (j ≤ length ws.now) }
    ensures { result ≡ zero_from ws.now i j }
{
    ws[i..j].iter().fold(true, |good, w| good & (*w == 0))
}

// Words of the same number take the place of others. `copy_from_slice` calls memmove where the two could overlap, and the archive takes memcpy and
// memset alone (include/tannoplex.h); `to.iter_mut().zip(from)` is made a second loop that goes word by word.
pub fn copy(from: &[u32], to: &mut [u32])
    requires { length to.old ≡ length from.now }
    ensures { to.new ≡ from.now }
{
    for (i, word) in from.iter().enumerate() {
        to[i] = *word;
    }
}

// An array of one value. A caller is told its length and each of its words, and not the list: its goals are not to spell out thousands of words.
pub fn filled<T: Copy, const N: usize>(value: T) -> [T; N]
    ensures len { length result ≡ N }
    ensures each { (k : ℕ) (d : T) → k < N → get_or result k d ≡ value }
{
    [value; N]
}
