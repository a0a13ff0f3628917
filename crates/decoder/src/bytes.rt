// The bytes of a string, four to a word, as they come.
ghost use Rattle.std.specs.Prelude.{◌≡◌, true, false, Some, ℕ, ◌+◌, ◌*◌, ◌/◌, ◌%◌, ◌≤◌, ◌<◌, length};
ghost use Rattle.decoder.specs.Fours.{joined, PutByte, PushByte};
ghost use Rattle.decoder.specs.Plain.{Plain, Quad, word, Stretch};

// A word with its n-th byte, above those before it. What stood above is cut off.
fn joined(n: usize, word: u32, b: u32) -> u32
    requires { b < 256 }
    ensures { result ≡ joined n word b }
{
    match n % 4 {
        0 => b,
        1 => word % 256 + b * 256,
        2 => word % 65536 + b * 65536,
        _ => word % 16777216 + b * 16777216,
    }
}

// The n-th byte, in front of `room`.
fn put_byte(room: &mut [u32], n: usize, b: u32) -> Option<usize>
    requires { b < 256 }
    ensures { PutByte room.old n b result room.new }
{
    let k = n / 4;
    if room.len() <= k {
        return None;
    }
    room[k] = joined(n, room[k], b);
    Some(n + 1)
}

// One byte more, behind the place of the first word, which is at `at`. What doesn't fit is not written.
pub(crate) fn push_byte(
    values: &mut [u32],
    at: usize,
    count: Option<usize>,
    b: u32,
) -> Option<usize>
    requires { b < 256 }
    ensures { PushByte at b count values.old result values.new }
{
    let n = count?;
    if values.len() <= at {
        return None;
    }
    let start = at + 1;
    put_byte(&mut values[start..], n, b)
}

// Where a stretch of plain bytes ends, and how many bytes there are then.
#[derive(Clone, Copy)]
pub(crate) struct Filled {
    pub count: Option<usize>,
    pub next: usize,
}

// A byte that stands for itself: no backslash.
pub(crate) fn plain(b: u8) -> bool
    ensures { (result ≡ true → Plain b) × (result ≡ false → b ≡ 92) }
{
    b != 92
}

fn all_plain(a: u8, b: u8, c: u8, e: u8) -> bool
    ensures { result ≡ true → Quad a b c e }
{
    plain(a) && plain(b) && plain(c) && plain(e)
}

// Four bytes as a word, the first lowest.
fn word(a: u8, b: u8, c: u8, e: u8) -> u32
    ensures { result ≡ word a b c e }
{
    a as u32 + 256 * (b as u32 + 256 * (c as u32 + 256 * (e as u32)))
}

// The bytes of `w` from byte `i` on, as whole words behind the `n` bytes so far, as long as all four of a word are plain:
// how many words, at most `limit`.
fn put_words(values: &mut [u32], at: usize, n: usize, w: &[u8], i: usize, limit: usize) -> usize
    requires { (n % 4 ≡ 0) × (at + 1 + n / 4 + limit ≤ length values.old) × (i + 4 * limit ≤ length w.now) }
    ensures { (result ≤ limit) × ((base : ℕ) → Stretch base w.now i (i + 4 * result) at (Some n) values.old (Some (n + 4 * result)) values.new) }
{
    let first = at + 1 + n / 4;
    for t in 0..limit {
        let j = i + 4 * t;
        let a = w[j];
        let b = w[j + 1];
        let c = w[j + 2];
        let e = w[j + 3];
        if !all_plain(a, b, c, e) {
            return t;
        }
        values[first + t] = word(a, b, c, e);
    }
    limit
}

// Plain bytes from byte `i` of `w` on, as many as fill whole words, behind the place of the first word, which is at `at`.
// Where the bytes so far fill no whole words, and where there is no room, none.
pub(crate) fn push_plain(
    values: &mut [u32],
    at: usize,
    count: Option<usize>,
    w: &[u8],
    i: usize,
) -> Filled
    requires { i ≤ length w.now }
    ensures { (base : ℕ) → Stretch base w.now i result.next at count values.old result.count values.new }
{
    let Some(n) = count else {
        return Filled { count, next: i };
    };
    if n % 4 != 0 || values.len() <= at {
        return Filled { count, next: i };
    }
    let first = at + 1 + n / 4;
    if values.len() <= first {
        return Filled { count, next: i };
    }
    let limit = (values.len() - first).min((w.len() - i) / 4);
    let t = put_words(values, at, n, w, i, limit);
    Filled {
        count: Some(n + 4 * t),
        next: i + 4 * t,
    }
}
