// Bytes of a slice: read where there may be none, cleared, written, moved, and a part replaced by another that may be
// longer or shorter. A station or a node that gives way to another does so by one `splice`; counts, and what rules 8 to
// 10 change in a leaf, are stored in place. No slice is copied whole. What moves within a slice goes by way of a chunk,
// so that the compiler makes one wide move of it.
#![tactic(auto)]

ghost use Rattle.std.specs.Prelude.{◌≡◌, [], ◌+◌, ◌-◌, ◌≤◌, length, get_or, drop, replicate};
ghost use Rattle.buffer.specs.Splice.{written, spliced, chunk, CanShift};

// The byte at i, 0 past the end: whoever reads so has no bound to show.
pub fn byte_at(s: &[u8], i: usize) -> u8
    ensures { result ≡ get_or s.now i 0 }
{
    s.get(i).copied().unwrap_or(0)
}

// n zeros from `at` on.
pub fn clear(s: &mut [u8], at: usize, n: usize)
    requires { at + n ≤ length s.old }
    ensures { s.new ≡ written s.old at (replicate n 0) n }
{
    s[at..at + n].fill(0);
}

// All of `new` from `at` on.
pub fn write_at(s: &mut [u8], at: usize, new: &[u8])
    requires { at + length new.now ≤ length s.old }
    ensures { s.new ≡ written s.old at new.now (length new.now) }
{
    s[at..at + new.len()].copy_from_slice(new);
}

// The most bytes that are moved at once: more than a hall has.
const CHUNK: usize = 12288;

// The n bytes from `from` on, moved to any offset: all are read before one is written, since the two ranges may
// overlap. The compiler leaves the chunk out and makes one wide move of it.
fn move_chunk(s: &mut [u8], from: usize, to: usize, n: usize)
    requires { (n ≤ chunk) × (from + n ≤ length s.old) × (to + n ≤ length s.old) }
    ensures { s.new ≡ written s.old to (drop from s.old) n }
{
    let mut chunk = [0; CHUNK];
    chunk[..n].copy_from_slice(&s[from..from + n]);
    s[to..to + n].copy_from_slice(&chunk[..n]);
}

// The same for any number of bytes. By `copy_within` alone a splice takes 1.1 to 2 times as long: its loop goes byte by
// byte where the ranges overlap closely.
fn move_bytes(s: &mut [u8], from: usize, to: usize, n: usize)
    requires { (from + n ≤ length s.old) × (to + n ≤ length s.old) }
    ensures { s.new ≡ written s.old to (drop from s.old) n }
{
    if n <= CHUNK {
        move_chunk(s, from, to, n);
    } else {
        s.copy_within(from..from + n, to);
    }
}

// The bytes b..used, moved so that they begin at e, with zeros behind them.
fn shift(s: &mut [u8], b: usize, e: usize, used: usize)
    requires { CanShift s.old b e used }
    ensures { s.new ≡ spliced s.old e b [] }
{
    if e == b {
        return;
    }
    move_bytes(s, b, e, used - b);
    if e < b {
        clear(s, e + (used - b), b - e);
    }
}

// The bytes a..b give way to `new`; the bytes b..used follow it, and zeros follow those. Where `new` is as long as
// what it replaces, the rest is not touched. The answer is how many bytes are used now.
pub fn splice(s: &mut [u8], a: usize, b: usize, used: usize, new: &[u8]) -> usize
    requires { (a ≤ b) × CanShift s.old b (a + length new.now) used }
    ensures value { result ≡ a + length new.now + (used - b) }
    ensures s_after { s.new ≡ spliced s.old a b new.now }
{
    let e = a + new.len();
    shift(s, b, e, used);
    write_at(s, a, new);
    e + (used - b)
}
