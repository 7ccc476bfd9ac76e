// Byte strings as keys: their order, and where they part.
#![tactic(auto)]

ghost use Rattle.std.specs.Prelude.{◌≡◌, ◌+◌, ◌-◌, ◌/◌, ◌^◌, ◌<◌, ◌≤◌, length, ◌≢◌};
ghost use Rattle.key_order.specs.Order.{cmp, compared, is_same, is_below};
ghost use Rattle.key_order.specs.Words.{word};

use std::cmp::Ordering;

// How two keys compare, and how many of their leading bytes agree.
#[derive(Clone, Copy, Debug, PartialEq, Eq)]
pub struct Compared {
    pub order: Ordering,
    pub agree: usize,
}

// Eight bytes as one number, the first one highest.
fn eight(s: &[u8], i: usize) -> u64
    requires { i + 8 ≤ length s.now }
    ensures { result ≡ word s.now i 8 }
{
    u64::from_be_bytes([
        s[i],
        s[i + 1],
        s[i + 2],
        s[i + 3],
        s[i + 4],
        s[i + 5],
        s[i + 6],
        s[i + 7],
    ])
}

// In which byte two unlike numbers of eight bytes part, the first one highest.
fn place(p: u64, q: u64) -> usize
    requires { p ≢ q }
    ensures { (result < 8) × (p / 256 ^ (8 - result) ≡ q / 256 ^ (8 - result)) × (p / 256 ^ (7 - result) ≢ q / 256 ^ (7 - result)) }
{
    (u64::leading_zeros(p ^ q) / 8) as usize
}

// Byte by byte as unsigned numbers; a proper prefix is smaller. Eight bytes at a time, as long as both have them.
pub fn compare(a: &[u8], b: &[u8]) -> Compared
    ensures { result ≡ compared a.now b.now }
{
    let n = a.len().min(b.len());
    for k in 0..n / 8 {
        let p = eight(a, 8 * k);
        let q = eight(b, 8 * k);
        if p != q {
            return Compared {
                order: p.cmp(&q),
                agree: 8 * k + place(p, q),
            };
        }
    }
    for i in n / 8 * 8..n {
        if a[i] != b[i] {
            return Compared {
                order: a[i].cmp(&b[i]),
                agree: i,
            };
        }
    }
    Compared {
        order: a.len().cmp(&b.len()),
        agree: n,
    }
}

// ---- what callers ask of it, each by its name in docs/ARCHITECTURE: `order(a, b).is_eq()` at each caller would say less

// The order alone.
pub fn order(a: &[u8], b: &[u8]) -> Ordering
    ensures { result ≡ cmp a.now b.now }
{
    compare(a, b).order
}

// Whether the two are the same string.
pub fn same(a: &[u8], b: &[u8]) -> bool
    ensures { result ≡ is_same a.now b.now }
{
    order(a, b).is_eq()
}

// Whether the first comes before the second.
pub fn below(a: &[u8], b: &[u8]) -> bool
    ensures { result ≡ is_below a.now b.now }
{
    order(a, b).is_lt()
}
