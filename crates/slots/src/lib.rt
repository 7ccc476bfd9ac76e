// The bytes of a store (document 01, "Store layout"): the only crate that knows where a bit lies.
#![tactic(auto)]

ghost use Rattle.std.specs.Prelude.{◌≡◌, ◌+◌, ◌≤◌, ◌<◌, length, take, true};
ghost use Rattle.runs.specs.Bits.{bit};
ghost use Rattle.slots.specs.Limits.{max_capacity, max_key, max_value, store_length};
ghost use Rattle.slots.specs.Layout.{HasSlot, head_at, key_at, value_at, digest_at, header, HeaderFits, slot, count_of, digest_of, key_of, value_of, node_slot, head_of, HeadFits};
ghost use Rattle.slots.specs.Setters.{set_header, set_slot, set_slot_as, set_count, set_digest, set_root, with_head, set_red, set_left, set_right, set_value, move_entry, clear_slot};

use answers::{MAX_KEY, MAX_VALUE};

// The edition that the header names.
pub const EDITION: usize = 1;

// Bytes in the header and in a slot.
const HEADER_LENGTH: usize = 8;

const SLOT_LENGTH: usize = 150;

// The header's fields.
#[derive(Clone, Copy, Debug, PartialEq, Eq)]
pub struct Header {
    pub edition: usize,
    pub capacity: usize,
    pub live: usize,
    pub root: usize,
    pub free: usize,
    pub zero: usize,
}

// The head of a slot.
#[derive(Clone, Copy, Debug, PartialEq, Eq)]
pub struct Head {
    pub live: bool,
    pub red: bool,
    pub left: usize,
    pub right: usize,
    pub key_length: usize,
    pub value_length: usize,
    pub count: usize,
}

// The length of a store of this capacity.
pub fn store_length(capacity: usize) -> usize
    requires { capacity ≤ max_capacity }
    ensures { result ≡ store_length capacity }
{
    HEADER_LENGTH + SLOT_LENGTH * capacity
}

// A slot goes by its number, as the links of a tree do: they outlive the writes to other slots, which a struct of the lent store could not.
// ---- where the parts of slot `i` lie in a store of `n` bytes

fn head_at(n: usize, i: usize) -> usize
    requires { HasSlot n i }
    ensures { (result ≡ head_at n i) × (result + 150 ≤ n) }
{
    HEADER_LENGTH + SLOT_LENGTH * (i - 1)
}

pub fn key_at(n: usize, i: usize) -> usize
    requires { HasSlot n i }
    ensures { (result ≡ key_at n i) × (result + max_key ≤ n) }
{
    head_at(n, i) + 6
}

pub fn value_at(n: usize, i: usize) -> usize
    requires { HasSlot n i }
    ensures { (result ≡ value_at n i) × (result + max_value ≤ n) }
{
    head_at(n, i) + 54
}

pub fn digest_at(n: usize, i: usize) -> usize
    requires { HasSlot n i }
    ensures { (result ≡ digest_at n i) × (result + 32 ≤ n) }
{
    head_at(n, i) + 118
}

// ---- the header

pub fn header_of(s: &[u8]) -> Header
    requires { 8 ≤ length s.now }
    ensures { result ≡ header s.now }
{
    let h = runs::eight(s);
    Header {
        edition: (h / 0x1000_0000_0000_0000 % 0x10) as usize,
        capacity: (h / 0x2_0000_0000_0000 % 0x800) as usize,
        live: (h / 0x40_0000_0000 % 0x800) as usize,
        root: (h / 0x800_0000 % 0x800) as usize,
        free: (h / 0x1_0000 % 0x800) as usize,
        zero: (h % 0x1_0000) as usize,
    }
}

pub fn set_header(s: &mut [u8], h: Header)
    requires in_bounds { 8 ≤ length s.old }
    requires header_fits { HeaderFits h }
    ensures { s.new ≡ set_header s.old h }
{
    runs::put_eight(
        s,
        h.edition as u64 * 0x1000_0000_0000_0000
            + h.capacity as u64 * 0x2_0000_0000_0000
            + h.live as u64 * 0x40_0000_0000
            + h.root as u64 * 0x800_0000
            + h.free as u64 * 0x1_0000
            + h.zero as u64,
    );
}

pub fn set_root(s: &mut [u8], x: usize)
    requires in_bounds { 8 ≤ length s.old }
    requires x_bound { x < 2048 }
    ensures { s.new ≡ set_root s.old x }
{
    let h = header_of(s);
    set_header(s, Header { root: x, ..h });
}

// ---- heads: one reader and one writer for each field, by the names that callers and the lens laws have

pub fn head_of(s: &[u8], i: usize) -> Head
    requires { HasSlot (length s.now) i }
    ensures { result ≡ head_of (slot s.now i) (count_of s.now i) }
{
    let a = head_at(s.len(), i);
    let h = runs::six(s, a);
    Head {
        live: h / 0x8000_0000_0000 % 2 == 1,
        red: h / 0x4000_0000_0000 % 2 == 1,
        left: (h / 0x8_0000_0000 % 0x800) as usize,
        right: (h / 0x100_0000 % 0x800) as usize,
        key_length: (h / 0x4_0000 % 0x40) as usize,
        value_length: (h / 0x800 % 0x80) as usize,
        count: (h % 0x800) as usize,
    }
}

// The head of slot `i` anew, count and all; its key, value and digest stay.
fn set_head(s: &mut [u8], i: usize, h: Head)
    requires has_slot { HasSlot (length s.old) i }
    requires head_fits { HeadFits h }
    ensures { s.new ≡ set_slot_as s.old i (with_head h (slot s.old i)) h.count }
{
    let a = head_at(s.len(), i);
    runs::put_six(
        s,
        a,
        u64::from(h.live) * 0x8000_0000_0000
            + u64::from(h.red) * 0x4000_0000_0000
            + h.left as u64 * 0x8_0000_0000
            + h.right as u64 * 0x100_0000
            + h.key_length as u64 * 0x4_0000
            + h.value_length as u64 * 0x800
            + h.count as u64,
    );
}

pub fn set_red(s: &mut [u8], i: usize, x: bool)
    requires { HasSlot (length s.old) i }
    ensures { s.new ≡ set_red s.old i x }
{
    let h = head_of(s, i);
    set_head(s, i, Head { red: x, ..h });
}

pub fn set_left(s: &mut [u8], i: usize, x: usize)
    requires has_slot { HasSlot (length s.old) i }
    requires x_bound { x < 2048 }
    ensures { s.new ≡ set_left s.old i x }
{
    let h = head_of(s, i);
    set_head(s, i, Head { left: x, ..h });
}

pub fn set_right(s: &mut [u8], i: usize, x: usize)
    requires has_slot { HasSlot (length s.old) i }
    requires x_bound { x < 2048 }
    ensures { s.new ≡ set_right s.old i x }
{
    let h = head_of(s, i);
    set_head(s, i, Head { right: x, ..h });
}

pub fn left(s: &[u8], i: usize) -> usize
    requires { HasSlot (length s.now) i }
    ensures { result ≡ (slot s.now i).left }
{
    head_of(s, i).left
}

pub fn right(s: &[u8], i: usize) -> usize
    requires { HasSlot (length s.now) i }
    ensures { result ≡ (slot s.now i).right }
{
    head_of(s, i).right
}

pub fn red(s: &[u8], i: usize) -> bool
    requires { HasSlot (length s.now) i }
    ensures { result ≡ (slot s.now i).red }
{
    head_of(s, i).red
}

// What the slot says of the number of entries in its subtree.
pub fn count(s: &[u8], i: usize) -> usize
    requires { HasSlot (length s.now) i }
    ensures { result ≡ count_of s.now i }
{
    head_of(s, i).count
}

pub fn set_count(s: &mut [u8], i: usize, x: usize)
    requires has_slot { HasSlot (length s.old) i }
    requires x_bound { x < 2048 }
    ensures { s.new ≡ set_count s.old i x }
{
    let h = head_of(s, i);
    set_head(s, i, Head { count: x, ..h });
}

// ---- keys, values, digests: each by its own name, over the same two lines

// The first `n` bytes of the key's room: the key, where `n` is its length.
pub fn key_part(s: &[u8], i: usize, n: usize) -> &[u8]
    requires has_slot { HasSlot (length s.now) i }
    requires n_le_max_key { n ≤ max_key }
    ensures { result.now ≡ take n (slot s.now i).key_room }
{
    let b = key_at(s.len(), i);
    &s[b..b + n]
}

pub fn value_part(s: &[u8], i: usize, n: usize) -> &[u8]
    requires has_slot { HasSlot (length s.now) i }
    requires n_le_max_value { n ≤ max_value }
    ensures { result.now ≡ take n (slot s.now i).value_room }
{
    let b = value_at(s.len(), i);
    &s[b..b + n]
}

pub fn key(s: &[u8], i: usize) -> &[u8]
    requires has_slot { HasSlot (length s.now) i }
    requires length_bound { (slot s.now i).key_length ≤ max_key }
    ensures { result.now ≡ key_of (slot s.now i) }
{
    let n = head_of(s, i).key_length;
    key_part(s, i, n)
}

pub fn value(s: &[u8], i: usize) -> &[u8]
    requires has_slot { HasSlot (length s.now) i }
    requires length_bound { (slot s.now i).value_length ≤ max_value }
    ensures { result.now ≡ value_of (slot s.now i) }
{
    let n = head_of(s, i).value_length;
    value_part(s, i, n)
}

pub fn digest(s: &[u8], i: usize) -> &[u8]
    requires { HasSlot (length s.now) i }
    ensures { result.now ≡ digest_of s.now i }
{
    let b = digest_at(s.len(), i);
    &s[b..b + 32]
}

pub fn set_digest(s: &mut [u8], i: usize, d: &[u8; 32])
    requires { HasSlot (length s.old) i }
    ensures { s.new ≡ set_digest s.old i d.now }
{
    let b = digest_at(s.len(), i);
    s[b..b + 32].copy_from_slice(d);
}

// A new entry in slot `i`: red, with no children; its mark stays.
pub fn put_entry(s: &mut [u8], i: usize, key: &[u8], value: &[u8])
    requires has_slot { HasSlot (length s.old) i }
    requires length_bounds { (length key.now ≤ max_key) × (length value.now ≤ max_value) }
    ensures { s.new ≡ set_slot s.old i (node_slot true key.now value.now 0 0) }
{
    let h = head_of(s, i);
    set_head(
        s,
        i,
        Head {
            live: true,
            red: true,
            left: 0,
            right: 0,
            key_length: key.len(),
            value_length: value.len(),
            count: h.count,
        },
    );
    let k = key_at(s.len(), i);
    runs::put_padded(s, k, MAX_KEY, key);
    let v = value_at(s.len(), i);
    runs::put_padded(s, v, MAX_VALUE, value);
}

pub fn set_value(s: &mut [u8], i: usize, value: &[u8])
    requires has_slot { HasSlot (length s.old) i }
    requires value_len_bound { length value.now ≤ max_value }
    ensures { s.new ≡ set_value s.old i value.now }
{
    let h = head_of(s, i);
    set_head(
        s,
        i,
        Head {
            value_length: value.len(),
            ..h
        },
    );
    let v = value_at(s.len(), i);
    runs::put_padded(s, v, MAX_VALUE, value);
}

// The key and the value of slot `j`, in slot `i` too.
pub fn move_entry(s: &mut [u8], i: usize, j: usize)
    requires has_slot { HasSlot (length s.old) i }
    requires has_other { HasSlot (length s.old) j }
    requires apart { i ≡ j → ⊥ }
    ensures { s.new ≡ move_entry s.old i j }
{
    let g = head_of(s, j);
    let h = head_of(s, i);
    set_head(
        s,
        i,
        Head {
            key_length: g.key_length,
            value_length: g.value_length,
            ..h
        },
    );
    let k = key_at(s.len(), i);
    let l = key_at(s.len(), j);
    runs::copy_within(s, k, l, MAX_KEY);
    let v = value_at(s.len(), i);
    let w = value_at(s.len(), j);
    runs::copy_within(s, v, w, MAX_VALUE);
}

// Frees slot `i`: all zero but for `left`, the next free slot.
pub fn clear_slot(s: &mut [u8], i: usize, next: usize)
    requires has_slot { HasSlot (length s.old) i }
    requires next_bound { next < 2048 }
    ensures { s.new ≡ clear_slot s.old i next }
{
    set_head(
        s,
        i,
        Head {
            live: false,
            red: false,
            left: next,
            right: 0,
            key_length: 0,
            value_length: 0,
            count: 0,
        },
    );
    let k = key_at(s.len(), i);
    runs::wipe(s, k, MAX_KEY);
    let v = value_at(s.len(), i);
    runs::wipe(s, v, MAX_VALUE);
    let d = digest_at(s.len(), i);
    runs::wipe(s, d, 32);
}
