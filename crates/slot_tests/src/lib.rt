// Whether a slot is laid out as an entry's, or as a free one: lengths, and zero bytes past the lengths. An entry's mark is not looked at here.
#![tactic(auto)]

ghost use Rattle.std.specs.Prelude.{◌≡◌, ◌+◌, ◌≤◌, length, take};
ghost use Rattle.runs.specs.Runs.{part, padded, Decides};
ghost use Rattle.slots.specs.Layout.{HasSlot, slot, count_of, IsEntry, IsFree, head_of};

use answers::{MAX_KEY, MAX_VALUE};
use slots::Head;

// Whether the room of `most` bytes at `a` holds `n` bytes and then zeros.
fn is_padded(s: &[u8], a: usize, most: usize, n: usize) -> bool
    requires in_bounds { a + most ≤ length s.now }
    requires most_bound { most ≤ 64 }
    requires n_bound { n ≤ most }
    ensures { Decides result (part a most s.now ≡ padded most (take n (part a most s.now))) }
{
    runs::is_zero(s, a + n, most - n)
}

// Whether slot `i`, whose head is `h`, is laid out as an entry's.
pub fn is_entry(s: &[u8], i: usize, h: Head) -> bool
    requires has_slot { HasSlot (length s.now) i }
    requires h_value { h ≡ head_of (slot s.now i) (count_of s.now i) }
    ensures { Decides result (IsEntry s.now i) }
{
    if !h.live || MAX_KEY < h.key_length || MAX_VALUE < h.value_length {
        return false;
    }
    is_padded(s, slots::key_at(s.len(), i), MAX_KEY, h.key_length)
        && is_padded(s, slots::value_at(s.len(), i), MAX_VALUE, h.value_length)
}

// Whether slot `i` is laid out as a free slot.
pub fn is_free(s: &[u8], i: usize) -> bool
    requires { HasSlot (length s.now) i }
    ensures { Decides result (IsFree s.now i) }
{
    let h = slots::head_of(s, i);
    if h.live || h.red || h.right != 0 || h.key_length != 0 || h.value_length != 0 || h.count != 0 {
        return false;
    }
    if !runs::is_zero(s, slots::key_at(s.len(), i), MAX_KEY)
        || !runs::is_zero(s, slots::value_at(s.len(), i), MAX_VALUE)
    {
        return false;
    }
    runs::is_zero(s, slots::digest_at(s.len(), i), 32)
}
