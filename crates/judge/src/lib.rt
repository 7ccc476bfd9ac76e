// Any bytes judged: whether they are a sound store (document 01, "A store is sound when").
//
// One walk over the tree, in order, and one over the free chain; each digest is worked out once, from the children's stored ones.
// No slot is marked: keys that rise strictly name a slot once, a chain that ends names a slot once, live bits keep the two apart,
// and the counts say that nothing is left over. Links that form a cycle break the order of keys at the first slot met again.
#![tactic(auto)]

ghost use Rattle.std.specs.Prelude.{◌≡◌, true, false, ◌≤◌, length};
ghost use Rattle.slots.specs.Layout.{HasSlot, Decides, count_in, header, slot, count_of, head_of, key_of};
ghost use Rattle.entries.specs.Digests.{LinksIn, linked_count};
ghost use Rattle.store.specs.Sound.{SoundIn, Sound};
ghost use Rattle.judge.specs.Rising.{Past};
ghost use Rattle.judge.specs.Steps.{Sized, HeaderOk, NodeOk, bound_of, Met, WalkSays, joined, HasChain};

use entries::{linked_count, subtree_digest};
use key_order::below;
use slots::{EDITION, Head, Header};

// A sound store has no longer way down: 2 to the height is at most the square of 1,025.
pub const MAX_HEIGHT: usize = 20;

// What a walk over a subtree finds: the last slot in order, how many entries are left, and how many black nodes a path has.
#[derive(Clone, Copy)]
pub struct Trail {
    pub last: usize,
    pub left: usize,
    pub blacks: usize,
}

fn header_ok(edition: usize, n: usize, h: Header) -> bool
    ensures { Decides result (HeaderOk edition n h) }
{
    if h.edition != edition || h.zero != 0 || h.capacity == 0 || 1024 < h.capacity {
        return false;
    }
    n == 8 + 150 * h.capacity && h.live <= h.capacity
}

// A node whose parent wants it black is not red.
fn colour_ok(red: bool, black: bool) -> bool
    ensures { Decides result (black ≡ true → red ≡ false) }
{
    !black || !red
}

// Whether the count `n` of slot `i` is what its links count; edition 1 has zero bits there.
fn count_ok(s: &[u8], i: usize, n: usize) -> bool
    requires links_in { LinksIn s.now i }
    requires n_value { n ≡ count_of s.now i }
    ensures { Decides result (count_of s.now i ≡ count_in (header s.now).edition (linked_count s.now i)) }
{
    let edition = slots::header_of(s).edition;
    if edition < 2 {
        return n == 0;
    }
    n == linked_count(s, i)
}

// The last step of a walk: `b` black nodes on each path of the left side, and what the right side came to.
fn join(red: bool, b: usize, a: Trail) -> Option<Trail>
    requires { b ≤ 20 }
    ensures { result ≡ joined red b a }
{
    if a.blacks != b {
        return None;
    }
    Some(Trail {
        blacks: if red { b } else { b + 1 },
        ..a
    })
}

// A store's bytes, and the capacity that they have room for.
#[derive(Clone, Copy)]
struct Store<'a> {
    s: &'a [u8],
    cap: usize,
    ghost sized: { Sized (length s.now) cap },
}

impl<'a> Store<'a> {
    // Whether slot `i`, whose head is `h`, holds a node. What is cheap is tested first.
    fn node_ok(&self, i: usize, h: Head, black: bool) -> bool
        requires has_slot { HasSlot (length self.now.s.now) i }
        requires h_value { h ≡ head_of (slot self.now.s.now i) (count_of self.now.s.now i) }
        ensures { Decides result (NodeOk self.now.s.now self.now.cap i black) }
    {
        if !colour_ok(h.red, black)
            || self.cap < h.left
            || self.cap < h.right
            || !slot_tests::is_entry(self.s, i, h)
            || !count_ok(self.s, i, h.count)
        {
            return false;
        }
        slots::digest(self.s, i) == subtree_digest(self.s, i).as_slice()
    }

    // The key of slot `i`, which has `n` bytes, is above that of slot `p`, if there is one.
    fn rises(&self, p: usize, i: usize, n: usize) -> bool
        requires met { Met self.now.s.now self.now.cap p }
        requires has_slot { HasSlot (length self.now.s.now) i }
        requires n_value { (n ≡ (slot self.now.s.now i).key_length) × (n ≤ 48) }
        ensures { Decides result (Past (bound_of self.now.s.now p) (key_of (slot self.now.s.now i))) }
    {
        if p == 0 {
            return true;
        }
        below(slots::key(self.s, p), slots::key_part(self.s, i, n))
    }

    // Walks the subtree at slot `i` in order, after slot `prev`, at most `depth` nodes deep and over at most `left` nodes.
    fn walk(&self, depth: usize, i: usize, prev: usize, left: usize, black: bool) -> Option<Trail>
        requires depth_bound { depth ≤ 20 }
        requires met { Met self.now.s.now self.now.cap prev }
        ensures { WalkSays self.now.s.now self.now.cap depth i prev left black result }
    {
        if i == 0 {
            return Some(Trail {
                last: prev,
                left,
                blacks: 0,
            });
        }
        if depth == 0 || left == 0 || self.cap < i {
            return None;
        }
        let h = slots::head_of(self.s, i);
        if !self.node_ok(i, h, black) {
            return None;
        }
        let lower = self.walk(depth - 1, h.left, prev, left - 1, h.red)?;
        if !self.rises(lower.last, i, h.key_length) {
            return None;
        }
        let upper = self.walk(depth - 1, h.right, i, lower.left, true)?;
        join(h.red, lower.blacks, upper)
    }

    // Whether the chain from slot `x` has `n` slots, all free, and ends: the links lead on, and what is left of `n` falls.
    fn chain_ok(&self, x: usize, n: usize) -> bool
        ensures { Decides result (HasChain self.now.s.now self.now.cap x n) }
    {
        let mut at = x;
        let mut more = n;
        while at != 0 {
            if more == 0 || self.cap < at || !slot_tests::is_free(self.s, at) {
                return false;
            }
            at = slots::left(self.s, at);
            more -= 1;
        }
        more == 0
    }
}

// Whether the bytes are a sound store of an edition.
pub fn judge_in(s: &[u8], edition: usize) -> bool
    ensures { Decides result (SoundIn edition s.now) }
{
    if s.len() < 8 {
        return false;
    }
    let h = slots::header_of(s);
    if !header_ok(edition, s.len(), h) {
        return false;
    }
    let store = Store { s, cap: h.capacity };
    let Some(trail) = store.walk(MAX_HEIGHT, h.root, 0, h.live, true) else {
        return false;
    };
    trail.left == 0 && store.chain_ok(h.free, h.capacity - h.live)
}

// Whether the bytes are a sound store.
pub fn judge(s: &[u8]) -> bool
    ensures { Decides result (Sound s.now) }
{
    judge_in(s, EDITION)
}

// For C: whether the bytes are a sound store.
#[unsafe(no_mangle)]
pub extern "C" fn dampcandle_judge(s: &[u8]) -> bool
    ensures { Decides result (Sound s.now) }
{
    judge(s)
}
