// The entry in a slot: its key compared, and its digests and count, which the tree, the judge and the witnesses all work out here.
#![tactic(auto)]

ghost use Rattle.std.specs.Prelude.{◌≡◌, ◌≤◌, ◌<◌, length};
ghost use Rattle.key_order.specs.Order.{cmp};
ghost use Rattle.slots.specs.Layout.{HasSlot, slot, key_of};
ghost use Rattle.entries.specs.Digests.{Link, LinksIn, value_digest, data_digest_in, forked, compute_subtree_hash, count_below, linked_count};

use std::cmp::Ordering;

// A slot goes by its number here too (crate slots says why).

// How `key` stands to the key in slot `i`.
pub fn compare_key(s: &[u8], i: usize, key: &[u8]) -> Ordering
    requires has_slot { HasSlot (length s.now) i }
    requires key_bound { (slot s.now i).key_length ≤ 48 }
    ensures { result ≡ cmp key.now (key_of (slot s.now i)) }
{
    key_order::order(key, slots::key(s, i))
}

// The digest of the value: of a Leaf.
pub fn value_digest(s: &[u8], i: usize) -> [u8; 32]
    requires has_slot { HasSlot (length s.now) i }
    requires value_bound { (slot s.now i).value_length ≤ 64 }
    ensures { result ≡ value_digest s.now i }
{
    hash_tree::leaf_hash(slots::value(s, i))
}

// The Rust's `data_hash`: of the key over the value.
pub fn data_digest(s: &[u8], i: usize) -> [u8; 32]
    requires has_slot { HasSlot (length s.now) i }
    requires key_bound { (slot s.now i).key_length ≤ 48 }
    requires value_bound { (slot s.now i).value_length ≤ 64 }
    ensures { result ≡ data_digest_in s.now i }
{
    let value = value_digest(s, i);
    hash_tree::labeled_hash(slots::key(s, i), &value)
}

// From the data digest `d` and the stored digests of the slots that two links name; 0 names none.
pub fn fork_with(s: &[u8], left: usize, right: usize, d: [u8; 32]) -> [u8; 32]
    requires left_link { Link s.now left }
    requires right_link { Link s.now right }
    ensures { result ≡ forked s.now left right d }
{
    if left == 0 {
        if right == 0 {
            return d;
        }
        return hash_tree::fork_hash(&d, slots::digest(s, right));
    }
    if right == 0 {
        return hash_tree::fork_hash(slots::digest(s, left), &d);
    }
    let f = hash_tree::fork_hash(&d, slots::digest(s, right));
    hash_tree::fork_hash(slots::digest(s, left), &f)
}

// The Rust's `compute_subtree_hash`: from the stored digests of the children.
pub fn subtree_digest(s: &[u8], i: usize) -> [u8; 32]
    requires { LinksIn s.now i }
    ensures { result ≡ compute_subtree_hash s.now i }
{
    let d = data_digest(s, i);
    fork_with(s, slots::left(s, i), slots::right(s, i), d)
}

// The stored count of the slot that a link names; 0 names none.
fn count_below(s: &[u8], link: usize) -> usize
    requires { Link s.now link }
    ensures { (result ≡ count_below s.now link) × (result < 2048) }
{
    if link == 0 {
        return 0;
    }
    slots::count(s, link)
}

// The entry itself, and the stored counts of its children.
pub fn linked_count(s: &[u8], i: usize) -> usize
    requires { LinksIn s.now i }
    ensures { result ≡ linked_count s.now i }
{
    1 + (count_below(s, slots::left(s, i)) + count_below(s, slots::right(s, i)))
}
