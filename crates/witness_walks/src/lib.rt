// The walks of the Rust over the slots of a store. The `HashTree` on the heap becomes the written form, parent first: so a walk says
// what becomes of a node's three parts before any of them is made, and three_way_fork joins them by their kinds alone.
#![tactic(auto)]

mod fork;

ghost use Rattle.std.specs.Prelude.{◌≡◌};
ghost use Rattle.key_order.specs.Order.{cmp};
ghost use Rattle.search.specs.Search.{EntryAt, slot_of};
ghost use Rattle.witness_walks.specs.Arms.{seen_at, both_seen, full_arms, above_arms, below_arms, between_arms, lookup_arms, arms_at};
ghost use Rattle.witness_walks.specs.InStore.{key_in, BoundsIn, records_in};

use crate::fork::{kind_of_part, kind_of_what, records_of, three_way_fork};
use search::KeyBound;
use slots::key;
use std::cmp::Ordering;

// Which walk of the Rust goes on below a slot.
#[derive(Clone, Copy)]
pub enum Walk {
    Full,
    Above(KeyBound),
    Below(KeyBound),
    Between(KeyBound, KeyBound),
    Lookup(usize),
}

// What is shown of an entry: its data digest; its key and its value's digest (`witness_tree`); its key and value (`data_tree`). The Rust
// passes a closure for the last two; document 01 names the choice, and `part_bytes` (specs/Walked) says what is written of each.
#[derive(Clone, Copy)]
pub enum What {
    Hide,
    Label,
    Show,
}

// What becomes of a side: no record of its own; Pruned to its subtree digest; walked into.
#[derive(Clone, Copy)]
pub enum Part {
    Nothing,
    Hidden,
    Walked(Walk),
}

// An arm of a walk: the three parts that it joins.
#[derive(Clone, Copy)]
pub struct Arm {
    pub left: Part,
    pub middle: What,
    pub right: Part,
}

// All that `three_way_fork` looks at in a part.
#[derive(Clone, Copy)]
pub enum Kind {
    Empty,
    Pruned,
    Other,
}

// What `three_way_fork` makes of l, m and r. Its rule of three Pruned is never met (proofs/Never), and is left out.
#[derive(Clone, Copy)]
pub enum Shape {
    M,
    ForkLM,
    ForkMR,
    ForkLPrunedMR,
    ForkLForkMR,
}

// What stands between the sides: the entry, or one Pruned of entry and right side.
#[derive(Clone, Copy)]
pub enum Middle {
    Entry(What),
    Both,
}

// The records of a node, in the order in which they are written: [Fork] left [Fork] middle right.
#[derive(Clone, Copy)]
pub struct Records {
    pub outer: bool,
    pub left: Part,
    pub inner: bool,
    pub middle: Middle,
    pub right: Part,
}

// A store and a slot's number go side by side, as in crate slots.

// ---- bounds

// A bound's own entry: a Neighbor always with a Pruned value.
fn seen_at(b: KeyBound, f: What) -> What
    ensures { result ≡ seen_at b f }
{
    match b {
        KeyBound::Exact(_) => f,
        KeyBound::Neighbor(_) => What::Label,
    }
}

// An entry that is both bounds.
fn both_seen(lo: KeyBound, hi: KeyBound, f: What) -> What
    ensures { result ≡ both_seen lo hi f }
{
    match (lo, hi) {
        (KeyBound::Neighbor(_), KeyBound::Neighbor(_)) => What::Label,
        _ => f,
    }
}

// ---- the walks: what becomes of the three parts of the node in slot `n`. `above` and `below` stay two, as in the Rust: their arms are
// read beside it.

fn full_witness_tree(f: What) -> Arm
    ensures { result ≡ full_arms f }
{
    Arm {
        left: Part::Walked(Walk::Full),
        middle: f,
        right: Part::Walked(Walk::Full),
    }
}

// How the keys of two slots compare.
fn compare_keys(s: &[u8], i: usize, j: usize) -> Ordering
    requires entry_at { EntryAt s.now i }
    requires other_at { EntryAt s.now j }
    ensures { result ≡ cmp (key_in s.now i) (key_in s.now j) }
{
    entries::compare_key(s, j, key(s, i))
}

fn witness_range_above(s: &[u8], n: usize, lo: KeyBound, f: What) -> Arm
    requires entry_at { EntryAt s.now n }
    requires low_at { EntryAt s.now (slot_of lo) }
    ensures { result ≡ above_arms lo f (cmp (key_in s.now n) (key_in s.now (slot_of lo))) }
{
    match compare_keys(s, n, lo.slot()) {
        Ordering::Equal => Arm {
            left: Part::Hidden,
            middle: seen_at(lo, f),
            right: Part::Walked(Walk::Full),
        },
        Ordering::Less => Arm {
            left: Part::Hidden,
            middle: What::Hide,
            right: Part::Walked(Walk::Above(lo)),
        },
        Ordering::Greater => Arm {
            left: Part::Walked(Walk::Above(lo)),
            middle: f,
            right: Part::Walked(Walk::Full),
        },
    }
}

fn witness_range_below(s: &[u8], n: usize, hi: KeyBound, f: What) -> Arm
    requires entry_at { EntryAt s.now n }
    requires high_at { EntryAt s.now (slot_of hi) }
    ensures { result ≡ below_arms hi f (cmp (key_in s.now n) (key_in s.now (slot_of hi))) }
{
    match compare_keys(s, n, hi.slot()) {
        Ordering::Equal => Arm {
            left: Part::Walked(Walk::Full),
            middle: seen_at(hi, f),
            right: Part::Hidden,
        },
        Ordering::Greater => Arm {
            left: Part::Walked(Walk::Below(hi)),
            middle: What::Hide,
            right: Part::Hidden,
        },
        Ordering::Less => Arm {
            left: Part::Walked(Walk::Full),
            middle: f,
            right: Part::Walked(Walk::Below(hi)),
        },
    }
}

// The Rust's arms on (lo.cmp(k), k.cmp(hi)). `lo` is not above `hi`: so a key below `lo` needs no look at `hi`, and the last arm, for a
// key below `lo` and above `hi`, is never met (proofs/Never) and is left out.
fn witness_range_between(s: &[u8], n: usize, lo: KeyBound, hi: KeyBound, f: What) -> Arm
    requires entry_at { EntryAt s.now n }
    requires low_at { EntryAt s.now (slot_of lo) }
    requires high_at { EntryAt s.now (slot_of hi) }
    ensures { result ≡ between_arms lo hi f (cmp (key_in s.now (slot_of lo)) (key_in s.now n)) (cmp (key_in s.now n) (key_in s.now (slot_of hi))) }
{
    let go = Part::Walked(Walk::Between(lo, hi));
    match compare_keys(s, lo.slot(), n) {
        Ordering::Less => match compare_keys(s, n, hi.slot()) {
            // (Less, Less)
            Ordering::Less => Arm {
                left: go,
                middle: f,
                right: go,
            },
            // (_, Equal)
            Ordering::Equal => Arm {
                left: go,
                middle: seen_at(hi, f),
                right: Part::Hidden,
            },
            // (Less, Greater)
            Ordering::Greater => Arm {
                left: go,
                middle: What::Hide,
                right: Part::Hidden,
            },
        },
        Ordering::Equal => match compare_keys(s, n, hi.slot()) {
            // (Equal, Equal)
            Ordering::Equal => Arm {
                left: Part::Hidden,
                middle: both_seen(lo, hi, f),
                right: Part::Hidden,
            },
            // (Equal, _)
            Ordering::Less | Ordering::Greater => Arm {
                left: Part::Hidden,
                middle: seen_at(lo, f),
                right: go,
            },
        },
        // (Greater, Less)
        Ordering::Greater => Arm {
            left: Part::Hidden,
            middle: What::Hide,
            right: go,
        },
    }
}

// Of the present key that stands in slot `i`.
fn lookup_and_build_witness(s: &[u8], n: usize, i: usize) -> Arm
    requires entry_at { EntryAt s.now n }
    requires other_at { EntryAt s.now i }
    ensures { result ≡ lookup_arms i (cmp (key_in s.now i) (key_in s.now n)) }
{
    match compare_keys(s, i, n) {
        Ordering::Equal => Arm {
            left: Part::Hidden,
            middle: What::Show,
            right: Part::Hidden,
        },
        Ordering::Less => Arm {
            left: Part::Walked(Walk::Lookup(i)),
            middle: What::Hide,
            right: Part::Hidden,
        },
        Ordering::Greater => Arm {
            left: Part::Hidden,
            middle: What::Hide,
            right: Part::Walked(Walk::Lookup(i)),
        },
    }
}

fn arm_at(s: &[u8], n: usize, walk: Walk, f: What) -> Arm
    requires entry_at { EntryAt s.now n }
    requires bounds_in { BoundsIn s.now walk }
    ensures { result ≡ arms_at (key_in s.now) walk f (key_in s.now n) }
{
    match walk {
        Walk::Full => full_witness_tree(f),
        Walk::Above(lo) => witness_range_above(s, n, lo, f),
        Walk::Below(hi) => witness_range_below(s, n, hi, f),
        Walk::Between(lo, hi) => witness_range_between(s, n, lo, hi, f),
        Walk::Lookup(i) => lookup_and_build_witness(s, n, i),
    }
}

// The records of the node in slot `n`.
pub fn records_at(s: &[u8], n: usize, walk: Walk, f: What) -> Records
    requires entry_at { EntryAt s.now n }
    requires bounds_in { BoundsIn s.now walk }
    ensures { result ≡ records_in s.now n walk f }
{
    let Arm {
        left,
        middle,
        right,
    } = arm_at(s, n, walk, f);
    let l = kind_of_part(left, slots::left(s, n));
    let m = kind_of_what(middle);
    let r = kind_of_part(right, slots::right(s, n));
    records_of(three_way_fork(l, m, r), left, middle, right)
}
