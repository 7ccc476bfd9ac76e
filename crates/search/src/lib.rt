// Searches over the slots of a store that holds a tree: `get`, the bounds of a range, and iteration. One loop goes down from the root
// and carries the best answer met so far; each search says what it makes of a node.
#![tactic(auto)]

ghost use Rattle.std.specs.Prelude.{◌≡◌, ℕ, ◌≤◌, length, None};
ghost use Rattle.llrb.specs.Tree.{Tree, get as get_entry};
ghost use Rattle.llrb.specs.Iterate.{first_entry, next_entry};
ghost use Rattle.witness_trees.specs.Witness.{lower_bound, upper_bound, right_prefix_neighbor};
ghost use Rattle.store.specs.Sound.{Sound};
ghost use Rattle.store.specs.Calls.{get_answer, first_entry_answer, next_entry_answer};
ghost use Rattle.slots.specs.Layout.{HasSlot};
ghost use Rattle.search.specs.Search.{HasTree, Lies, found_slot, bound_slot, slot_of, Descends, EntryAt, FoundIn, place_in, place_of, answer_of};

use key_order::compare;
use std::cmp::Ordering;

// A bound of a range, by the slot of its entry.
#[derive(Clone, Copy)]
pub enum KeyBound {
    Exact(usize),
    Neighbor(usize),
}

impl KeyBound {
    // The slot of the bound's entry.
    pub fn slot(self) -> usize
        ensures { result ≡ slot_of self }
    {
        match self {
            KeyBound::Exact(i) | KeyBound::Neighbor(i) => i,
        }
    }
}

// Where the key and the value of an entry lie in the store.
#[derive(Clone, Copy)]
pub struct Place {
    pub key_at: usize,
    pub key_length: usize,
    pub value_at: usize,
    pub value_length: usize,
}

// What a search makes of a node: it stops with its answer, or goes on below with the best answer met so far.
#[derive(Clone, Copy)]
enum Turn<B> {
    Stop(B),
    Left(B),
    Right(B),
}

// The loop of every search: down from the root, with the best answer met so far. A store and its root go to each search side by side:
// docs/ARCHITECTURE.md names the six, and a struct of the two would keep the store lent.
fn descend<B: Copy, F: Fn(usize, Option<B>) -> Turn<Option<B>>>(
    s: &[u8],
    root: usize,
    turn: F,
) -> Option<B>
    requires has_tree { HasTree s.now root }
    requires may_turn { (i : ℕ) (b : _) → EntryAt s.now i → F.pre turn i b }
    ensures { (t : Tree) → Lies s.now root t → Descends (F.post turn) t None result }
{
    let mut best = None;
    let mut at = root;
    loop {
        if at == 0 {
            break best;
        }
        match turn(at, best) {
            Turn::Stop(answer) => break answer,
            Turn::Left(b) => {
                best = b;
                at = slots::left(s, at);
            }
            Turn::Right(b) => {
                best = b;
                at = slots::right(s, at);
            }
        }
    }
}

// The entry of the key.
pub fn get(s: &[u8], root: usize, key: &[u8]) -> Option<usize>
    requires { HasTree s.now root }
    ensures { (t : Tree) → Lies s.now root t → result ≡ found_slot (get_entry key.now t) }
{
    descend(
        s,
        root,
        |at, none| match compare(key, slots::key(s, at)).order {
            Ordering::Equal => Turn::Stop(Some(at)),
            Ordering::Less => Turn::Left(none),
            Ordering::Greater => Turn::Right(none),
        },
    )
}

// The greatest key that is not above this one.
pub fn lower_bound(s: &[u8], root: usize, key: &[u8]) -> Option<KeyBound>
    requires { HasTree s.now root }
    ensures { (t : Tree) → Lies s.now root t → result ≡ bound_slot (lower_bound key.now t) }
{
    descend(
        s,
        root,
        |at, low| match compare(slots::key(s, at), key).order {
            Ordering::Less => Turn::Right(Some(KeyBound::Neighbor(at))),
            Ordering::Equal => Turn::Stop(Some(KeyBound::Exact(at))),
            Ordering::Greater => Turn::Left(low),
        },
    )
}

// The least key that is not below this one.
pub fn upper_bound(s: &[u8], root: usize, key: &[u8]) -> Option<KeyBound>
    requires { HasTree s.now root }
    ensures { (t : Tree) → Lies s.now root t → result ≡ bound_slot (upper_bound key.now t) }
{
    descend(
        s,
        root,
        |at, high| match compare(slots::key(s, at), key).order {
            Ordering::Less => Turn::Right(high),
            Ordering::Equal => Turn::Stop(Some(KeyBound::Exact(at))),
            Ordering::Greater => Turn::Left(Some(KeyBound::Neighbor(at))),
        },
    )
}

// The least key that is above the prefix and does not begin with it.
pub fn right_prefix_neighbor(s: &[u8], root: usize, prefix: &[u8]) -> Option<KeyBound>
    requires { HasTree s.now root }
    ensures { (t : Tree) → Lies s.now root t → result ≡ bound_slot (right_prefix_neighbor prefix.now t) }
{
    descend(s, root, |at, neighbor| {
        let c = compare(slots::key(s, at), prefix);
        match c.order {
            Ordering::Greater => {
                if c.agree == prefix.len() {
                    Turn::Right(neighbor)
                } else {
                    Turn::Left(Some(KeyBound::Neighbor(at)))
                }
            }
            Ordering::Less | Ordering::Equal => Turn::Right(neighbor),
        }
    })
}

// ---- iteration, in place of the Rust's `Iter`

// The entry of the least key.
pub fn first_entry(s: &[u8], root: usize) -> Option<usize>
    requires { HasTree s.now root }
    ensures { (t : Tree) → Lies s.now root t → result ≡ found_slot (first_entry t) }
{
    descend(s, root, |at, _| Turn::Left(Some(at)))
}

// The entry of the least key above this one, whether or not this one is present.
pub fn next_entry(s: &[u8], root: usize, key: &[u8]) -> Option<usize>
    requires { HasTree s.now root }
    ensures { (t : Tree) → Lies s.now root t → result ≡ found_slot (next_entry key.now t) }
{
    descend(
        s,
        root,
        |at, next| match compare(key, slots::key(s, at)).order {
            Ordering::Less => Turn::Left(Some(at)),
            Ordering::Equal | Ordering::Greater => Turn::Right(next),
        },
    )
}

// ---- for callers that know the store to be sound: where the key and the value lie

// Where the entry in slot `i` lies.
fn place_in(s: &[u8], i: usize) -> Place
    requires { HasSlot (length s.now) i }
    ensures { result ≡ place_in s.now i }
{
    let h = slots::head_of(s, i);
    Place {
        key_at: slots::key_at(s.len(), i),
        key_length: h.key_length,
        value_at: slots::value_at(s.len(), i),
        value_length: h.value_length,
    }
}

fn place_of(s: &[u8], found: Option<usize>) -> Option<Place>
    requires { FoundIn s.now found }
    ensures { result ≡ place_of s.now found }
{
    found.map(|i| place_in(s, i))
}

pub fn get_place(s: &[u8], key: &[u8]) -> Option<Place>
    requires sound { Sound s.now }
    requires key_bound { length key.now ≤ 48 }
    ensures { answer_of result ≡ get_answer key.now s.now }
{
    let root = slots::header_of(s).root;
    place_of(s, get(s, root, key))
}

pub fn first_place(s: &[u8]) -> Option<Place>
    requires { Sound s.now }
    ensures { answer_of result ≡ first_entry_answer s.now }
{
    let root = slots::header_of(s).root;
    place_of(s, first_entry(s, root))
}

pub fn next_place(s: &[u8], key: &[u8]) -> Option<Place>
    requires sound { Sound s.now }
    requires key_bound { length key.now ≤ 48 }
    ensures { answer_of result ≡ next_entry_answer key.now s.now }
{
    let root = slots::header_of(s).root;
    place_of(s, next_entry(s, root, key))
}
