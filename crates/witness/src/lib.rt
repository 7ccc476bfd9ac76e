// The witnesses of a store, written: first the room that a witness takes, then its records, parent first.
#![tactic(auto)]

ghost use Rattle.std.specs.Prelude.{◌≡◌, ◌+◌, ◌≤◌, length};
ghost use Rattle.llrb.specs.Digests.{data_digest};
ghost use Rattle.search.specs.Search.{EntryAt, HasTree};
ghost use Rattle.slots.specs.Layout.{header};
ghost use Rattle.witness_walks.specs.Walked.{fork_bytes, showing};
ghost use Rattle.witness_walks.specs.InStore.{entry_in, shown_in, middle_in, MiddleAt, hidden_in, HiddenAt, hidden_len};
ghost use Rattle.output.specs.Putting.{Puts};
ghost use Rattle.witness.specs.Putting.{CanFit, Fits, CanWrite, Writes};
ghost use Rattle.answers.specs.Answers.{answered};
ghost use Rattle.witness.specs.Saving.{Saves, CanSave, BoundIn, crossed_in, CanRange, ranged};
ghost use Rattle.store.specs.Sound.{Sound};
ghost use Rattle.store.specs.Calls.{of_range, witnessed, as_hash_tree_answer, keys_answer, witness_answer, key_range_answer, value_range_answer, keys_with_prefix_answer};
ghost use Rattle.witness_walks.specs.Bounds.{walk_between};
ghost use Rattle.witness_trees.specs.Witness.{Form};

use answers::Refusal;
use hash_tree::{Kind, fork_hash, leaf_hash};
use key_order::order;
use output::{less, put_head, put_piece};
use search::{KeyBound, get, lower_bound, right_prefix_neighbor, upper_bound};
use slots::{digest, header_of, key, value};
use std::cmp::Ordering;
use witness_walks::{Middle, Part, Walk, What, records_at};

// A Fork's head, if the node has one.
fn put_fork(out: &mut [u8], at: usize, fork: bool) -> usize
    requires { at + length (fork_bytes fork) ≤ length out.old }
    ensures { Puts out.old out.new at result (fork_bytes fork) }
{
    if fork {
        put_head(out, at, Kind::Fork, 0)
    } else {
        at
    }
}

fn fork_len(fork: bool) -> usize
    ensures { result ≡ length (fork_bytes fork) }
{
    if fork { 2 } else { 0 }
}

// ---- the records

fn data_hash(s: &[u8], n: usize) -> [u8; 32]
    requires { EntryAt s.now n }
    ensures { result ≡ data_digest (entry_in s.now n) }
{
    entries::data_digest(s, n)
}

// `left_hash_tree`, `right_hash_tree`: Empty, or Pruned to the stored digest.
fn put_hidden(s: &[u8], n: usize, out: &mut [u8], at: usize) -> usize
    requires hidden_at { HiddenAt s.now n }
    requires room { at + length (hidden_in s.now n) ≤ length out.old }
    ensures { Puts out.old out.new at result (hidden_in s.now n) }
{
    if n == 0 {
        put_head(out, at, Kind::Empty, 0)
    } else {
        put_piece(out, at, Kind::Pruned, digest(s, n))
    }
}

fn hidden_len(n: usize) -> usize
    ensures { result ≡ hidden_len n }
{
    if n == 0 { 2 } else { 34 }
}

// The entry: `pruned(n.data_hash())`, `n.witness_tree()` or `n.data_tree()`.
fn put_shown(s: &[u8], n: usize, what: What, out: &mut [u8], at: usize) -> usize
    requires entry_at { EntryAt s.now n }
    requires room { at + length (shown_in s.now n what) ≤ length out.old }
    ensures { Puts out.old out.new at result (shown_in s.now n what) }
{
    match what {
        What::Hide => put_piece(out, at, Kind::Pruned, &data_hash(s, n)),
        What::Label => {
            let x = put_piece(out, at, Kind::Labeled, key(s, n));
            put_piece(out, x, Kind::Pruned, &leaf_hash(value(s, n)))
        }
        What::Show => {
            let x = put_piece(out, at, Kind::Labeled, key(s, n));
            put_piece(out, x, Kind::Leaf, value(s, n))
        }
    }
}

fn shown_len(s: &[u8], n: usize, what: What) -> usize
    requires { EntryAt s.now n }
    ensures { (result ≡ length (shown_in s.now n what)) × (result ≤ 116) }
{
    match what {
        What::Hide => 34,
        What::Label => 36 + key(s, n).len(),
        What::Show => 4 + key(s, n).len() + value(s, n).len(),
    }
}

// What stands between the sides. Where entry and right side are merged, only the entry's digest is worked out.
fn put_middle(s: &[u8], n: usize, middle: Middle, out: &mut [u8], at: usize) -> usize
    requires entry_at { EntryAt s.now n }
    requires middle_at { MiddleAt s.now n middle }
    requires room { at + length (middle_in s.now n middle) ≤ length out.old }
    ensures { Puts out.old out.new at result (middle_in s.now n middle) }
{
    match middle {
        Middle::Entry(what) => put_shown(s, n, what, out, at),
        Middle::Both => {
            let m = data_hash(s, n);
            let d = fork_hash(&m, digest(s, slots::right(s, n)));
            put_piece(out, at, Kind::Pruned, &d)
        }
    }
}

fn middle_len(s: &[u8], n: usize, middle: Middle) -> usize
    requires { EntryAt s.now n }
    ensures { (result ≡ length (middle_in s.now n middle)) × (result ≤ 116) }
{
    match middle {
        Middle::Entry(what) => shown_len(s, n, what),
        Middle::Both => 34,
    }
}

// ---- the two walks, of one shape: a trait for what each does at a step would need a law for each of five steps, and be longer than they

// The room that is left after the records of a part that lies below slot `n`, if they fit. Nothing is hashed, nothing is written.
fn fit(s: &[u8], n: usize, part: Part, f: What, room: usize) -> Option<usize>
    requires { CanFit s.now n part }
    ensures { Fits s.now n part f room result }
{
    match part {
        Part::Nothing => Some(room),
        Part::Hidden => less(Some(room), hidden_len(n)),
        Part::Walked(walk) => {
            if n == 0 {
                return less(Some(room), 2);
            }
            let x = records_at(s, n, walk, f);
            let a = less(Some(room), fork_len(x.outer))?;
            let b = fit(s, slots::left(s, n), x.left, f, a)?;
            let c = less(Some(b), fork_len(x.inner))?;
            let d = less(Some(c), middle_len(s, n, x.middle))?;
            fit(s, slots::right(s, n), x.right, f, d)
        }
    }
}

// Writes the records of a part that lies below slot `n`, parent first; there is room for them.
fn write_tree(s: &[u8], n: usize, part: Part, f: What, out: &mut [u8], at: usize) -> usize
    requires { CanWrite s.now n part f out.old at }
    ensures { Writes s.now n part f out.old out.new at result }
{
    match part {
        Part::Nothing => at,
        Part::Hidden => put_hidden(s, n, out, at),
        Part::Walked(walk) => {
            if n == 0 {
                return put_head(out, at, Kind::Empty, 0);
            }
            let x = records_at(s, n, walk, f);
            let a = put_fork(out, at, x.outer);
            let b = write_tree(s, slots::left(s, n), x.left, f, out, a);
            let c = put_fork(out, b, x.inner);
            let d = put_middle(s, n, x.middle, out, c);
            write_tree(s, slots::right(s, n), x.right, f, out, d)
        }
    }
}

// ---- the calls, for callers that know the store to be sound and their arguments to be lawful

// The slot of the whole map.
fn root_of(s: &[u8]) -> usize
    requires { Sound s.now }
    ensures is { result ≡ (header s.now).root }
    ensures tree { HasTree s.now result }
{
    header_of(s).root
}

// Writes the witness of a walk to the front of the output, if there is room for it.
fn save(s: &[u8], n: usize, walk: Walk, f: What, out: &mut [u8]) -> Result<usize, Refusal>
    requires { CanSave s.now n walk }
    ensures { Saves s.now n walk f out.old out.new result }
{
    let part = Part::Walked(walk);
    fit(s, n, part, f, out.len()).ok_or(Refusal::NoRoom)?;
    Ok(write_tree(s, n, part, f, out, 0))
}

// What the Rust asserts not to be: both bounds exist, and the low one is above the high one.
fn crossed(s: &[u8], left: Option<KeyBound>, right: Option<KeyBound>) -> bool
    requires left_bound { BoundIn s.now left }
    requires right_bound { BoundIn s.now right }
    ensures { result ≡ crossed_in s.now left right }
{
    match (left, right) {
        (Some(lo), Some(hi)) => matches!(
            order(key(s, lo.slot()), key(s, hi.slot())),
            Ordering::Greater
        ),
        _ => false,
    }
}

fn range_witness(
    s: &[u8],
    root: usize,
    left: Option<KeyBound>,
    right: Option<KeyBound>,
    f: What,
    out: &mut [u8],
) -> Result<usize, Refusal>
    requires { CanRange s.now root left right }
    ensures { Saves s.now root (walk_between left right) f out.old out.new result }
{
    let walk = match (left, right) {
        (None, None) => Walk::Full,
        (Some(lo), None) => Walk::Above(lo),
        (None, Some(hi)) => Walk::Below(hi),
        (Some(lo), Some(hi)) => Walk::Between(lo, hi),
    };
    save(s, root, walk, f, out)
}

pub fn as_hash_tree(s: &[u8], out: &mut [u8]) -> Result<usize, Refusal>
    requires { Sound s.now }
    ensures { answered result out.new ≡ as_hash_tree_answer s.now out.old }
{
    let root = root_of(s);
    save(s, root, Walk::Full, What::Show, out)
}

pub fn keys(s: &[u8], out: &mut [u8]) -> Result<usize, Refusal>
    requires { Sound s.now }
    ensures { answered result out.new ≡ keys_answer s.now out.old }
{
    let root = root_of(s);
    save(s, root, Walk::Full, What::Label, out)
}

// The two ranges, which show an entry in the one form or the other.
fn range(s: &[u8], first: &[u8], last: &[u8], f: What, out: &mut [u8]) -> Result<usize, Refusal>
    requires sound { Sound s.now }
    requires key_bounds { (length first.now ≤ 48) × (length last.now ≤ 48) }
    ensures { (w : Form) → f ≡ showing w → answered result out.new ≡ witnessed (of_range (ranged w) first.now last.now) s.now out.old }
{
    let root = root_of(s);
    let lo = lower_bound(s, root, first);
    let hi = upper_bound(s, root, last);
    if crossed(s, lo, hi) {
        return Err(Refusal::Reversed);
    }
    range_witness(s, root, lo, hi, f, out)
}

pub fn key_range(s: &[u8], first: &[u8], last: &[u8], out: &mut [u8]) -> Result<usize, Refusal>
    requires sound { Sound s.now }
    requires key_bounds { (length first.now ≤ 48) × (length last.now ≤ 48) }
    ensures { answered result out.new ≡ key_range_answer first.now last.now s.now out.old }
{
    range(s, first, last, What::Label, out)
}

pub fn value_range(s: &[u8], first: &[u8], last: &[u8], out: &mut [u8]) -> Result<usize, Refusal>
    requires sound { Sound s.now }
    requires key_bounds { (length first.now ≤ 48) × (length last.now ≤ 48) }
    ensures { answered result out.new ≡ value_range_answer first.now last.now s.now out.old }
{
    range(s, first, last, What::Show, out)
}

pub fn keys_with_prefix(s: &[u8], prefix: &[u8], out: &mut [u8]) -> Result<usize, Refusal>
    requires sound { Sound s.now }
    requires prefix_bound { length prefix.now ≤ 48 }
    ensures { answered result out.new ≡ keys_with_prefix_answer prefix.now s.now out.old }
{
    let root = root_of(s);
    let lo = lower_bound(s, root, prefix);
    let hi = right_prefix_neighbor(s, root, prefix);
    range_witness(s, root, lo, hi, What::Label, out)
}

// `nested_witness` with the value's own tree: a present key alone with its value, or else its neighbours.
pub fn witness(s: &[u8], key: &[u8], out: &mut [u8]) -> Result<usize, Refusal>
    requires sound { Sound s.now }
    requires key_bound { length key.now ≤ 48 }
    ensures { answered result out.new ≡ witness_answer key.now s.now out.old }
{
    let root = root_of(s);
    match get(s, root, key) {
        Some(i) => save(s, root, Walk::Lookup(i), What::Show, out),
        None => {
            let lo = lower_bound(s, root, key);
            let hi = upper_bound(s, root, key);
            range_witness(s, root, lo, hi, What::Label, out)
        }
    }
}
