// Hash trees: the four digests, and the digest of a tree rebuilt from its written form.
#![tactic(auto, unfolding(crate::specs::HashTree::empty_hash, crate::specs::HashTree::fork_hash, crate::specs::HashTree::labeled_hash, crate::specs::HashTree::leaf_hash, crate::specs::Record::least, crate::specs::Record::most))]

ghost use Rattle.std.specs.Prelude.{◌≡◌, ◌-◌, ◌≤◌, ◌<◌, length, drop};
ghost use Rattle.answers.specs.Numbers.{outcome};
ghost use Rattle.answers.specs.Answers.{digested};
ghost use Rattle.hash_tree.specs.HashTree.{empty_hash, fork_hash, labeled_hash, leaf_hash};
ghost use Rattle.hash_tree.specs.Record.{kind_number, kind_of_number, record_of, place_after, least, most};
ghost use Rattle.hash_tree.specs.Written.{max_depth};
ghost use Rattle.hash_tree.specs.Parse.{parse};
ghost use Rattle.hash_tree.specs.Steps.{step_of, single_digest, place_of};
ghost use Rattle.hash_tree.specs.Whole.{rebuilt};

use answers::Refusal;
use sha256::joined;

// A tag is one length byte and then the text. Labels, values and digests may be of any length here.

// ---- the four digests, each by its name in the Interface Specification

// The digest of Empty.
pub fn empty_hash() -> [u8; 32]
    ensures { result ≡ empty_hash }
{
    joined(b"\x11ic-hashtree-empty", b"", b"")
}

// The digest of Fork, from the digests of its children.
pub fn fork_hash(left: &[u8], right: &[u8]) -> [u8; 32]
    ensures { result ≡ fork_hash left.now right.now }
{
    joined(b"\x10ic-hashtree-fork", left, right)
}

// The digest of Labeled, from its label and the digest of its child.
pub fn labeled_hash(label: &[u8], child: &[u8]) -> [u8; 32]
    ensures { result ≡ labeled_hash label.now child.now }
{
    joined(b"\x13ic-hashtree-labeled", label, child)
}

// The digest of Leaf.
pub fn leaf_hash(value: &[u8]) -> [u8; 32]
    ensures { result ≡ leaf_hash value.now }
{
    joined(b"\x10ic-hashtree-leaf", value, b"")
}

// The deepest nesting that is accepted, the outermost record counted.
pub const MAX_DEPTH: usize = 64;

pub const MAX_LABEL: usize = 48;

pub const MAX_VALUE: usize = 64;

pub const DIGEST_LEN: usize = 32;

// The kinds of record.
#[derive(Clone, Copy, Debug, PartialEq, Eq)]
pub enum Kind {
    Empty,
    Fork,
    Labeled,
    Leaf,
    Pruned,
}

impl Kind {
    // What stands for it in the first 3 bits of a record.
    pub fn number(self) -> usize
        ensures { result ≡ kind_number self }
    {
        match self {
            Kind::Empty => 0,
            Kind::Fork => 1,
            Kind::Labeled => 2,
            Kind::Leaf => 3,
            Kind::Pruned => 4,
        }
    }

    // The kind of a number; none above 4.
    pub fn from_number(number: usize) -> Option<Kind>
        ensures { result ≡ kind_of_number number }
    {
        match number {
            0 => Some(Kind::Empty),
            1 => Some(Kind::Fork),
            2 => Some(Kind::Labeled),
            3 => Some(Kind::Leaf),
            4 => Some(Kind::Pruned),
            _ => None,
        }
    }
}

// A record's head: its kind, and how many bytes of its own follow, all of them there.
#[derive(Clone, Copy)]
pub struct Record {
    pub kind: Kind,
    pub len: usize,
}

// The least and the greatest number of bytes that a record of a kind has, by the kind's number: any number may arrive.
pub fn least_len(kind: usize) -> usize
    ensures { result ≡ least kind }
{
    if kind == 4 { DIGEST_LEN } else { 0 }
}

pub fn most_len(kind: usize) -> usize
    ensures { result ≡ most kind }
{
    match kind {
        2 => MAX_LABEL,
        3 => MAX_VALUE,
        4 => DIGEST_LEN,
        _ => 0,
    }
}

// A byte as a number. It stays for its callers; usize::from does the same.
pub fn wide(b: u8) -> usize
    ensures { (result ≡ b) × (result < 256) }
{
    usize::from(b)
}

// How many bytes stand from a place on; none past the end.
pub fn left_at(s: &[u8], at: usize) -> usize
    ensures { result ≡ length s.now - at }
{
    s.len().saturating_sub(at)
}

// The record that stands at a place; none if it is malformed.
pub fn record_at(s: &[u8], at: usize) -> Option<Record>
    ensures { result ≡ record_of (drop at s.now) }
{
    let left = left_at(s, at);
    if left < 2 {
        return None;
    }
    let a = usize::from(s[at]);
    let b = usize::from(s[at + 1]);
    let number = a / 32;
    let kind = Kind::from_number(number)?;
    let len = a % 32 * 256 + b;
    if least_len(number) <= len && len <= most_len(number) && len <= left - 2 {
        Some(Record { kind, len })
    } else {
        None
    }
}

// The place after the record at a place, where its first child or what follows it stands; the same place if it is malformed.
pub fn next_at(s: &[u8], at: usize) -> usize
    ensures { result ≡ place_after s.now at }
{
    match record_at(s, at) {
        Some(r) => at + 2 + r.len,
        None => at,
    }
}

// A tree that was rebuilt: its digest, and the place after it.
#[derive(Clone, Copy)]
pub struct Step {
    pub next: usize,
    pub digest: [u8; 32],
}

// The digest of a record with no children, from its kind and its bytes.
fn single(kind: Kind, bytes: &[u8]) -> [u8; 32]
    requires { (kind_number kind ≡ 4) → length bytes.now ≡ 32 }
    ensures { result ≡ single_digest (kind_number kind) bytes.now }
{
    match kind {
        Kind::Leaf => leaf_hash(bytes),
        Kind::Pruned => bytes.try_into().unwrap(),
        _ => empty_hash(),
    }
}

// The place after the tree at a place, at most `depth` records deep. Nothing is hashed.
pub fn tree_at(s: &[u8], at: usize, depth: usize) -> Option<usize>
    requires { depth ≤ max_depth }
    ensures { result ≡ place_of at (parse depth (drop at s.now)) }
{
    if depth == 0 {
        return None;
    }
    let Record { kind, len } = record_at(s, at)?;
    let next = at + 2 + len;
    match kind {
        Kind::Fork => {
            let middle = tree_at(s, next, depth - 1)?;
            tree_at(s, middle, depth - 1)
        }
        Kind::Labeled => tree_at(s, next, depth - 1),
        _ => Some(next),
    }
}

// The two trees over rebuilt ones, made apart: written out in `rebuild_at` they take more stack at each level (include/dampcandle.h).
fn join_fork(left: &[u8; 32], r: Step) -> Step
    ensures { result ≡ record { next = r.next; digest = fork_hash left.now r.digest } }
{
    Step {
        digest: fork_hash(left, &r.digest),
        ..r
    }
}

fn join_labeled(label: &[u8], t: Step) -> Step
    ensures { result ≡ record { next = t.next; digest = labeled_hash label.now t.digest } }
{
    Step {
        digest: labeled_hash(label, &t.digest),
        ..t
    }
}

// Rebuilds the tree that stands at a place, at most `depth` records deep. A fork whose first child is no tree is left
// at once, so each byte is read a bounded number of times, whatever the bytes are.
pub fn rebuild_at(s: &[u8], at: usize, depth: usize) -> Option<Step>
    requires { depth ≤ max_depth }
    ensures { result ≡ step_of s.now (parse depth (drop at s.now)) }
{
    if depth == 0 {
        return None;
    }
    let Record { kind, len } = record_at(s, at)?;
    let start = at + 2;
    let next = start + len;
    match kind {
        Kind::Fork => {
            let l = rebuild_at(s, next, depth - 1)?;
            let r = rebuild_at(s, l.next, depth - 1)?;
            Some(join_fork(&l.digest, r))
        }
        Kind::Labeled => {
            let t = rebuild_at(s, next, depth - 1)?;
            Some(join_labeled(&s[start..next], t))
        }
        _ => Some(Step {
            next,
            digest: single(kind, &s[start..next]),
        }),
    }
}

// The digest of exactly one witness, and no byte more.
pub fn rebuild(witness: &[u8]) -> Result<[u8; 32], Refusal>
    ensures { digested (outcome result) ≡ rebuilt witness.now }
{
    match rebuild_at(witness, 0, MAX_DEPTH) {
        Some(t) if t.next == witness.len() => Ok(t.digest),
        _ => Err(Refusal::Malformed),
    }
}
