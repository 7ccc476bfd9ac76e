// A witness in CBOR, as the Interface Specification writes hash trees: written from document 01's form, and read back into it. Either way
// one walk judges the bytes and takes the room, and then record after record is put: parent first in both forms, and nothing is hashed.
#![tactic(auto)]

ghost use Rattle.std.specs.Prelude.{◌≡◌, [], ◌∷◌, ◌+◌, ◌≤◌, ◌<◌, ◌↔◌, length, drop, IsTrue};
ghost use Rattle.answers.specs.Answers.{answered};
ghost use Rattle.hash_tree.specs.Record.{kind_number};
ghost use Rattle.hash_tree.specs.Written.{max_depth};
ghost use Rattle.hash_tree.specs.Form.{Fits, parse_by};
ghost use Rattle.output.specs.Putting.{Puts, room_after};
ghost use Rattle.cbor.specs.Cbor.{array_of, string_head, put_cbor, sized, cbor_front};
ghost use Rattle.cbor.specs.Answer.{cbor_written, cbor_read};
ghost use Rattle.cbor.specs.Walks.{source, target, refusal_of, source_of, exchanged, Reads, Takes, code_of, room_of, met_of, CanPut, Wrote};

use answers::Refusal;
use hash_tree::{Kind, MAX_DEPTH, least_len, left_at, most_len, record_at, wide};
use output::{put_bytes, put_piece};

// The longest byte string whose head is one byte, plus one; and what such a head, and one of two bytes, begins with.
const SHORT: usize = 24;

const STRING: usize = 0x40;

const LONG_STRING: usize = 0x58;

// From document 01's form to CBOR, or back. Four functions ask which: fewer lines than a trait with two impls and their laws.
#[derive(Clone, Copy)]
pub enum Way {
    Writing,
    Reading,
}

// A record: its kind, and where in the bytes its own ones stand, all of them there.
#[derive(Clone, Copy)]
pub struct Item {
    pub kind: Kind,
    pub start: usize,
    pub len: usize,
}

// A tree that may be exchanged: the place after it, and the room that its other form leaves, as one number: one more than what is left, 0 if it
// is short. A number goes through calls in a register.
#[derive(Clone, Copy)]
pub struct Met {
    pub next: usize,
    pub room: usize,
}

// An Empty or a Fork has no bytes of its own.
fn is_bare(kind: Kind) -> bool
    ensures { IsTrue result ↔ kind_number kind < 2 }
{
    matches!(kind, Kind::Empty | Kind::Fork)
}

// The byte that opens the array of a kind.
fn array_of(kind: Kind) -> u8
    ensures { result ≡ array_of (kind_number kind) }
{
    match kind {
        Kind::Empty => 0x81,
        Kind::Fork => 0x83,
        Kind::Labeled => 0x83,
        Kind::Leaf => 0x82,
        Kind::Pruned => 0x82,
    }
}

// ---- one record, read

// A string of `len` bytes that begins at a place, as the own bytes of a record.
#[inline(always)]
fn sized_at(s: &[u8], start: usize, kind: Kind, len: usize) -> Option<Item>
    requires { start ≤ length s.now }
    ensures { Reads s.now (sized (kind_number kind) len (drop start s.now)) result }
{
    let number = kind.number();
    if len < least_len(number) {
        return None;
    }
    if most_len(number) < len {
        return None;
    }
    if s.len() - start < len {
        return None;
    }
    Some(Item { kind, start, len })
}

// The record at a place of CBOR.
#[inline(always)]
fn cbor_item_at(s: &[u8], at: usize) -> Option<Item>
    ensures { Reads s.now (cbor_front (drop at s.now)) result }
{
    let left = left_at(s, at);
    if left < 2 {
        return None;
    }
    let kind = Kind::from_number(wide(s[at + 1]))?;
    if s[at] != array_of(kind) {
        return None;
    }
    let start = at + 2;
    if is_bare(kind) {
        return Some(Item {
            kind,
            start,
            len: 0,
        });
    }
    if left < 3 {
        return None;
    }
    let head = wide(s[start]);
    if head < STRING {
        return None;
    }
    if head < LONG_STRING {
        return sized_at(s, start + 1, kind, head - STRING);
    }
    if head != LONG_STRING {
        return None;
    }
    if left < 4 {
        return None;
    }
    let len = wide(s[start + 1]);
    if len < SHORT {
        return None;
    }
    sized_at(s, start + 2, kind, len)
}

fn item_at(s: &[u8], at: usize, way: Way) -> Option<Item>
    ensures { Reads s.now ((source way).front (drop at s.now)) result }
{
    match way {
        Way::Writing => {
            let r = record_at(s, at)?;
            Some(Item {
                kind: r.kind,
                start: at + 2,
                len: r.len,
            })
        }
        Way::Reading => cbor_item_at(s, at),
    }
}

// ---- one record, put

// How many bytes a record takes.
fn put_len(way: Way, kind: Kind, len: usize) -> usize
    requires { len ≤ 64 }
    ensures { Takes way (kind_number kind) len result }
{
    match way {
        Way::Writing => {
            if is_bare(kind) {
                2
            } else if len < SHORT {
                3 + len
            } else {
                4 + len
            }
        }
        Way::Reading => 2 + len,
    }
}

fn put_string_head(out: &mut [u8], at: usize, len: usize) -> usize
    requires { (len ≤ 64) × (at + length (string_head len) ≤ length out.old) }
    ensures { Puts out.old out.new at result (string_head len) }
{
    if len < SHORT {
        out[at] = (STRING + len) as u8;
        return at + 1;
    }
    out[at] = LONG_STRING as u8;
    out[at + 1] = len as u8;
    at + 2
}

fn put_opening(out: &mut [u8], at: usize, kind: Kind) -> usize
    requires { at + 2 ≤ length out.old }
    ensures { Puts out.old out.new at result (array_of (kind_number kind) ∷ kind_number kind ∷ []) }
{
    out[at] = array_of(kind);
    out[at + 1] = kind.number() as u8;
    at + 2
}

fn put_cbor(out: &mut [u8], at: usize, kind: Kind, src: &[u8]) -> usize
    requires { Fits (kind_number kind) src.now × (at + length (put_cbor (kind_number kind) src.now) ≤ length out.old) }
    ensures { Puts out.old out.new at result (put_cbor (kind_number kind) src.now) }
{
    let x = put_opening(out, at, kind);
    if is_bare(kind) {
        return x;
    }
    let y = put_string_head(out, x, src.len());
    put_bytes(out, y, src)
}

fn put_item(out: &mut [u8], at: usize, way: Way, kind: Kind, src: &[u8]) -> usize
    requires { Fits (kind_number kind) src.now × (at + length ((target way).put (kind_number kind) src.now) ≤ length out.old) }
    ensures { Puts out.old out.new at result ((target way).put (kind_number kind) src.now) }
{
    match way {
        Way::Writing => put_cbor(out, at, kind, src),
        Way::Reading => put_piece(out, at, kind, src),
    }
}

// ---- the tree

// `n` bytes out of a room, as `Met` has it.
fn less(room: usize, n: usize) -> usize
    ensures { result ≡ code_of (room_after n (room_of room)) }
{
    room.saturating_sub(n)
}

// Judges the tree at a place, at most `depth` records deep, and takes the room of its other form. Only a Fork's first child is a call: what
// stands in a tree's last place goes on here.
fn judge(s: &[u8], start: usize, depth: usize, room: usize, way: Way) -> Option<Met>
    requires { depth ≤ max_depth }
    ensures { result ≡ met_of (length s.now) (target way) (room_of room) (parse_by (source way) depth (drop start s.now)) }
{
    let mut at = start;
    let mut left = room;
    for below in (0..depth).rev() {
        let item = item_at(s, at, way)?;
        left = less(left, put_len(way, item.kind, item.len));
        at = item.start + item.len;
        match item.kind {
            Kind::Fork => {
                let l = judge(s, at, below, left, way)?;
                at = l.next;
                left = l.room;
            }
            Kind::Labeled => {}
            _ => {
                return Some(Met {
                    next: at,
                    room: left,
                });
            }
        }
    }
    None
}

// Puts the records of a tree in its other form, one after the other; there is room for them. A record's own length says where the next one
// begins, and the law (`Wrote`) is told of what is left there: an iterator for this one loop would say the same twice.
fn put_items(s: &[u8], out: &mut [u8], way: Way) -> usize
    requires { CanPut (target way) out.old (source_of way s.now) }
    ensures { Wrote (target way) out.old out.new result (source_of way s.now) }
{
    let mut at = 0;
    let mut to = 0;
    while at < s.len() {
        let item = item_at(s, at, way).unwrap();
        at = item.start + item.len;
        to = put_item(out, to, way, item.kind, &s[item.start..at]);
    }
    to
}

// Why bytes that are not exactly one tree are refused.
fn refusal(way: Way) -> Refusal
    ensures { result ≡ refusal_of way }
{
    match way {
        Way::Writing => Refusal::Malformed,
        Way::Reading => Refusal::NotCbor,
    }
}

fn exchange(s: &[u8], out: &mut [u8], way: Way) -> Result<usize, Refusal>
    ensures { answered result out.new ≡ exchanged way s.now out.old }
{
    match judge(s, 0, MAX_DEPTH, out.len() + 1, way) {
        Some(met) if met.next == s.len() => {
            if met.room == 0 {
                return Err(Refusal::NoRoom);
            }
            Ok(put_items(s, out, way))
        }
        _ => Err(refusal(way)),
    }
}

// Writes a witness in CBOR.
pub fn write_cbor(witness: &[u8], out: &mut [u8]) -> Result<usize, Refusal>
    ensures { answered result out.new ≡ cbor_written witness.now out.old }
{
    exchange(witness, out, Way::Writing)
}

// Reads a witness in CBOR, and writes it in document 01's form.
pub fn read_cbor(cbor: &[u8], out: &mut [u8]) -> Result<usize, Refusal>
    ensures { answered result out.new ≡ cbor_read cbor.now out.old }
{
    exchange(cbor, out, Way::Reading)
}
