// A witness and a place in it: a struct that holds the slice, for reading record after record, parent first.
// The work is done in hash_tree; each function here takes the struct apart. The iterator reads by them.
#![tactic(auto)]

ghost use Rattle.std.specs.Prelude.{◌≡◌, ◌-◌, false, length, drop};
ghost use Rattle.std.specs.Iterator.{at_most};
ghost use Rattle.hash_tree.specs.Record.{record_of, place_after};

use hash_tree::{Kind, Record};

#[derive(Clone, Copy)]
pub struct Witness<'a> {
    pub src: &'a [u8],
    pub at: usize,
}

pub fn open<'a>(src: &'a [u8], at: usize) -> Witness<'a>
    ensures { (result.src ≡ src.entry) × (result.at ≡ at) }
{
    Witness { src, at }
}

// The record that stands at the place; none if it is malformed.
pub fn here<'a>(w: Witness<'a>) -> Option<Record>
    ensures { result ≡ record_of (drop w.entry.at w.entry.src.now) }
{
    hash_tree::record_at(w.src, w.at)
}

// The same witness past that record's head and bytes; at the same place if the record is malformed.
pub fn next<'a>(w: Witness<'a>) -> Witness<'a>
    ensures { (result.src ≡ w.entry.src) × (result.at ≡ place_after w.entry.src.now w.entry.at) }
{
    let at = hash_tree::next_at(w.src, w.at);
    Witness { src: w.src, at }
}

// The record at a place of a plain slice, and the place after it: whoever calls these needs no struct.
pub fn record_from(src: &[u8], at: usize) -> Option<Record>
    ensures { result ≡ record_of (drop at src.now) }
{
    here(open(src, at))
}

pub fn place_after(src: &[u8], at: usize) -> usize
    ensures { result ≡ place_after src.now at }
{
    let w = next(open(src, at));
    w.at
}

// ---- record after record

// A record of a witness: its place, its kind, its own bytes, whether it stands under a label, and the place after it.
#[derive(Clone, Copy)]
pub struct Shown<'a> {
    pub at: usize,
    pub kind: Kind,
    pub bytes: &'a [u8],
    pub labeled: bool,
    pub end: usize,
}

// What is left of a witness: its records from a place on, each once, up to the first that is malformed; and whether the record before
// them is a label.
#[derive(Drop)]
pub struct Records<'a> {
    pub src: &'a [u8],
    pub at: usize,
    labeled: bool,
}

impl<'a> Records<'a> {
    pub fn new(src: &'a [u8]) -> Records<'a>
        ensures src { result.src ≡ src.entry }
        ensures start { (result.at ≡ 0) × (result.labeled ≡ false) }
    {
        Records::starting_at(src, 0)
    }

    pub fn starting_at(src: &'a [u8], at: usize) -> Records<'a>
        ensures src { result.src ≡ src.entry }
        ensures start { (result.at ≡ at) × (result.labeled ≡ false) }
    {
        Records {
            src,
            at,
            labeled: false,
        }
    }
}

impl<'a> Iterator for Records<'a> {
    ghost use Rattle.witness_reader.specs.Shown.{StepsTo};

    type Item = Shown<'a>;

    ghost next_gives = { StepsTo };

    ghost remaining = { λ s. at_most (length s.src.now - s.at) };

    fn next(&mut self) -> Option<Shown<'a>> {
        let Record { kind, len } = record_from(self.src, self.at)?;
        let at = self.at;
        let from = at + 2;
        let end = place_after(self.src, at);
        let labeled = self.labeled;
        self.at = end;
        self.labeled = kind == Kind::Labeled;
        Some(Shown {
            at,
            kind,
            bytes: &self.src[from..from + len],
            labeled,
            end,
        })
    }
}
