// One name asked of a witness, for a person: a line that says what is known of it. To be asked of a file that matched its root digest.
#![tactic(auto)]

use answers::Refusal;
use hash_tree::{Kind, MAX_DEPTH, tree_at};
use key_order::below;
use lookup::{Looked, lookup};
use text::print::{say, say_hex, say_name};
use text::words::piece;
use witness_reader::Records;

const OUT: i32 = 1;

// What an answer comes to: known, or not to be told from this witness.
#[derive(Clone, Copy, PartialEq, Eq)]
pub enum Told {
    Known,
    Silent,
}

// ---- the names beside the one that is asked for

// The last name below and the first above, if there are such.
#[derive(Clone, Copy)]
struct Beside<'a> {
    low: Option<&'a [u8]>,
    high: Option<&'a [u8]>,
}

// The names of the top level, one after the other; what stands under a label is passed over.
fn names_beside<'a>(w: &'a [u8], key: &[u8]) -> Beside<'a> {
    let mut low = None;
    let mut high = None;
    let mut past = 0;
    for record in Records::new(w) {
        if record.kind == Kind::Labeled && past <= record.at {
            if below(record.bytes, key) {
                low = Some(record.bytes);
            } else {
                high = high.or(Some(record.bytes));
            }
            past = tree_at(w, record.end, MAX_DEPTH).unwrap_or(w.len());
        }
    }
    Beside { low, high }
}

// ---- what is said

// Where the name would stand: between which two, before or after which one.
fn say_place(beside: Beside) {
    match (beside.low, beside.high) {
        (Some(low), Some(high)) => {
            say(OUT, b"between ");
            say_name(OUT, low);
            say(OUT, b" and ");
            say_name(OUT, high);
        }
        (Some(low), None) => {
            say(OUT, b"after ");
            say_name(OUT, low);
        }
        (None, Some(high)) => {
            say(OUT, b"before ");
            say_name(OUT, high);
        }
        (None, None) => say(OUT, b"anywhere"),
    }
}

fn say_found(key: &[u8], child: &[u8]) {
    say_name(OUT, key);
    match Records::new(child).next() {
        None => say(OUT, b" is a register\n"),
        Some(record) if record.kind == Kind::Leaf => {
            say(OUT, b" = ");
            say_hex(OUT, record.bytes);
            say(OUT, b"\n");
        }
        Some(_) => say(OUT, b" is a register, its value is hidden\n"),
    }
}

fn say_absent(w: &[u8], key: &[u8]) {
    say(OUT, b"there is no register ");
    say_name(OUT, key);
    let beside = names_beside(w, key);
    if beside.low.is_none() && beside.high.is_none() {
        return say(OUT, b": the map is empty\n");
    }
    say(OUT, b": it would stand ");
    say_place(beside);
    say(OUT, b"\n");
}

fn say_unknown(w: &[u8], key: &[u8]) {
    say(OUT, b"this witness does not say: something is hidden ");
    say_place(names_beside(w, key));
    say(OUT, b"\n");
}

// Says what the witness says of the key, unless lookup refuses it.
pub fn ask(w: &[u8], key: &[u8]) -> Result<Told, Refusal> {
    match lookup(w, key)? {
        Looked::Found { at, length } => {
            say_found(key, piece(w, at, length));
            Ok(Told::Known)
        }
        Looked::Absent => {
            say_absent(w, key);
            Ok(Told::Known)
        }
        Looked::Unknown => {
            say_unknown(w, key);
            Ok(Told::Silent)
        }
    }
}
