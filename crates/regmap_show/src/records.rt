// Every record on a line, in the order of the file, indented by its depth.
use hash_tree::{Kind, MAX_DEPTH};
use text::print::{is_plain, say, say_hex, say_name, say_number};
use text::words::part;
use witness_reader::{Records, Shown};

pub const OUT: i32 = 1;

const SPACES: [u8; 128] = [b' '; 128];

pub(crate) fn say_kind(kind: Kind) {
    match kind {
        Kind::Empty => say(OUT, b"Empty"),
        Kind::Fork => say(OUT, b"Fork"),
        Kind::Labeled => say(OUT, b"Labeled"),
        Kind::Leaf => say(OUT, b"Leaf"),
        Kind::Pruned => say(OUT, b"Pruned"),
    }
}

// How many digits a number has.
fn width(n: usize) -> usize {
    match n.checked_ilog10() {
        Some(power) => power as usize + 1,
        None => 1,
    }
}

// A number with spaces before it, `most` wide.
fn say_right(n: usize, most: usize) {
    say(OUT, part(&SPACES, 0, most.saturating_sub(width(n))));
    say_number(OUT, n);
}

fn say_leaf(bytes: &[u8]) {
    say_hex(OUT, bytes);
    if is_plain(bytes) {
        say(OUT, b"  \"");
        say(OUT, bytes);
        say(OUT, b"\"");
    }
}

fn say_hidden(bytes: &[u8], labeled: bool) {
    say_hex(OUT, bytes);
    if labeled {
        return say(OUT, b"  HIDDEN: its value");
    }
    say(OUT, b"  HIDDEN: one register or more");
}

// What a record has of its own, after a space.
fn say_bytes(record: Shown) {
    match record.kind {
        Kind::Empty | Kind::Fork => {}
        Kind::Labeled => {
            say(OUT, b" ");
            say_name(OUT, record.bytes);
        }
        Kind::Leaf => {
            say(OUT, b" ");
            say_leaf(record.bytes);
        }
        Kind::Pruned => {
            say(OUT, b" ");
            say_hidden(record.bytes, record.labeled);
        }
    }
}

fn say_record(depth: usize, record: Shown) {
    say_right(record.at, 6);
    say_right(depth, 6);
    say_right(record.bytes.len(), 7);
    if depth <= 64 {
        say(OUT, part(&SPACES, 0, depth * 2));
    }
    say_kind(record.kind);
    say_bytes(record);
    say(OUT, b"\n");
}

// A place that makes no sense, and why.
#[derive(Clone, Copy)]
struct Malformed {
    at: usize,
    why: &'static [u8],
}

// Shows the tree that is next, up to the first place that makes no sense.
fn tree(left: &mut Records, depth: usize) -> Result<(), Malformed> {
    if MAX_DEPTH < depth {
        return Err(Malformed {
            at: left.at,
            why: b": nested more than 64 records deep\n",
        });
    }
    let Some(record) = left.next() else {
        return Err(no_record(left.src, left.at));
    };
    say_record(depth, record);
    match record.kind {
        Kind::Fork => {
            tree(left, depth + 1)?;
            tree(left, depth + 1)
        }
        Kind::Labeled => tree(left, depth + 1),
        Kind::Empty | Kind::Leaf | Kind::Pruned => Ok(()),
    }
}

// Why there is no record at a place.
fn no_record(w: &[u8], at: usize) -> Malformed {
    let why: &'static [u8] = match part(w, at, w.len()) {
        [] | [_] => b": no record: the file ends here\n",
        [kind, ..] if 159 < *kind => b": no record: its kind is above 4\n",
        _ =>
            b": no record: its length is none that its kind may have, or the file ends within it\n",
    };
    Malformed { at, why }
}

// The one tree that a file is, with nothing after it.
fn whole(w: &[u8]) -> Result<(), Malformed> {
    let mut left = Records::new(w);
    tree(&mut left, 1)?;
    if left.at < w.len() {
        return Err(Malformed {
            at: left.at,
            why: b": the tree ends here, and more bytes follow\n",
        });
    }
    Ok(())
}

// The whole file, to standard output.
pub fn read(w: &[u8]) {
    say(OUT, b"offset depth length  record\n");
    if let Err(bad) = whole(w) {
        say_right(bad.at, 6);
        say(OUT, bad.why);
    }
}
