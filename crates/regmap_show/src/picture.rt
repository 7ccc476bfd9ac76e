// A picture for Graphviz: the tree above; names and hidden parts on one line below it, in their order; values under their names. Between
// two names with nothing hidden between them stands an edge that says so.
use crate::counts::is_item;
use crate::records::{OUT, say_kind};
use hash_tree::{Kind, MAX_DEPTH};
use text::print::{is_plain, say, say_hex, say_number};
use text::words::part;
use witness_reader::{Records, Shown};

// Whether a name can stand between quotes as it is.
fn is_quotable(name: &[u8]) -> bool {
    is_plain(name) && !name.contains(&b'"') && !name.contains(&b'\\')
}

// A name between quotes: as it is, or `hex:` and its bytes in hex.
pub(crate) fn say_quotable(name: &[u8]) {
    if is_quotable(name) {
        return say(OUT, name);
    }
    say(OUT, b"hex:");
    if !name.is_empty() {
        say_hex(OUT, name);
    }
}

// What a record has of its own, on a line below its kind.
fn draw_bytes(record: Shown) {
    match record.kind {
        Kind::Empty | Kind::Fork => {}
        Kind::Labeled => {
            say(OUT, b"\\n");
            say_quotable(record.bytes);
        }
        Kind::Leaf => {
            say(OUT, b"\\n");
            say_hex(OUT, record.bytes);
        }
        Kind::Pruned => {
            say(OUT, b"\\n");
            say_hex(OUT, part(record.bytes, 0, 4));
        }
    }
}

fn draw_style(record: Shown) {
    match record.kind {
        Kind::Labeled => say(OUT, b"\", style=bold];\n"),
        Kind::Pruned => {
            if record.labeled {
                say(OUT, b"..\\nits value, ");
            } else {
                say(OUT, b"..\\nregisters, ");
            }
            say(OUT, b"hidden\", style=filled, fillcolor=gray80];\n");
        }
        _ => say(OUT, b"\"];\n"),
    }
}

fn draw_edge(from: usize, to: usize) {
    say(OUT, b"  r");
    say_number(OUT, from);
    say(OUT, b" -> r");
    say_number(OUT, to);
}

fn draw_record(record: Shown) {
    say(OUT, b"  r");
    say_number(OUT, record.at);
    say(OUT, b" [label=\"");
    say_kind(record.kind);
    draw_bytes(record);
    draw_style(record);
}

// Draws the tree that is next, below the record that stands at its parent's place.
fn tree(left: &mut Records, depth: usize, parent: Option<usize>) {
    if MAX_DEPTH < depth {
        return;
    }
    let Some(record) = left.next() else {
        return;
    };
    draw_record(record);
    if let Some(above) = parent {
        draw_edge(above, record.at);
        say(OUT, b";\n");
    }
    match record.kind {
        Kind::Fork => {
            tree(left, depth + 1, Some(record.at));
            tree(left, depth + 1, Some(record.at));
        }
        Kind::Labeled => tree(left, depth + 1, Some(record.at)),
        Kind::Empty | Kind::Leaf | Kind::Pruned => {}
    }
}

// ---- the line of names and hidden parts

fn draw_step(from: Shown, to: Shown) {
    draw_edge(from.at, to.at);
    if from.kind == Kind::Labeled && to.kind == Kind::Labeled {
        return say(
            OUT,
            b" [style=dashed, dir=none, fontname=monospace, label=\"nothing between\"];\n",
        );
    }
    say(OUT, b" [style=invis];\n");
}

fn steps(w: &[u8]) {
    let mut last = None;
    for item in Records::new(w).filter(|record| is_item(*record)) {
        if let Some(before) = last {
            draw_step(before, item);
        }
        last = Some(item);
    }
}

// A witness that rebuild took, to standard output; the digest that it rebuilds to, and whether that was compared.
pub fn dot(w: &[u8], digest: &[u8], compared: bool) {
    say(
        OUT,
        b"digraph witness {\n  ordering=out; node [shape=box, fontname=monospace]; labelloc=t; fontname=monospace;\n  label=\"",
    );
    if compared {
        say(OUT, b"matches the root digest ");
    } else {
        say(OUT, b"rebuilds to, compared with nothing: ");
    }
    say_hex(OUT, digest);
    say(OUT, b"\";\n");
    tree(&mut Records::new(w), 1, None);
    say(OUT, b"  { rank=same;\n");
    steps(w);
    say(OUT, b"  }\n}\n");
}
