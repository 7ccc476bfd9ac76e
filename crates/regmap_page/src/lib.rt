// A witness that rebuild took as one page of HTML with no script in it: the verdict, what is shown, hidden and proved to be empty, in the
// order of names, and the tree as SVG: names and hidden parts one below the other, the tree to their left.
#![tactic(auto)]

use hash_tree::{Kind, MAX_DEPTH};
use regmap_show::counts::{counted, is_item, say_counts};
use text::print::{is_plain, say, say_hex, say_number, say3};
use witness_reader::{Records, Shown};

const OUT: i32 = 1;

// ---- names and values

fn say_letter(b: u8) {
    match b {
        b'<' => say(OUT, b"&lt;"),
        b'>' => say(OUT, b"&gt;"),
        b'&' => say(OUT, b"&amp;"),
        _ => say(OUT, &[b]),
    }
}

fn say_label(name: &[u8]) {
    if is_plain(name) {
        for b in name {
            say_letter(*b);
        }
        return;
    }
    say(OUT, b"hex:");
    if !name.is_empty() {
        say_hex(OUT, name);
    }
}

// The record that stands under a label.
fn child<'a>(w: &'a [u8], label: Shown) -> Option<Shown<'a>> {
    Records::starting_at(w, label.end).next()
}

// What stands under a label: its value, or that it is hidden.
fn say_value(child: Option<Shown>) {
    match child {
        Some(record) if record.kind == Kind::Leaf => say_hex(OUT, record.bytes),
        Some(record) if record.kind == Kind::Pruned => say(OUT, b"value hidden"),
        _ => say(OUT, b"a tree"),
    }
}

// ---- the list

// What is proved to be empty before an item.
fn row_gap(last: Option<Shown>, item: Shown) {
    if item.kind != Kind::Labeled {
        return;
    }
    match last {
        None => say(OUT, b"<tr class=gap><td colspan=2>nothing before\n"),
        Some(before) if before.kind == Kind::Labeled => {
            say(OUT, b"<tr class=gap><td colspan=2>nothing between\n")
        }
        _ => {}
    }
}

fn row(w: &[u8], item: Shown) {
    if item.kind == Kind::Pruned {
        return say(
            OUT,
            b"<tr class=hidden><td>hidden<td>one register or more\n",
        );
    }
    say(OUT, b"<tr><td><b>");
    say_label(item.bytes);
    say(OUT, b"</b><td>");
    say_value(child(w, item));
    say(OUT, b"\n");
}

fn rows(w: &[u8]) {
    let mut last = None;
    for item in Records::new(w).filter(|record| is_item(*record)) {
        row_gap(last, item);
        row(w, item);
        last = Some(item);
    }
    if last.is_some_and(|item| item.kind == Kind::Labeled) {
        say(OUT, b"<tr class=gap><td colspan=2>nothing after\n");
    }
}

// ---- the tree

// Where the names stand, and how far from each other; how far a level is from the next.
const COLUMN: usize = 340;

const STEP: usize = 30;

const LEVEL: usize = 14;

fn across(depth: usize) -> usize {
    depth.min(23) * LEVEL
}

// Where a row stands. The tree of a long file can have more, which stand at the top, as they did: `html` writes what it wrote of any file.
fn down(row: usize) -> usize {
    if row < 100_000 { row * STEP + 20 } else { 0 }
}

fn line(x: usize, y: usize, to_x: usize, to_y: usize) {
    say(OUT, b"<path d=\"M");
    say_number(OUT, x);
    say(OUT, b" ");
    say_number(OUT, y);
    say(OUT, b"L");
    say_number(OUT, to_x);
    say(OUT, b" ");
    say_number(OUT, to_y);
    say(OUT, b"\"/>\n");
}

fn word_at(class: &[u8], x: usize, y: usize) {
    say3(OUT, b"<text class=", class, b" x=");
    say_number(OUT, x);
    say(OUT, b" y=");
    say_number(OUT, y);
    say(OUT, b">");
}

fn draw_gap(y: usize) {
    if y < 15 {
        return;
    }
    word_at(b"gap", COLUMN + 20, y - 10);
    say(OUT, b"nothing between</text>\n");
}

// An item of the tree; what stands under it, if it is a label.
fn draw_item(item: Shown, child: Option<Shown>, y: usize) {
    let line = y.saturating_add(5);
    match item.kind {
        Kind::Pruned => {
            word_at(b"hidden", COLUMN + 4, line);
            say(OUT, b"hidden: one register or more</text>\n");
        }
        Kind::Labeled => {
            word_at(b"name", COLUMN + 4, line);
            say_label(item.bytes);
            say(OUT, b" <tspan class=value>");
            say_value(child);
            say(OUT, b"</tspan></text>\n");
        }
        _ => {
            word_at(b"name", COLUMN + 4, line);
            say(OUT, b"no register</text>\n");
        }
    }
}

// What of a tree was drawn: the rows that are taken, the height of the last tree, and the kind of the last item.
#[derive(Clone, Copy, Default)]
struct Drawn {
    row: usize,
    y: usize,
    last: Option<Kind>,
}

// The tree under a label is a value or hidden in a store's witness: one record.
fn draw_leaf(left: &mut Records, item: Shown, depth: usize, from: Drawn) -> Drawn {
    let y = down(from.row);
    if from.last == Some(Kind::Labeled) && item.kind == Kind::Labeled {
        draw_gap(y);
    }
    line(across(depth), y, COLUMN, y);
    let child = if item.kind == Kind::Labeled {
        left.next()
    } else {
        None
    };
    draw_item(item, child, y);
    Drawn {
        row: from.row.saturating_add(1),
        y,
        last: Some(item.kind),
    }
}

// Draws the tree that is next, below the level `depth`.
fn tree(left: &mut Records, depth: usize, from: Drawn) -> Drawn {
    if MAX_DEPTH < depth {
        return from;
    }
    let Some(record) = left.next() else {
        return from;
    };
    if record.kind != Kind::Fork {
        return draw_leaf(left, record, depth, from);
    }
    let low = tree(left, depth + 1, from);
    let high = tree(left, depth + 1, low);
    let y = low.y.midpoint(high.y);
    line(across(depth + 1), low.y, across(depth + 1), high.y);
    line(across(depth), y, across(depth + 1), y);
    Drawn { y, ..high }
}

fn drawing(w: &[u8], rows: usize) {
    say(
        OUT,
        b"<svg xmlns=\"http://www.w3.org/2000/svg\" width=1000 height=",
    );
    say_number(OUT, down(rows));
    say(OUT, b">\n");
    tree(&mut Records::new(w), 0, Drawn::default());
    say(OUT, b"</svg>\n");
}

// ---- the page

fn verdict(digest: &[u8], matches: Option<bool>) {
    match matches {
        None => say(
            OUT,
            b"<p class=open>Compared with nothing. It rebuilds to<br><code>",
        ),
        Some(true) => say(OUT, b"<p class=good>It matches the root digest<br><code>"),
        Some(false) => say(
            OUT,
            b"<p class=bad>It does NOT match the digest given: do not use it. It rebuilds to<br><code>",
        ),
    }
    say_hex(OUT, digest);
    say(OUT, b"</code>\n");
}

const HEAD: [u8; 655] = *b"<!doctype html>
<html lang=en><meta charset=utf-8><title>A witness</title>
<style>
body { font: 15px sans-serif; margin: 2em; max-width: 70em }
code, td, text { font-family: monospace; font-size: 14px }
td { padding: 2px 1em 2px 0 } .gap td { color: #06c; font-style: italic; padding-left: 2em } .hidden td { color: #777 }
p { padding: 0.6em; background: #eee } .good { background: #cfc } .bad { background: #fcc; font-weight: bold }
path { stroke: #999; fill: none } .name { font-weight: bold } .value { font-weight: normal; fill: #333 }
text.hidden { fill: #777 } text.gap { fill: #06c; font-style: italic; font-size: 11px }
</style>
<h1>A witness</h1>
";

// To standard output.
pub fn page(w: &[u8], digest: &[u8], matches: Option<bool>) {
    say(OUT, &HEAD);
    verdict(digest, matches);
    let c = counted(w);
    say(OUT, b"<p>");
    say_counts(OUT, c);
    say(OUT, b"<h2>In the order of names</h2>\n<table>\n");
    rows(w);
    say(OUT, b"</table>\n<h2>The tree</h2>\n");
    drawing(w, items(c.labels, c.hidden));
    say(OUT, b"</html>\n");
}

// How many rows the picture is made for. The bounds stay as they were, so that `html` writes what it wrote of any file.
fn items(labels: usize, hidden: usize) -> usize {
    if 50_000 < labels {
        return labels;
    }
    if hidden < 50_000 {
        labels + hidden
    } else {
        hidden
    }
}
