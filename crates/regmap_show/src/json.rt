// One JSON document: a name as it can be typed in again (so that no string needs an escape), bytes in hex.
use crate::counts::{Counts, bare};
use crate::picture::say_quotable;
use crate::records::{OUT, say_kind};
use hash_tree::Kind;
use text::print::{say, say_hex, say_number};
use witness_reader::{Records, Shown};

fn say_hex_string(bytes: &[u8]) {
    say(OUT, b"\"");
    if !bytes.is_empty() {
        say_hex(OUT, bytes);
    }
    say(OUT, b"\"");
}

fn say_name_string(name: &[u8]) {
    say(OUT, b"\"");
    say_quotable(name);
    say(OUT, b"\"");
}

// An entry of a store; a comma before it, unless it is the first.
pub fn entry(first: bool, key: &[u8], value: &[u8]) {
    if !first {
        say(OUT, b",");
    }
    say(OUT, b"\n  {\"name\": ");
    say_name_string(key);
    say(OUT, b", \"value\": ");
    say_hex_string(value);
    say(OUT, b"}");
}

fn say_record(record: Shown) {
    if record.at > 0 {
        say(OUT, b",");
    }
    say(OUT, b"\n  {\"offset\": ");
    say_number(OUT, record.at);
    say(OUT, b", \"kind\": \"");
    say_kind(record.kind);
    say(OUT, b"\"");
    match record.kind {
        Kind::Labeled => {
            say(OUT, b", \"name\": ");
            say_name_string(record.bytes);
        }
        Kind::Leaf | Kind::Pruned => {
            say(OUT, b", \"bytes\": ");
            say_hex_string(record.bytes);
        }
        Kind::Empty | Kind::Fork => {}
    }
    say(OUT, b"}");
}

fn say_verdict(matches: Option<bool>) {
    match matches {
        None => say(OUT, b"null"),
        Some(true) => say(OUT, b"true"),
        Some(false) => say(OUT, b"false"),
    }
}

fn say_count(name: &[u8], n: usize) {
    say(OUT, b", \"");
    say(OUT, name);
    say(OUT, b"\": ");
    say_number(OUT, n);
}

// What `check` and `read` say of a witness that rebuild took, up to its records; `matches` is null where nothing was compared.
fn head(digest: &[u8], matches: Option<bool>, c: Counts) {
    say(OUT, b"{\"rebuilds_to\": ");
    say_hex_string(digest);
    say(OUT, b", \"matches\": ");
    say_verdict(matches);
    say_count(b"shown_with_value", c.values);
    say_count(b"shown_by_name", bare(c));
    say_count(b"hidden", c.hidden);
    say_count(b"hidden_between", c.between);
}

pub fn check(digest: &[u8], same: bool, c: Counts) {
    head(digest, Some(same), c);
    say(OUT, b"}\n");
}

pub fn read(w: &[u8], digest: &[u8], matches: Option<bool>, c: Counts) {
    head(digest, matches, c);
    say(OUT, b", \"records\": [");
    for record in Records::new(w) {
        say_record(record);
    }
    say(OUT, b"\n]}\n");
}
