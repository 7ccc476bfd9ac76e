// Lines of answer, on standard output.
use answers::Refusal;
use lookup::Looked;
use replay::Replayed;
use search::Place;
use text::print::{say, say_hex};
use text::words::part;

// ---- parts of a line

const STDOUT_FILENO: i32 = 1;

fn put(s: &[u8]) {
    say(STDOUT_FILENO, s);
}

fn number(n: usize) {
    text::print::say_number(STDOUT_FILENO, n);
}

fn hex(s: &[u8]) {
    say_hex(STDOUT_FILENO, s);
}

// A space and a number.
fn next(n: usize) {
    put(b" ");
    number(n);
}

fn end() {
    put(b"\n");
}

// Puts the number of an answer, and gives what it holds; `none`, where it is refused.
fn held<T: Copy>(answer: Result<T, Refusal>, none: T) -> T {
    match answer {
        Ok(value) => {
            number(0);
            value
        }
        Err(refusal) => {
            number(refusal.number());
            none
        }
    }
}

// ---- lines

pub(crate) fn say_ok() {
    put(b"ok\n");
}

// A line that it does not know, bad hex, a number that does not fit.
pub(crate) fn say_unknown() {
    put(b"?\n");
}

pub(crate) fn say_done(answer: Result<(), Refusal>) {
    held(answer, ());
    end();
}

pub(crate) fn say_count(answer: Result<usize, Refusal>) {
    next(held(answer, 0));
    end();
}

// How many records found no room, and how many no entry of their key.
pub(crate) fn say_replayed(answer: Result<Replayed, Refusal>) {
    let ran = held(answer, Replayed { full: 0, absent: 0 });
    next(ran.full);
    next(ran.absent);
    end();
}

pub(crate) fn say_whether(answer: Result<bool, Refusal>) {
    put(if held(answer, false) {
        b" yes\n"
    } else {
        b" no\n"
    });
}

pub(crate) fn say_found(answer: Result<Place, Refusal>) {
    let nowhere = Place {
        key_at: 0,
        key_length: 0,
        value_at: 0,
        value_length: 0,
    };
    let place = held(answer, nowhere);
    next(place.key_at);
    next(place.key_length);
    next(place.value_at);
    next(place.value_length);
    end();
}

// What a witness says of a key, and where the child of its label lies.
pub(crate) fn say_looked(answer: Result<Looked, Refusal>) {
    match held(answer.map(Some), None) {
        Some(Looked::Found { at, length }) => {
            put(b" found");
            next(at);
            next(length);
            end();
        }
        Some(Looked::Absent) => put(b" absent 0 0\n"),
        Some(Looked::Unknown) => put(b" unknown 0 0\n"),
        None => put(b" refused 0 0\n"),
    }
}

pub(crate) fn say_bytes(s: &[u8]) {
    hex(s);
    end();
}

pub(crate) fn say_digest(answer: Result<[u8; 32], Refusal>) {
    let digest = held(answer, [0u8; 32]);
    put(b" ");
    say_bytes(&digest);
}

// A witness, and how many bytes past it are touched.
pub(crate) fn say_witness(answer: Result<usize, Refusal>, output: &[u8], touched: usize) {
    let size = held(answer, 0);
    next(size);
    put(b" ");
    hex(part(output, 0, size));
    next(touched);
    end();
}
