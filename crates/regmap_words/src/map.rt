// A map: a text file with a register a line, NAME HEX. Blanks are zeros by now.
use crate::kinds::name_of;
use text::hex;
use text::hex::Few;
use text::print::{say, say_hex, say_number, say3};
use text::words::{has, is, part, word};

// What is wrong with a line, or keeps it out of the store.
#[derive(Clone, Copy, Debug, PartialEq, Eq)]
pub enum Fault {
    NoValue,
    MoreWords,
    BadName,
    BadValue,
    LongName,
    LongValue,
    Full,
    Twice,
}

#[derive(Clone, Copy, Debug, PartialEq, Eq)]
pub struct Register {
    pub name: Few,
    pub value: Few,
}

fn is_comment(word: &[u8]) -> bool {
    is(part(word, 0, 1), b"#")
}

// Whether a line is neither blank nor a comment.
pub fn register_on(line: &[u8]) -> bool {
    !has(line, 0) && !is_comment(word(line, 0))
}

// Whether the word `k` is not there, or begins a comment.
fn ends_at(line: &[u8], k: usize) -> bool {
    has(line, k) || is_comment(word(line, k))
}

// The register that a line holds, if it holds one.
pub fn register_of(line: &[u8]) -> Result<Option<Register>, Fault> {
    if !register_on(line) {
        return Ok(None);
    }
    let name = name_of(word(line, 0)).ok_or(Fault::BadName)?;
    if ends_at(line, 1) {
        return Err(Fault::NoValue);
    }
    if !ends_at(line, 2) {
        return Err(Fault::MoreWords);
    }
    let value = hex::value(word(line, 1)).ok_or(Fault::BadValue)?;
    Ok(Some(Register { name, value }))
}

// ---- what is said of a line

// The first byte of a word that is not printable.
fn odd_byte(name: &[u8]) -> Option<u8> {
    name.iter().copied().find(|b| !matches!(*b, b'!'..=b'~'))
}

fn say_bad_name(err: i32, name: &[u8]) {
    if is(part(name, 0, 3), b"\xef\xbb\xbf") {
        return say(
            err,
            b"a byte-order mark (ef bb bf) stands before the name: save the file without one.\n",
        );
    }
    match odd_byte(name) {
        None => {
            return say3(
                err,
                b"",
                name,
                b" is no name: after hex: come two hex digits for each byte.\n",
            );
        }
        Some(1) => say(err, b"the name has a zero byte or the byte 01"),
        Some(odd) => {
            say(err, b"the name has the byte ");
            say_hex(err, &[odd]);
        }
    }
    say(
        err,
        b": names are printable ASCII; write any other as hex: and two digits for each byte.\n",
    );
}

fn say_twice(err: i32, name: &[u8], first: usize) {
    say(err, name);
    say(err, b" stood in line ");
    say_number(err, first);
    say(err, b" with another value: keep one of the two lines.\n");
}

// What is wrong with the line and what to do; `first` is where the name stood first.
pub fn say_fault(err: i32, fault: Fault, line: &[u8], first: usize) {
    match fault {
        Fault::NoValue => say3(
            err,
            b"",
            word(line, 0),
            b" has no value: write NAME HEX, or NAME - for an empty value.\n",
        ),
        Fault::MoreWords => say3(
            err,
            b"",
            word(line, 2),
            b" is more than a name and a value: write NAME HEX; a comment begins with #.\n",
        ),
        Fault::BadName => say_bad_name(err, word(line, 0)),
        Fault::BadValue => say3(
            err,
            b"",
            word(line, 1),
            b" is no hex: write two digits for each byte of the value, or - for none.\n",
        ),
        Fault::LongName => say3(
            err,
            b"",
            word(line, 0),
            b" is longer than 48 bytes (2). Shorten it.\n",
        ),
        Fault::LongValue => say3(
            err,
            b"the value of ",
            word(line, 0),
            b" is longer than 64 bytes (3). Shorten it.\n",
        ),
        Fault::Full => say3(
            err,
            b"there is no slot left for ",
            word(line, 0),
            b" (5). Give a larger --capacity; a store takes at most 1024 registers, and a larger map must be split.\n",
        ),
        Fault::Twice => say_twice(err, word(line, 0), first),
    }
}

// ---- the whole text

// A zero byte is no blank: it is made a byte that no name and no value has.
pub fn unzeroed(s: &mut [u8]) {
    for b in s.iter_mut() {
        if *b == 0 {
            *b = 1;
        }
    }
}

// How many lines hold something.
pub fn lines_of(text: &[u8]) -> usize {
    text.split(|b| *b == b'\n')
        .filter(|line| register_on(line))
        .count()
}

// The line with this number, counted from 1.
pub fn line_at(text: &[u8], number: usize) -> &[u8] {
    text.split(|b| *b == b'\n')
        .nth(number.wrapping_sub(1))
        .unwrap_or(&text[..0])
}

// The name that a line begins with; no byte, where it is none.
fn name_on(line: &[u8]) -> Few {
    hex::name(word(line, 0)).unwrap_or(hex::none())
}

// The first line with the name that the line `number` has.
pub fn first_with(text: &[u8], number: usize) -> usize {
    let name = name_on(line_at(text, number));
    text.split(|b| *b == b'\n')
        .position(|line| name_on(line) == name)
        .map_or(number, |i| i + 1)
}

// Whether a comment says how many registers there are, as `list` writes it, and another number: `# 12 registers`.
fn disagrees(line: &[u8], count: usize) -> bool {
    is(word(line, 0), b"#")
        && has(line, 3)
        && is(part(word(line, 2), 0, 8), b"register")
        && hex::decimal(word(line, 1)).is_some_and(|n| n != count as u64)
}

// The first line that says another number of registers than there are, counted from 1.
pub fn miscount(text: &[u8], count: usize) -> Option<usize> {
    text.split(|b| *b == b'\n')
        .position(|line| disagrees(line, count))
        .map(|i| i + 1)
}
