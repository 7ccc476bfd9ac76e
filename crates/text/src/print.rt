// What a program prints, straight to a file descriptor.
ghost use Rattle.std.specs.Prelude.{◌≡◌};
ghost use Rattle.text.specs.Hex.{all_printable, glyph_of, is_plain};

use crate::words::{is, part};
use std_io::io::last_error;

pub fn say(to: i32, s: &[u8]) {
    io::write_all(to, s);
}

// Linux's number for a write that nobody reads any more.
const EPIPE: i32 = 32;

// Whether the last call that failed was such a write. The system's signal for it ended a program; std's start keeps that signal away, so a
// program asks, and ends by itself.
pub fn is_unread() -> bool {
    matches!(last_error().raw_os_error(), Some(EPIPE))
}

// The exit status that a shell gives a program which that signal ended.
pub const UNREAD: u8 = 141;

// Three texts, one after the other.
pub fn say3(to: i32, a: &[u8], b: &[u8], c: &[u8]) {
    say(to, a);
    say(to, b);
    say(to, c);
}

pub fn say_number(to: i32, n: usize) {
    io::print_decimal(to, n as u64);
}

#[tactic(auto, unfolding(crate::specs::Hex::glyph_of))]
fn glyph(n: u8) -> u8
    ensures { result ≡ glyph_of n }
{
    if n < 10 {
        return b'0' + n;
    }
    b'a' + (n - 10) % 16
}

// The digits of any bytes, 4,096 digits at a time.
fn digits(to: i32, s: &[u8]) {
    let mut text = [0u8; 4096];
    for part in s.chunks(2048) {
        for (pair, b) in text.chunks_exact_mut(2).zip(part) {
            pair[0] = glyph(*b / 16);
            pair[1] = glyph(*b % 16);
        }
        say(to, &text[..2 * part.len()]);
    }
}

// Bytes in hex; `-` if there are none.
pub fn say_hex(to: i32, s: &[u8]) {
    if s.is_empty() {
        return say(to, b"-");
    }
    digits(to, s);
}

// Bytes in hex, with a text before and one after.
pub fn say_with_hex(to: i32, before: &[u8], s: &[u8], after: &[u8]) {
    say(to, before);
    say_hex(to, s);
    say(to, after);
}

fn all_printable(s: &[u8]) -> bool
    ensures { result ≡ all_printable s.now }
{
    s.iter().all(|b| matches!(*b, b'!'..=b'~'))
}

// Whether a name stands for itself in a line of words.
#[tactic(auto, unfolding(crate::specs::Hex::is_plain, crate::specs::Hex::says_hex))]
pub fn is_plain(s: &[u8]) -> bool
    ensures { result ≡ is_plain s.now }
{
    if s.is_empty() {
        return false;
    }
    if s[0] == b'#' {
        return false;
    }
    !is(part(s, 0, 4), b"hex:") && all_printable(s)
}

// A name as it can be typed in again: as it is, or in hex.
pub fn say_name(to: i32, s: &[u8]) {
    if is_plain(s) {
        return say(to, s);
    }
    say(to, b"hex:");
    digits(to, s);
}
