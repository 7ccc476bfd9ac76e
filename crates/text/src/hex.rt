// Names and values as a person writes them, and decimal numbers.
ghost use Rattle.std.specs.Prelude.{◌≡◌, ◌<◌, ◌≤◌, [], IfSome};
ghost use Rattle.text.specs.Words.{part_of};
ghost use Rattle.text.specs.Hex.{digit_of, joined_of, few_of, with_byte, pairs_of, value_of, name_of, appended_to, decimal_of};

use crate::words::{is, part};

// A few bytes: the longest value that a store takes, and one more, so that what is too long still is.
pub const FEW: usize = 65;

// The first `len` bytes are meant. A buffer with its length beside it, since nothing here has a heap.
#[derive(Clone, Copy, Debug, PartialEq, Eq)]
pub struct Few {
    pub len: usize,
    pub bytes: [u8; FEW],
}

impl Few {
    pub fn as_slice(&self) -> &[u8]
        ensures { result.now ≡ part_of self.now.bytes 0 self.now.len }
    {
        part(&self.bytes, 0, self.len)
    }
}

// No byte.
#[tactic(auto, unfolding(crate::specs::Hex::few_of, crate::specs::Hex::padded))]
pub fn none() -> Few
    ensures { result ≡ few_of [] }
{
    Few {
        len: 0,
        bytes: [0u8; FEW],
    }
}

// One byte more, if there is room for it.
#[tactic(auto, unfolding(crate::specs::Hex::with_byte))]
fn with(few: Few, b: u8) -> Few
    ensures { result ≡ with_byte few b }
{
    let mut more = few;
    if few.len < FEW {
        more.bytes[few.len] = b;
        more.len += 1;
    }
    more
}

// What a digit stands for.
#[tactic(auto, unfolding(crate::specs::Hex::digit_of))]
fn digit(b: u8) -> Option<u8>
    ensures value { result ≡ digit_of b }
    ensures below_16 { IfSome result (λ d. d < 16) }
{
    match b {
        b'0'..=b'9' => Some(b - b'0'),
        b'a'..=b'f' => Some(b - b'a' + 10),
        b'A'..=b'F' => Some(b - b'A' + 10),
        _ => None,
    }
}

// The byte of two digits.
#[tactic(auto, unfolding(crate::specs::Hex::joined_of))]
pub fn joined(high: u8, low: u8) -> Option<u8>
    ensures { result ≡ joined_of high low }
{
    Some(digit(high)? * 16 + digit(low)?)
}

// The bytes that pairs of hex digits stand for, the first 65 of them.
fn pairs(word: &[u8]) -> Option<Few>
    ensures { result ≡ pairs_of word.now }
{
    let mut few = none();
    for pair in word.chunks(2) {
        let [high, low] = pair else {
            return None;
        };
        few = with(few, joined(*high, *low)?);
    }
    Some(few)
}

// A value: hex, `-` for no byte.
#[tactic(auto, unfolding(crate::specs::Hex::value_of))]
pub fn value(word: &[u8]) -> Option<Few>
    ensures value { result ≡ value_of word.now }
    ensures len_bound { IfSome result (λ few. few.len ≤ 65) }
{
    if is(word, b"-") {
        return Some(none());
    }
    if word.is_empty() {
        return None;
    }
    pairs(word)
}

// The first 65 bytes of a word as they are.
fn plain(word: &[u8]) -> Few
    ensures { result ≡ few_of word.now }
{
    let len = word.len().min(FEW);
    let mut bytes = [0u8; FEW];
    bytes[..len].copy_from_slice(&word[..len]);
    Few { len, bytes }
}

// A name: as it is, or `hex:` and hex digits. `hex:` alone is the name of no byte.
#[tactic(auto, unfolding(crate::specs::Hex::name_of, crate::specs::Hex::says_hex))]
pub fn name(word: &[u8]) -> Option<Few>
    ensures value { result ≡ name_of word.now }
    ensures len_bound { IfSome result (λ few. few.len ≤ 65) }
{
    if is(part(word, 0, 4), b"hex:") {
        return pairs(part(word, 4, word.len()));
    }
    if word.is_empty() {
        return None;
    }
    Some(plain(word))
}

// ---- numbers

// The number with one digit more, as long as it fits.
#[tactic(auto, unfolding(crate::specs::Hex::appended_to))]
fn appended(n: u64, b: u8) -> Option<u64>
    ensures { result ≡ appended_to n b }
{
    match b {
        b'0'..=b'9' => n.checked_mul(10)?.checked_add(u64::from(b - b'0')),
        _ => None,
    }
}

pub fn decimal(word: &[u8]) -> Option<u64>
    ensures { result ≡ decimal_of word.now }
{
    if word.is_empty() {
        return None;
    }
    let mut n = 0;
    for b in word {
        n = appended(n, *b)?;
    }
    Some(n)
}
