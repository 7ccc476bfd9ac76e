// The words of a line: parted by zero bytes, which stand for blanks (`blanked`).
ghost use Rattle.std.specs.Prelude.{◌≡◌, ◌≤◌, ◌<◌, length, IfSome};
ghost use Rattle.io.specs.Counts.{IsPrefixLen};
ghost use Rattle.text.specs.Words.{within_of, part_of, piece_of, same_bytes, unblank_of, blanked_of, place_of, skip_of, start_of, word_of, rest_of, has_words, index_in};

use key_order::same;

// `n`, where the slice has that many bytes; else 0.
pub fn within(n: usize, s: &[u8]) -> usize
    ensures prefix_len { IsPrefixLen result s.now }
    ensures value { result ≡ within_of n s.now }
{
    if n <= s.len() { n } else { 0 }
}

// The bytes from `from` up to `to`; none, where they are not all there.
pub fn part(s: &[u8], from: usize, to: usize) -> &[u8]
    ensures { result.now ≡ part_of s.now from to }
{
    s.get(from..to).unwrap_or(&s[..0])
}

// The `len` bytes that begin at `from`; none, where they are not all there.
pub fn piece(s: &[u8], from: usize, len: usize) -> &[u8]
    ensures { result.now ≡ piece_of s.now from len }
{
    if from <= s.len() {
        return part(&s[from..], 0, len);
    }
    &s[..0]
}

pub fn is(word: &[u8], name: &[u8]) -> bool
    ensures { result ≡ same_bytes word.now name.now }
{
    same(word, name)
}

fn unblank(b: u8) -> u8
    ensures { result ≡ unblank_of b }
{
    match b {
        b' ' | b'\t' | b'\r' => 0,
        _ => b,
    }
}

// Puts zeros for blanks: space, tab and carriage return.
pub fn blanked(s: &mut [u8])
    ensures { s.new ≡ blanked_of s.old }
{
    for b in s.iter_mut() {
        *b = unblank(*b);
    }
}

// The place of the first byte from `from` on that is `b`, or the end.
pub fn find(s: &[u8], from: usize, b: u8) -> usize
    requires { from ≤ length s.now }
    ensures lower_bound { (from ≤ result) × (result ≤ length s.now) }
    ensures value { result ≡ place_of s.now from b }
{
    let rest = &s[from..];
    from + rest.iter().position(|x| *x == b).unwrap_or(rest.len())
}

// The place of the first byte from `from` on that is not zero, or the end.
fn skip(s: &[u8], from: usize) -> usize
    requires { from ≤ length s.now }
    ensures lower_bound { (from ≤ result) × (result ≤ length s.now) }
    ensures value { result ≡ skip_of s.now from }
{
    let rest = &s[from..];
    from + rest.iter().position(|x| *x != 0).unwrap_or(rest.len())
}

// Where the word `k` begins, counted from 0; the end, if there are fewer.
fn start(line: &[u8], k: usize) -> usize
    ensures upper_bound { result ≤ length line.now }
    ensures value { result ≡ start_of line.now k }
{
    let mut at = skip(line, 0);
    for _ in 0..k {
        at = skip(line, find(line, at, 0));
    }
    at
}

// The word `k`, counted from 0; no bytes, if there are fewer.
pub fn word(line: &[u8], k: usize) -> &[u8]
    ensures { result.now ≡ word_of line.now k }
{
    let a = start(line, k);
    let e = find(line, a, 0);
    &line[a..e]
}

// The line from the word `k` on.
pub fn rest(line: &[u8], k: usize) -> &[u8]
    ensures { result.now ≡ rest_of line.now k }
{
    let a = start(line, k);
    &line[a..]
}

// Whether the line has exactly `n` words.
pub fn has(line: &[u8], n: usize) -> bool
    ensures { result ≡ has_words line.now n }
{
    if n == 0 {
        return start(line, 0) == line.len();
    }
    start(line, n - 1) < line.len() && start(line, n) == line.len()
}

// Which of the first `count` words of a table it is, if any.
pub fn index(table: &[u8], name: &[u8], count: usize) -> Option<usize>
    ensures upper_bound { IfSome result (λ i. i < count) }
    ensures value { result ≡ index_in table.now name.now count }
{
    (0..count).find(|i| is(word(table, *i), name))
}
