// Bytes in lowercase hex.
ghost use Rattle.std.specs.Prelude.{◌≤◌, length, IfSome};

use text::hex::joined;
use text::words::is;

// The bytes that a word stands for, put in its own front; `-` stands for none.
pub(crate) fn unhex(word: &mut [u8]) -> Option<&[u8]>
    ensures { IfSome result (λ bytes. length bytes.now ≤ length word.old) }
{
    if is(word, b"-") {
        return Some(&word[..0]);
    }
    if word.is_empty() || word.len() % 2 != 0 || word.iter().any(|b| b.is_ascii_uppercase()) {
        return None;
    }
    let n = word.len() / 2;
    for i in 0..n {
        word[i] = joined(word[2 * i], word[2 * i + 1])?;
    }
    Some(&word[..n])
}
