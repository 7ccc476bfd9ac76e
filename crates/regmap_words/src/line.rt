// A line of words, and where it is said what is wrong with it.
ghost use Rattle.std.specs.Prelude.{◌≡◌, ◌≤◌, ◌<◌, IsTrue};
ghost use Rattle.text.specs.Words.{word_of, has_words};

use text::print::{say, say3};
use text::words::{has, is, word};

#[derive(Clone, Copy)]
pub struct Line<'a> {
    pub words: &'a [u8],
    pub err: i32,
}

impl<'a> Line<'a> {
    // The word `k`, counted from 0; no bytes, if there are fewer.
    pub fn word(self, k: usize) -> &'a [u8]
        ensures { result.now ≡ word_of self.entry.words.now k }
    {
        word(self.words, k)
    }

    // Whether the line has exactly `n` words.
    pub fn has(self, n: usize) -> bool
        ensures { result ≡ has_words self.entry.words.now n }
    {
        has(self.words, n)
    }

    // How many words the line has, at most 7.
    pub fn count(self) -> usize
        ensures bound { result ≤ 7 }
        ensures exact { result < 7 → IsTrue (has_words self.entry.words.now result) }
    {
        (0..7).find(|n| self.has(*n)).unwrap_or(7)
    }

    // Whether the last word is `--json`.
    pub fn is_json(self) -> bool {
        let n = self.count();
        2 <= n && is(self.word(n - 1), b"--json")
    }

    // Whether a digest is given to `read`, `dot` or `html`.
    pub fn has_digest(self) -> bool {
        !self.has(2) && !is(self.word(2), b"--json")
    }

    // Says what is wrong.
    pub fn say(self, s: &[u8]) {
        say(self.err, s);
    }

    pub fn say3(self, a: &[u8], b: &[u8], c: &[u8]) {
        say3(self.err, a, b, c);
    }
}
