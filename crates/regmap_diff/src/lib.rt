// The registers that differ between two stores: both are judged once, the list is taken once, and each line's values are looked up.
#![tactic(auto)]

ghost use Rattle.std.specs.Prelude.{◌≤◌, length};
ghost use Rattle.std.specs.Iterator.{at_most};
ghost use Rattle.store.specs.Sound.{Sound};

use difference::{Change, difference};
use judge::judge;
use regmap_check::no_store;
use regmap_files::load;
use regmap_files::room::{STORE, zeros};
use regmap_words::line::Line;
use regmap_words::says::{Failure, OUT};
use search::get_place;
use text::print::{say, say_name, say_number, say_with_hex};
use text::words::{part, piece};

// A line for each entry of two full stores: one byte and a name of 48.
const LONGEST: usize = 100_352;

// A line of a difference: a name, and how the stores differ in it.
#[derive(Clone, Copy)]
struct Differs<'a> {
    change: Change,
    key: &'a [u8],
}

// The lines that are left of a difference, each a byte with kind and length and then the name.
#[derive(Drop)]
struct Lines<'a> {
    rest: &'a [u8],
}

impl<'a> Iterator for Lines<'a> {
    type Item = Differs<'a>;

    ghost remaining = { λ s. at_most (length s.rest.now) };

    fn next(&mut self) -> Option<Differs<'a>> {
        let (first, others) = self.rest.split_first()?;
        let len = usize::from(*first % 64).min(others.len());
        let (key, rest) = others.split_at(len);
        self.rest = rest;
        let change = match *first / 64 {
            1 => Change::Gone,
            2 => Change::New,
            _ => Change::Other,
        };
        Some(Differs { change, key })
    }
}

// The value of a name; none, if it is not there.
fn value_of<'a>(store: &'a [u8], key: &[u8]) -> &'a [u8]
    requires sound { Sound store.now }
    requires key_len_bound { length key.now ≤ 48 }
{
    let Some(place) = get_place(store, key) else {
        return piece(store, 0, 0);
    };
    piece(store, place.value_at, place.value_length)
}

// `- NAME HEX`, `+ NAME HEX` or `~ NAME OLD NEW`.
fn say_line(old: &[u8], new: &[u8], line: Differs)
    requires sound { Sound old.now }
    requires sound_2 { Sound new.now }
    requires key_len_bound { length line.key.now ≤ 48 }
{
    match line.change {
        Change::Gone => say(OUT, b"- "),
        Change::New => say(OUT, b"+ "),
        Change::Other => say(OUT, b"~ "),
    }
    say_name(OUT, line.key);
    if !matches!(line.change, Change::New) {
        say_with_hex(OUT, b" ", value_of(old, line.key), b"");
    }
    if !matches!(line.change, Change::Gone) {
        say_with_hex(OUT, b" ", value_of(new, line.key), b"");
    }
    say(OUT, b"\n");
}

// All lines; answers how many there are.
fn say_lines(old: &[u8], new: &[u8], lines: &[u8]) -> usize
    requires sound { Sound old.now }
    requires sound_2 { Sound new.now }
{
    let mut n: usize = 0;
    for line in (Lines { rest: lines }) {
        if line.key.len() <= 48 {
            say_line(old, new, line);
        }
        n = n.saturating_add(1);
    }
    n
}

fn say_count(n: usize) -> Result<(), Failure> {
    if n == 0 {
        say(OUT, b"no difference\n");
        return Ok(());
    }
    say_number(OUT, n);
    say(
        OUT,
        if n == 1 {
            b" difference\n"
        } else {
            b" differences\n"
        },
    );
    Err(Failure::Refused)
}

fn differ(old: &[u8], new: &[u8], out: &mut [u8]) -> Result<(), Failure>
    requires sound { Sound old.now }
    requires sound_2 { Sound new.now }
{
    let n = difference(old, new, out).unwrap_or(0);
    say_count(say_lines(old, new, part(out, 0, n)))
}

// The one that is not sound is named.
fn compare(line: Line, old: &[u8], new: &[u8]) -> Result<(), Failure> {
    if !judge(old) {
        no_store(line.word(1), old, line.err);
        return Err(Failure::Trouble);
    }
    if !judge(new) {
        no_store(line.word(2), new, line.err);
        return Err(Failure::Trouble);
    }
    let mut out = zeros::<LONGEST>();
    differ(old, new, &mut out)
}

// No difference is done, some is refused; a file that can't be read, or is no sound store, is trouble.
pub fn diff(rt: &HostRuntime, line: Line) -> Result<(), Failure> {
    let mut first = zeros::<STORE>();
    let old = load(rt, line.word(1), &mut first, line.err)?;
    let mut second = zeros::<STORE>();
    let new = load(rt, line.word(2), &mut second, line.err)?;
    compare(line, old, new)
}
