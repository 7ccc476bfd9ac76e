// The difference of two stores known to be sound: their entries are walked together in key order, first to learn how much room the lines
// take, then to write them. Values are compared by their bytes; equal digests would prove nothing.
#![tactic(auto)]

ghost use Rattle.std.specs.Prelude.{◌≡◌, true, ◌+◌, ◌-◌, ◌≤◌, ◌<◌, length, Some, SomeIff};
ghost use Rattle.answers.specs.Answers.{answered};
ghost use Rattle.output.specs.Putting.{Puts};
ghost use Rattle.llrb.specs.Difference.{line};
ghost use Rattle.search.specs.Search.{EntryAt};
ghost use Rattle.store.specs.Sound.{Sound};
ghost use Rattle.store.specs.Difference.{kind_of, line_bytes, lines_bytes, difference_answer};
ghost use Rattle.difference.specs.Walking.{Cursor, First, After, Ready, Meets, Steps, change_of, side_of, line_in, all_lines, said};

use answers::Refusal;
use key_order::{order, same};
use output::put_bytes;
use search::{first_entry, next_entry};
use slots::{header_of, key, value};
use std::cmp::Ordering;

// Only in the old store, only in the new one, or in both with another value.
#[derive(Clone, Copy)]
pub enum Change {
    Gone,
    New,
    Other,
}

impl Change {
    // The kind of its lines.
    fn kind(self) -> usize
        ensures { (result ≡ kind_of (change_of self)) × (result < 4) }
    {
        match self {
            Change::Gone => 1,
            Change::New => 2,
            Change::Other => 3,
        }
    }
}

// Where the walk stands in the two stores: at the slot of an entry, or past the last one.
#[derive(Clone, Copy)]
pub struct Cursors {
    pub in_old: Option<usize>,
    pub in_new: Option<usize>,
}

// A line, by the slot that has its key, and the cursors after it.
#[derive(Clone, Copy)]
pub struct Line {
    pub change: Change,
    pub slot: usize,
    pub rest: Cursors,
}

// What the walk comes to: a line; one key with one value, and the cursors after it; or the end.
#[derive(Clone, Copy)]
pub enum Step {
    Line(Line),
    Same(Cursors),
    End,
}

// ---- one store

fn first(s: &[u8]) -> Option<usize>
    requires { Sound s.now }
    ensures { First s.now result }
{
    first_entry(s, header_of(s).root)
}

// The entry that follows the one in slot `i`.
fn after(s: &[u8], i: usize) -> Option<usize>
    requires { (Sound s.now) × (Cursor s.now (Some i)) }
    ensures { After s.now i result }
{
    next_entry(s, header_of(s).root, key(s, i))
}

fn line_at(change: Change, slot: usize, in_old: Option<usize>, in_new: Option<usize>) -> Step
    ensures { result ≡ said change slot in_old in_new }
{
    Step::Line(Line {
        change,
        slot,
        rest: Cursors { in_old, in_new },
    })
}

// A line's bytes: 2 bits of kind, 6 bits of key length, then the key.
fn put_line(change: Change, key: &[u8], out: &mut [u8], at: usize) -> usize
    requires { (length key.now ≤ 48) × (at + length key.now < length out.old) }
    ensures { Puts out.old out.new at result (line_bytes (line (change_of change) key.now)) }
{
    out[at] = (change.kind() * 64 + key.len()) as u8;
    put_bytes(out, at + 1, key)
}

// ---- both

// The two stores. That they are sound is asked by each method that needs it: `Sound` hands a model on, so it is no fact for a ghost field.
#[derive(Clone, Copy)]
struct Stores<'a> {
    older: &'a [u8],
    newer: &'a [u8],
}

impl<'a> Stores<'a> {
    // The key of a line, in the store that has it.
    fn key(&self, line: Line) -> &'a [u8]
        requires { EntryAt (side_of line.change self.now.older.now self.now.newer.now) line.slot }
        ensures is { result.now ≡ (line_in self.now.older.now self.now.newer.now line.change line.slot).key }
        ensures short { length result.now ≤ 48 }
    {
        match line.change {
            Change::Gone | Change::Other => key(self.older, line.slot),
            Change::New => key(self.newer, line.slot),
        }
    }

    fn start(&self) -> Cursors
        requires { (Sound self.now.older.now) × (Sound self.now.newer.now) }
        ensures { (First self.now.older.now result.in_old) × (First self.now.newer.now result.in_new) }
    {
        Cursors {
            in_old: first(self.older),
            in_new: first(self.newer),
        }
    }

    // How the two entries at the cursors stand to each other.
    fn meet(&self, at: Cursors) -> Step
        requires { Ready self.now.older.now self.now.newer.now at.in_old at.in_new }
        ensures { Meets self.now.older.now self.now.newer.now at.in_old at.in_new result }
    {
        match (at.in_old, at.in_new) {
            (None, None) => Step::End,
            (Some(i), None) => line_at(Change::Gone, i, after(self.older, i), None),
            (None, Some(j)) => line_at(Change::New, j, None, after(self.newer, j)),
            (Some(i), Some(j)) => match order(key(self.older, i), key(self.newer, j)) {
                Ordering::Less => line_at(Change::Gone, i, after(self.older, i), Some(j)),
                Ordering::Greater => line_at(Change::New, j, Some(i), after(self.newer, j)),
                Ordering::Equal => {
                    let in_old = after(self.older, i);
                    let in_new = after(self.newer, j);
                    if same(value(self.older, i), value(self.newer, j)) {
                        Step::Same(Cursors { in_old, in_new })
                    } else {
                        line_at(Change::Other, i, in_old, in_new)
                    }
                }
            },
        }
    }

    // The next line from the cursors on, if there is one.
    fn next_line(&self, from: Cursors) -> Option<Line>
        requires { Ready self.now.older.now self.now.newer.now from.in_old from.in_new }
        ensures { Steps self.now.older.now self.now.newer.now from.in_old from.in_new result }
    {
        let mut at = from;
        loop {
            match self.meet(at) {
                Step::Line(line) => break Some(line),
                Step::Same(rest) => at = rest,
                Step::End => break None,
            }
        }
    }

    // ---- the two walks. What each does with a line is a line of its own: a closure for it would have to be told, at each call, what
    // the loop's invariant knows of the room.

    // The room that is left after all lines, if they fit.
    fn fit(&self, room: usize) -> Option<usize>
        requires { (Sound self.now.older.now) × (Sound self.now.newer.now) }
        ensures { SomeIff result (length (lines_bytes (all_lines self.now.older.now self.now.newer.now)) ≤ room) (room - length (lines_bytes (all_lines self.now.older.now self.now.newer.now))) }
    {
        let mut left = room;
        let mut at = self.start();
        while let Some(line) = self.next_line(at) {
            left = left.checked_sub(1 + self.key(line).len())?;
            at = line.rest;
        }
        Some(left)
    }

    // Writes all lines; there is room for them.
    fn put_lines(&self, out: &mut [u8]) -> usize
        requires sound { (Sound self.now.older.now) × (Sound self.now.newer.now) }
        requires room { length (lines_bytes (all_lines self.now.older.now self.now.newer.now)) ≤ length out.old }
        ensures { Puts out.old out.new 0 result (lines_bytes (all_lines self.now.older.now self.now.newer.now)) }
    {
        let mut end = 0;
        let mut at = self.start();
        while let Some(line) = self.next_line(at) {
            end = put_line(line.change, self.key(line), out, end);
            at = line.rest;
        }
        end
    }

    // Whether there is room for any list of these stores: a line of 49 bytes for each entry.
    fn is_ample(&self, room: usize) -> bool
        requires { (Sound self.now.older.now) × (Sound self.now.newer.now) }
        ensures { result ≡ true → length (lines_bytes (all_lines self.now.older.now self.now.newer.now)) ≤ room }
    {
        49 * (header_of(self.older).live + header_of(self.newer).live) <= room
    }
}

// The lines at the front of the output, if there is room for them. Where there is room for any list, or there are no lines, nothing is
// walked twice.
pub fn difference(old: &[u8], new: &[u8], out: &mut [u8]) -> Result<usize, Refusal>
    requires { (Sound old.now) × (Sound new.now) }
    ensures { answered result out.new ≡ difference_answer old.now new.now out.old }
{
    let stores = Stores {
        older: old,
        newer: new,
    };
    if !stores.is_ample(out.len()) {
        let left = stores.fit(out.len()).ok_or(Refusal::NoRoom)?;
        if left == out.len() {
            return Ok(0);
        }
    }
    Ok(stores.put_lines(out))
}
