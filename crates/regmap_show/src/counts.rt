// What a witness shows and hides, counted; to be asked of one that rebuild took. Records stand parent first, so one pass over them does.
ghost use Rattle.std.specs.Prelude.{◌≡◌, ◌↔◌, ◌⊎◌, IsTrue, false};
ghost use Rattle.hash_tree.specs.declared.Kind.TheVariants.{Labeled, Pruned};

use hash_tree::Kind;
use text::print::{say, say_name, say_number};
use witness_reader::{Records, Shown};

// Labels; those of them with a value; hidden parts, and those of them that lie between two labels; hidden parts since the last label.
#[derive(Clone, Copy, Default)]
pub struct Counts {
    pub labels: usize,
    pub values: usize,
    pub hidden: usize,
    pub between: usize,
    since: usize,
}

impl Counts {
    // One record more. A file that is read has fewer than 262,144 of two bytes, so no count comes near its bound.
    fn add(&mut self, record: Shown) {
        match record.kind {
            Kind::Labeled => {
                if self.labels > 0 {
                    self.between = self.between.saturating_add(self.since);
                }
                self.labels = self.labels.saturating_add(1);
                self.since = 0;
            }
            Kind::Pruned if !record.labeled => {
                self.hidden = self.hidden.saturating_add(1);
                self.since = self.since.saturating_add(1);
            }
            Kind::Leaf if record.labeled => self.values = self.values.saturating_add(1),
            _ => {}
        }
    }
}

pub fn counted(w: &[u8]) -> Counts {
    let mut c = Counts::default();
    for record in Records::new(w) {
        c.add(record);
    }
    c
}

// How many were shown only by name.
pub fn bare(c: Counts) -> usize {
    c.labels.saturating_sub(c.values)
}

fn say_many(to: i32, n: usize, one: &[u8], many: &[u8]) {
    say_number(to, n);
    say(to, if n == 1 { one } else { many });
}

// One line: what is shown, and what is hidden.
pub fn say_counts(to: i32, c: Counts) {
    if c.labels == 0 {
        say(to, b"it shows no register");
    } else {
        say_many(
            to,
            c.values,
            b" register shown with its value, ",
            b" registers shown with their values, ",
        );
        say_number(to, bare(c));
        say(to, b" by name alone");
    }
    say(to, b"; ");
    say_many(to, c.hidden, b" part hidden, ", b" parts hidden, ");
    say_number(to, c.between);
    say(to, b" of them between two names\n");
}

// Whether a record is a name, or a hidden part that is no name's value.
pub fn is_item(shown: Shown) -> bool
    ensures { IsTrue result ↔ ((shown.entry.kind ≡ Labeled) ⊎ ((shown.entry.kind ≡ Pruned) × (shown.entry.labeled ≡ false))) }
{
    match shown.kind {
        Kind::Labeled => true,
        Kind::Pruned => !shown.labeled,
        _ => false,
    }
}

// The names that are shown, each after a space.
pub fn say_labels(to: i32, w: &[u8]) {
    for record in Records::new(w).filter(|record| record.kind == Kind::Labeled) {
        say(to, b" ");
        say_name(to, record.bytes);
    }
}
