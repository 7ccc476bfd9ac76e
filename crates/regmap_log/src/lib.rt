// A build log shown, a line a record, and what is wrong with the first record that is malformed.
#![tactic(auto)]

ghost use Rattle.std.specs.Prelude.{◌-◌, length};
ghost use Rattle.std.specs.Iterator.{at_most};

use regmap_files::load;
use regmap_files::room::{FILE, zeros};
use regmap_words::line::Line;
use regmap_words::says::{Failure, OUT};
use replay::{Fault, Operation, record_at};
use text::print::{say, say_name, say_number, say_with_hex, say3};

// ---- one record

fn say_with_value(operation: &[u8], key: &[u8], value: &[u8]) {
    say(OUT, operation);
    say_name(OUT, key);
    say_with_hex(OUT, b" ", value, b"\n");
}

fn say_record(entry: Entry) {
    match entry.operation {
        Operation::Insert => say_with_value(b"insert ", entry.key, entry.value),
        Operation::Modify => say_with_value(b"modify ", entry.key, entry.value),
        Operation::Delete => {
            say(OUT, b"delete ");
            say_name(OUT, entry.key);
            say(OUT, b"\n");
        }
    }
}

fn say_wrong(err: i32, fault: Fault) {
    match fault {
        Fault::Operation => say(
            err,
            b"its operation is 3, and 0 is insert, 1 modify, 2 delete",
        ),
        Fault::LongKey => say(err, b"its name is longer than 48 bytes"),
        Fault::LongValue => say(err, b"its value is longer than 64 bytes"),
        Fault::DeleteWithValue => say(err, b"it is a delete with a value"),
        Fault::LastBit => say(err, b"its last bit is set"),
        Fault::ShortTail => say(err, b"it is cut short"),
    }
}

// ---- the whole log

// A record: what it does, to which name, with which value.
#[derive(Clone, Copy)]
pub struct Entry<'a> {
    pub operation: Operation,
    pub key: &'a [u8],
    pub value: &'a [u8],
}

// A record that is malformed: its number, counted from 1, its place and what is wrong.
#[derive(Clone, Copy)]
pub struct Malformed {
    pub number: usize,
    pub at: usize,
    pub fault: Fault,
}

// What is left of a log: its records, up to the first that is malformed.
#[derive(Drop)]
pub struct Entries<'a> {
    log: &'a [u8],
    at: usize,
    number: usize,
}

impl<'a> Iterator for Entries<'a> {
    type Item = Result<Entry<'a>, Malformed>;

    ghost remaining = { λ s. at_most (length s.log.now - s.at) };

    fn next(&mut self) -> Option<Result<Entry<'a>, Malformed>> {
        let log = self.log;
        let at = self.at;
        if log.len() <= at {
            return None;
        }
        // A log that is read has fewer than 262,144 records of two bytes.
        self.number = self.number.saturating_add(1);
        match record_at(log, at) {
            Ok(record) => {
                let key = at + 2;
                let value = key + record.key_length;
                let end = value + record.value_length;
                self.at = end;
                Some(Ok(Entry {
                    operation: record.operation,
                    key: &log[key..value],
                    value: &log[value..end],
                }))
            }
            Err(fault) => {
                self.at = log.len();
                Some(Err(Malformed {
                    number: self.number,
                    at,
                    fault,
                }))
            }
        }
    }
}

// Reads record after record.
pub fn read<'a>(log: &'a [u8]) -> Entries<'a> {
    Entries {
        log,
        at: 0,
        number: 0,
    }
}

// Names a record that is malformed, its place and what is wrong.
fn say_fault(err: i32, path: &[u8], bad: Malformed) {
    say3(err, b"regmap: ", path, b": refused (13) record ");
    say_number(err, bad.number);
    say(err, b", at byte ");
    say_number(err, bad.at);
    say(err, b", is malformed: ");
    say_wrong(err, bad.fault);
    say(err, b".\n");
}

// A log that was refused.
pub fn refuse_log(err: i32, path: &[u8], log: &[u8]) -> Failure {
    for entry in read(log) {
        if let Err(bad) = entry {
            say_fault(err, path, bad);
        }
    }
    Failure::Refused
}

// ---- the command

// Shows the records, up to the first that is malformed.
fn showed(log: &[u8]) -> Result<(), Malformed> {
    for entry in read(log) {
        say_record(entry?);
    }
    Ok(())
}

pub fn show(rt: &HostRuntime, line: Line) -> Result<(), Failure> {
    let mut buf = zeros::<FILE>();
    let log = load(rt, line.word(1), &mut buf, line.err)?;
    if let Err(bad) = showed(log) {
        say_fault(line.err, line.word(1), bad);
        return Err(Failure::Refused);
    }
    Ok(())
}

// "3 records: 1 found no room, 1 no register".
pub fn say_replayed(log: &[u8], full: usize, absent: usize) {
    let records = read(log).count();
    say_number(OUT, records);
    say(
        OUT,
        if records == 1 {
            b" record: "
        } else {
            b" records: "
        },
    );
    say_number(OUT, full);
    say(OUT, b" found no room, ");
    say_number(OUT, absent);
    say(OUT, b" no register\n");
}
