// A build log of document 02's request Q-12, run on a store known to be sound: the log is read whole before anything is changed, then its
// records run in order as one batch, so that each digest is made once.
#![tactic(auto)]

ghost use Rattle.std.specs.Prelude.{◌≡◌, drop, Ok};
ghost use Rattle.slots.specs.Layout.{Decides};
ghost use Rattle.store.specs.Model.{Model};
ghost use Rattle.store.specs.Sound.{Sound};
ghost use Rattle.store.specs.Log.{edit_of};
ghost use Rattle.store.specs.Replay.{replay_answer};
ghost use Rattle.rb_tree.specs.Stores.{Stale, AskedStale};
ghost use Rattle.replay.specs.Records.{Names, Tells, IsLog, number_for};
ghost use Rattle.replay.specs.Runs.{ran_to, StaleEdit};

use answers::{MAX_KEY, MAX_VALUE, Refusal};

// What a record does.
#[derive(Clone, Copy, PartialEq, Eq)]
pub enum Operation {
    Insert,
    Modify,
    Delete,
}

// The six faults of a record.
#[derive(Clone, Copy)]
pub enum Fault {
    Operation,
    LongKey,
    LongValue,
    DeleteWithValue,
    LastBit,
    ShortTail,
}

// The operation that two bits name.
impl TryFrom<u8> for Operation {
    type Error = Fault;

    ghost try_from_gives = { Names };

    fn try_from(bits: u8) -> Result<Operation, Fault> {
        match bits {
            0 => Ok(Operation::Insert),
            1 => Ok(Operation::Modify),
            2 => Ok(Operation::Delete),
            _ => Err(Fault::Operation),
        }
    }
}

// The record at a place: its key starts two bytes on, its value right after the key.
#[derive(Clone, Copy)]
pub struct LogRecord {
    pub operation: Operation,
    pub key_length: usize,
    pub value_length: usize,
}

// The record at a place of the log, or a fault that it has.
pub fn record_at(log: &[u8], at: usize) -> Result<LogRecord, Fault>
    ensures { Tells (drop at log.now) result }
{
    let left = log.len().saturating_sub(at);
    if left < 2 {
        return Err(Fault::ShortTail);
    }
    let a = log[at];
    let b = log[at + 1];
    let operation = Operation::try_from(a / 64)?;
    let key_length = usize::from(a % 64);
    let value_length = usize::from(b / 2);
    if MAX_KEY < key_length {
        return Err(Fault::LongKey);
    }
    if MAX_VALUE < value_length {
        return Err(Fault::LongValue);
    }
    if operation == Operation::Delete && value_length != 0 {
        return Err(Fault::DeleteWithValue);
    }
    if b % 2 == 1 {
        return Err(Fault::LastBit);
    }
    if left - 2 < key_length + value_length {
        return Err(Fault::ShortTail);
    }
    Ok(LogRecord {
        operation,
        key_length,
        value_length,
    })
}

// Whether the whole log can be read. Each record says where the next one begins, and the law (`IsLog`) is told of what is left there: so a
// while here and in `run`, and no iterator that would be told the same again.
pub fn is_log(log: &[u8]) -> bool
    ensures { Decides result (IsLog log.now) }
{
    let mut at = 0;
    while at < log.len() {
        let Ok(record) = record_at(log, at) else {
            return false;
        };
        at += 2 + record.key_length + record.value_length;
    }
    true
}

// One record of the batch.
fn edit_stale(s: &mut [u8], operation: Operation, key: &[u8], value: &[u8]) -> Result<(), Refusal>
    requires { AskedStale key.now value.now s.old }
    ensures { (m : Model) → Stale s.old m → StaleEdit (edit_of (number_for operation) key.now value.now) s.old s.new m result }
{
    match operation {
        Operation::Insert => rb_tree::insert_stale(s, key, value),
        Operation::Modify => rb_tree::modify_stale(s, key, value),
        Operation::Delete => rb_tree::delete_stale(s, key),
    }
}

// How many records found no room, and how many no entry of their key.
#[derive(Clone, Copy)]
pub struct Replayed {
    pub full: usize,
    pub absent: usize,
}

// Runs a log that was read whole: every record, then one refresh for all.
fn run(s: &mut [u8], log: &[u8]) -> Replayed
    requires { (Sound s.old) × (IsLog log.now) }
    ensures { ran_to (Ok result) s.new ≡ replay_answer log.now s.old }
{
    let mut full = 0;
    let mut absent = 0;
    let mut at = 0;
    while at < log.len() {
        let record = record_at(log, at).unwrap();
        let key = at + 2;
        let value = key + record.key_length;
        let end = value + record.value_length;
        if let Err(refusal) = edit_stale(s, record.operation, &log[key..value], &log[value..end]) {
            if refusal == Refusal::Full {
                full += 1;
            } else {
                absent += 1; // no other refusal is left
            }
        }
        at = end;
    }
    rb_tree::settle(s);
    Replayed { full, absent }
}

// A malformed log is refused before anything is changed.
pub fn replay(s: &mut [u8], log: &[u8]) -> Result<Replayed, Refusal>
    requires { Sound s.old }
    ensures { ran_to result s.new ≡ replay_answer log.now s.old }
{
    if !is_log(log) {
        return Err(Refusal::BadLog);
    }
    Ok(run(s, log))
}
