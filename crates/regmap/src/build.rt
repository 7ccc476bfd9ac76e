// A store from a map: a text file with a register a line, NAME HEX.
ghost use Rattle.search.specs.Search.{EntryAt};
ghost use Rattle.rb_tree.specs.Stores.{AskedStale, HasStale};

use crate::stores::say_store;
use answers::Refusal;
use judge::judge;
use regmap_check::said_to;
use regmap_files::room::{FILE, zeros};
use regmap_files::{load, save};
use regmap_words::line::Line;
use regmap_words::map::{
    Fault, first_with, line_at, lines_of, miscount, register_of, say_fault, unzeroed,
};
use regmap_words::says::{Failure, refuse, say_registers};
use text::hex;
use text::print::say_number;
use text::words::{blanked, is, part, within};

// ---- the store: one batch of inserts, and one refresh at the end

// A register that is there already must have this value.
fn again(store: &[u8], slot: usize, value: &[u8]) -> Result<(), Fault>
    requires { EntryAt store.now slot }
{
    if is(slots::value(store, slot), value) {
        return Ok(());
    }
    Err(Fault::Twice)
}

// A new register, or one that is there already with this value.
fn put(store: &mut [u8], key: &[u8], value: &[u8]) -> Result<(), Fault>
    requires { AskedStale key.now value.now store.old }
    ensures { HasStale store.new }
{
    let root = slots::header_of(store).root;
    if let Some(slot) = search::get(store, root, key) {
        return again(store, slot, value);
    }
    rb_tree::insert_stale(store, key, value).map_err(|_| Fault::Full)
}

// The register of a line, if it holds one.
fn take(line: &[u8], store: &mut [u8]) -> Result<(), Fault>
    requires { HasStale store.old }
    ensures { HasStale store.new }
{
    let Some(register) = register_of(line)? else {
        return Ok(());
    };
    let key = register.name.as_slice();
    let value = register.value.as_slice();
    if 48 < key.len() {
        return Err(Fault::LongName);
    }
    if 64 < value.len() {
        return Err(Fault::LongValue);
    }
    put(store, key, value)
}

// What keeps a map from being a store: a line of it, or that there is no store of the capacity.
#[derive(Clone, Copy)]
enum Stop {
    Line { number: usize, fault: Fault },
    Capacity,
}

// Every line of the map into a sound store, whose digests are worked out once all are in.
fn put_lines(text: &[u8], store: &mut [u8]) -> Result<(), Stop>
    requires { HasStale store.old }
{
    for (i, line) in text.split(|b| *b == b'\n').enumerate() {
        if let Err(fault) = take(line, store) {
            let number = i.saturating_add(1);
            return Err(Stop::Line { number, fault });
        }
    }
    rb_tree::settle(store);
    Ok(())
}

// A fresh store with every line of the map in it.
fn filled(text: &[u8], store: &mut [u8], capacity: usize) -> Result<(), Stop> {
    if register_map::create(store, capacity as u64).is_err() {
        return Err(Stop::Capacity);
    }
    if !judge(store) {
        return Err(Stop::Capacity);
    }
    put_lines(text, store)
}

// How many bytes a store of this capacity has; none, if there is no such store.
fn size(capacity: usize) -> usize {
    if capacity <= 1024 {
        8 + 150 * capacity
    } else {
        0
    }
}

// ---- the command

fn say_place(line: Line, number: usize) {
    line.say3(b"regmap: ", line.word(1), b":");
    say_number(line.err, number);
    line.say(b": ");
}

fn refuse_map(line: Line, text: &[u8], stop: Stop) -> Failure {
    match stop {
        Stop::Capacity => refuse(line.err, line.word(1), Refusal::BadCapacity.number()),
        Stop::Line { number, fault } => {
            say_place(line, number);
            say_fault(
                line.err,
                fault,
                line_at(text, number),
                first_with(text, number),
            );
            Failure::Refused
        }
    }
}

fn refuse_count(line: Line, number: usize, count: usize) -> Failure {
    say_place(line, number);
    line.say(b"here it says otherwise, but the map has ");
    say_registers(line.err, count);
    line.say(b": it was cut short or changed. Get it whole, or put that line right.\n");
    Failure::Refused
}

// Writes the store, if nothing stopped the reading of its map and its count agrees.
fn finished(
    rt: &HostRuntime,
    line: Line,
    text: &[u8],
    filled: Result<(), Stop>,
    store: &[u8],
) -> Result<(), Failure> {
    filled.map_err(|stop| refuse_map(line, text, stop))?;
    let count = register_map::count(store).unwrap_or(0);
    if let Some(number) = miscount(text, count) {
        return Err(refuse_count(line, number, count));
    }
    save(rt, line.word(2), store, true, line.err)?;
    say_store(said_to(line.word(2)), store);
    Ok(())
}

fn made(
    rt: &HostRuntime,
    line: Line,
    text: &[u8],
    store: &mut [u8],
    capacity: usize,
) -> Result<(), Failure> {
    let n = within(size(capacity), store);
    let filled = filled(text, &mut store[..n], capacity);
    finished(rt, line, text, filled, part(store, 0, n))
}

// At most 1024 and at least 1.
fn lawful(n: usize) -> usize {
    n.clamp(1, 1024)
}

// With a slot for each line; if a name stood twice, made anew with one for each name.
fn fitted(rt: &HostRuntime, line: Line, text: &[u8], store: &mut [u8]) -> Result<(), Failure> {
    let lines = lawful(lines_of(text));
    let n = within(size(lines), store);
    let filled = filled(text, &mut store[..n], lines);
    let whole = part(store, 0, n);
    let names = match filled {
        Ok(()) => lawful(register_map::count(whole).unwrap_or(0)),
        Err(_) => lines,
    };
    if names < lines {
        return made(rt, line, text, store, names);
    }
    finished(rt, line, text, filled, whole)
}

pub(crate) fn build(rt: &HostRuntime, line: Line) -> Result<(), Failure> {
    let mut buf = zeros::<FILE>();
    let text = load(rt, line.word(1), &mut buf, line.err)?;
    unzeroed(text);
    blanked(text);
    let mut store = zeros::<153_608>();
    if line.has(3) {
        return fitted(rt, line, text, &mut store);
    }
    let Some(capacity) = hex::decimal(line.word(4)) else {
        return Err(refuse(line.err, line.word(4), Refusal::BadCapacity.number()));
    };
    made(rt, line, text, &mut store, capacity as usize)
}
