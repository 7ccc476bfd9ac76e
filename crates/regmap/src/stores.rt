// Commands that read or change one store.
ghost use Rattle.store.specs.Sound.{Sound};

use answers::Refusal;
use judge::judge;
use regmap_check::{name_in, no_store};
use regmap_files::room::{STORE, zeros};
use regmap_files::{finish, load, lock, release};
use regmap_show::json;
use regmap_words::kinds::Command;
use regmap_words::line::Line;
use regmap_words::says::{Failure, OUT, refuse, say_registers};
use std::fs::File;
use text::hex;
use text::hex::Few;
use text::print::{say, say_name, say_number, say_with_hex};
use text::words::piece;

// ---- refusals

// A store that is not sound is refused for what it is, any other refusal is of the word.
pub(crate) fn refuse_on(line: Line, store: &[u8], what: &[u8], refusal: Refusal) -> Failure {
    match refusal {
        Refusal::NotSound => no_store(line.word(1), store, line.err),
        _ => refuse(line.err, what, refusal.number()),
    }
}

// ---- list, get, root

fn say_entry(json: bool, first: bool, key: &[u8], value: &[u8]) {
    if json {
        return json::entry(first, key, value);
    }
    say_name(OUT, key);
    say_with_hex(OUT, b" ", value, b"\n");
}

// A store has at most 1024 registers.
fn entries(store: &[u8], json: bool)
    requires { Sound store.now }
{
    let mut next = search::first_place(store);
    for i in 0..1024 {
        let Some(place) = next else {
            return;
        };
        let key = piece(store, place.key_at, place.key_length);
        let value = piece(store, place.value_at, place.value_length);
        say_entry(json, i == 0, key, value);
        if 48 < key.len() {
            return;
        }
        next = search::next_place(store, key);
    }
}

fn say_count(n: usize) {
    say(OUT, b"# ");
    say_registers(OUT, n);
    say(OUT, b"\n");
}

fn list_text(store: &[u8])
    requires { Sound store.now }
{
    let n = whole_store::count(store);
    say_count(n);
    entries(store, false);
    say_count(n);
}

fn list_json(store: &[u8])
    requires { Sound store.now }
{
    let digest = whole_store::root_hash(store);
    say_with_hex(OUT, b"{\"root\": \"", &digest, b"\", \"count\": ");
    say_number(OUT, whole_store::count(store));
    say(OUT, b", \"registers\": [");
    entries(store, true);
    say(OUT, b"\n]}\n");
}

pub(crate) fn list(line: Line, store: &[u8]) -> Result<(), Failure> {
    if !judge(store) {
        return Err(no_store(line.word(1), store, line.err));
    }
    if line.is_json() {
        list_json(store);
    } else {
        list_text(store);
    }
    Ok(())
}

pub(crate) fn get(line: Line, store: &[u8]) -> Result<(), Failure> {
    let name = line.word(2);
    let place = register_map::get(store, name_in(name).as_slice()).map_err(|refusal| refuse_on(
        line, store, name, refusal,
    ))?;
    say_with_hex(
        OUT,
        b"",
        piece(store, place.value_at, place.value_length),
        b"\n",
    );
    Ok(())
}

pub(crate) fn root(line: Line, store: &[u8]) -> Result<(), Failure> {
    let digest = register_map::root_hash(store).map_err(|_| no_store(
        line.word(1),
        store,
        line.err,
    ))?;
    say_with_hex(OUT, b"", &digest, b"\n");
    Ok(())
}

// Reads the store that the line names, and does with it what the command asks.
pub(crate) fn with_store<F>(rt: &HostRuntime, line: Line, ask: F) -> Result<(), Failure>
where
    F: FnOnce(Line, &[u8]) -> Result<(), Failure>,
    requires { F.IsAlwaysCallable ask }
{
    let mut buf = zeros::<STORE>();
    let store = load(rt, line.word(1), &mut buf, line.err)?;
    ask(line, store)
}

// ---- a store that is changed

// How many registers a store holds, and its root digest.
pub(crate) fn say_store(to: i32, store: &[u8]) {
    say_registers(to, register_map::count(store).unwrap_or(0));
    let digest = register_map::root_hash(store).unwrap_or([0; 32]);
    say_with_hex(to, b", root ", &digest, b"\n");
}

// A store that is held: read, changed by `step`, and written, which `tell` says; or given up as it was, and `why` says why.
pub(crate) fn held<T: Drop, E: Drop, S, W, G>(
    rt: &HostRuntime,
    line: Line,
    file: File,
    buf: &mut [u8],
    step: S,
    why: W,
    tell: G,
) -> Result<(), Failure>
where
    S: FnOnce(&mut [u8]) -> Result<T, E>,
    W: FnOnce(&[u8], E) -> Failure,
    G: FnOnce(&[u8], T),
    requires step { S.IsAlwaysCallable step }
    requires why { W.IsAlwaysCallable why }
    requires tell { G.IsAlwaysCallable tell }
{
    let path = line.word(1);
    let store = match load(rt, path, buf, line.err) {
        Ok(store) => store,
        Err(failure) => {
            release(rt, file, path);
            return Err(failure);
        }
    };
    match step(store) {
        Err(e) => {
            release(rt, file, path);
            Err(why(store, e))
        }
        Ok(done) => {
            finish(rt, file, path, store, line.err)?;
            tell(store, done);
            Ok(())
        }
    }
}

// ---- set, add, unset

// Why a store stays as it was.
#[derive(Clone, Copy)]
enum Unchanged {
    Refused(Refusal),
    There,
}

impl From<Refusal> for Unchanged {
    fn from(refusal: Refusal) -> Unchanged {
        Unchanged::Refused(refusal)
    }
}

// A new register: none of that name may be there.
fn add(store: &mut [u8], key: &[u8], value: &[u8]) -> Result<(), Unchanged> {
    if register_map::get(store, key).is_ok() {
        return Err(Unchanged::There);
    }
    register_map::insert(store, key, value)?;
    Ok(())
}

// The value that a word gives; the words of a line were looked at before.
fn value_in(word: &[u8]) -> Few {
    hex::value(word).unwrap_or(hex::none())
}

fn altered(command: Command, line: Line, store: &mut [u8]) -> Result<(), Unchanged> {
    let name = name_in(line.word(2));
    let value = value_in(line.word(3));
    let key = name.as_slice();
    match command {
        Command::Set => register_map::modify(store, key, value.as_slice())?,
        Command::Add => add(store, key, value.as_slice())?,
        _ => register_map::delete(store, key)?,
    }
    Ok(())
}

fn say_unchanged(command: Command, line: Line, store: &[u8], why: Unchanged) -> Failure {
    match why {
        Unchanged::There => {
            line.say3(
                b"regmap: ",
                line.word(2),
                b" is there already: add makes a new register; set changes one.\n",
            );
            Failure::Refused
        }
        Unchanged::Refused(refusal) => {
            let failure = refuse_on(line, store, line.word(2), refusal);
            if matches!((refusal, command), (Refusal::Absent, Command::Set)) {
                line.say(b"regmap: set changes a register; add makes a new one.\n");
            }
            failure
        }
    }
}

#[inline(never)]
pub(crate) fn change(rt: &HostRuntime, command: Command, line: Line) -> Result<(), Failure> {
    let file = lock(rt, line.word(1), line.err)?;
    let mut buf = zeros::<STORE>();
    held(
        rt,
        line,
        file,
        &mut buf,
        |store| altered(command, line, store),
        |store, why| say_unchanged(command, line, store, why),
        |store, _| say_store(OUT, store),
    )
}
