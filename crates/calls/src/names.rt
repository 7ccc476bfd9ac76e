// The calls, parted by what they need of the driver, and the words that name them.
use crate::words::unhex;
use text::hex::decimal;

// Sets the driver's own bytes; answers `ok`.
#[derive(Clone, Copy)]
pub(crate) enum Setup<'a> {
    Buffer(u64),
    Load(&'a [u8]),
    Poke(u64, &'a [u8]),
    Room(u64),
}

// Changes the store.
#[derive(Clone, Copy)]
pub(crate) enum Change<'a> {
    Create(u64),
    Insert(&'a [u8], &'a [u8]),
    Modify(&'a [u8], &'a [u8]),
    Delete(&'a [u8]),
}

// A rebuild in parts.
#[derive(Clone, Copy)]
pub(crate) enum Feed<'a> {
    Begin,
    Part(&'a [u8]),
    End,
}

// Reads the store, or no store at all.
#[derive(Clone, Copy)]
pub(crate) enum Ask<'a> {
    Get(&'a [u8]),
    First,
    Next(&'a [u8]),
    Count,
    Empty,
    Root,
    Rebuild(&'a [u8]),
    Lookup(&'a [u8], &'a [u8]),
    Hash(&'a [u8]),
    Store,
    Sum,
}

// Writes into the output: a witness of the store, or of two witnesses, or the other form of one; or what differs from the other store.
#[derive(Clone, Copy)]
pub(crate) enum Show<'a> {
    Full,
    Keys,
    Witness(&'a [u8]),
    KeyRange(&'a [u8], &'a [u8]),
    ValueRange(&'a [u8], &'a [u8]),
    Prefix(&'a [u8]),
    Merge(&'a [u8], &'a [u8]),
    ToCbor(&'a [u8]),
    FromCbor(&'a [u8]),
    Diff,
}

// What a line asks for.
#[derive(Clone, Copy)]
pub(crate) enum Call<'a> {
    Setup(Setup<'a>),
    Change(Change<'a>),
    Ask(Ask<'a>),
    Show(Show<'a>),
    Feed(Feed<'a>),
    Replay(&'a [u8]),
    Swap,
}

// A line of this word alone.
fn alone(name: &[u8]) -> Option<Call<'static>> {
    let call = match name {
        b"first" => Call::Ask(Ask::First),
        b"count" => Call::Ask(Ask::Count),
        b"empty" => Call::Ask(Ask::Empty),
        b"root" => Call::Ask(Ask::Root),
        b"store" => Call::Ask(Ask::Store),
        b"sum" => Call::Ask(Ask::Sum),
        b"full" => Call::Show(Show::Full),
        b"keys" => Call::Show(Show::Keys),
        b"diff" => Call::Show(Show::Diff),
        b"begin" => Call::Feed(Feed::Begin),
        b"end" => Call::Feed(Feed::End),
        b"swap" => Call::Swap,
        _ => return None,
    };
    Some(call)
}

// This word and another: a number or bytes.
fn with_one<'a>(name: &[u8], word: &'a mut [u8]) -> Option<Call<'a>> {
    let call = match name {
        b"buffer" => Call::Setup(Setup::Buffer(decimal(word)?)),
        b"room" => Call::Setup(Setup::Room(decimal(word)?)),
        b"create" => Call::Change(Change::Create(decimal(word)?)),
        b"load" => Call::Setup(Setup::Load(unhex(word)?)),
        b"delete" => Call::Change(Change::Delete(unhex(word)?)),
        b"get" => Call::Ask(Ask::Get(unhex(word)?)),
        b"next" => Call::Ask(Ask::Next(unhex(word)?)),
        b"rebuild" => Call::Ask(Ask::Rebuild(unhex(word)?)),
        b"hash" => Call::Ask(Ask::Hash(unhex(word)?)),
        b"witness" => Call::Show(Show::Witness(unhex(word)?)),
        b"prefix" => Call::Show(Show::Prefix(unhex(word)?)),
        b"tocbor" => Call::Show(Show::ToCbor(unhex(word)?)),
        b"fromcbor" => Call::Show(Show::FromCbor(unhex(word)?)),
        b"part" => Call::Feed(Feed::Part(unhex(word)?)),
        b"replay" => Call::Replay(unhex(word)?),
        _ => return None,
    };
    Some(call)
}

// This word and two more: a number or bytes, and bytes.
fn with_two<'a>(name: &[u8], word: &'a mut [u8], last: &'a mut [u8]) -> Option<Call<'a>> {
    let b = unhex(last)?;
    let call = match name {
        b"poke" => Call::Setup(Setup::Poke(decimal(word)?, b)),
        b"insert" => Call::Change(Change::Insert(unhex(word)?, b)),
        b"modify" => Call::Change(Change::Modify(unhex(word)?, b)),
        b"krange" => Call::Show(Show::KeyRange(unhex(word)?, b)),
        b"vrange" => Call::Show(Show::ValueRange(unhex(word)?, b)),
        b"ask" => Call::Ask(Ask::Lookup(unhex(word)?, b)),
        b"merge" => Call::Show(Show::Merge(unhex(word)?, b)),
        _ => return None,
    };
    Some(call)
}

// What a line asks for, if it is one that is known, with good hex and numbers that fit. Bytes stand in it in place of their hex then.
pub(crate) fn call_of(line: &mut [u8]) -> Option<Call<'_>> {
    let mut words = line.split_mut(|b| *b == b' ');
    let name = words.next()?;
    let Some(word) = words.next() else {
        return alone(name);
    };
    let Some(last) = words.next() else {
        return with_one(name, word);
    };
    if words.next().is_some() {
        return None;
    }
    with_two(name, word, last)
}
