// Commands that check, show, ask, merge and exchange witnesses: they need no store.
#![tactic(auto)]

pub mod exchange;
mod stream;

use crate::stream::check_stream;
use answers::Refusal;
use hash_tree::rebuild;
use merge::merge;
use regmap_ask::{Told, ask};
use regmap_files::room::{FILE, zeros};
use regmap_files::{Holds, kind_of, load, save};
use regmap_page::page;
use regmap_show::counts::{counted, say_counts};
use regmap_show::{json, picture, records};
use regmap_words::kinds::{COMMANDS, Command, digest_ok};
use regmap_words::line::Line;
use regmap_words::map::register_on;
use regmap_words::says::{Failure, OUT, refuse};
use text::hex;
use text::hex::Few;
use text::print::{is_unread, say, say_number, say_with_hex, say3};
use text::words::{blanked, is, part};

// ---- what a file is, where its first bytes tell

// A store that is refused for its bytes.
pub fn no_store(path: &[u8], store: &[u8], err: i32) -> Failure {
    match kind_of(store) {
        Holds::Witness => say3(
            err,
            b"regmap: ",
            path,
            b" is a witness and no store: use check, read or dot.\n",
        ),
        Holds::Other => say3(
            err,
            b"regmap: ",
            path,
            b": refused (1) these are not the bytes of a store. If it is a map, build a store from it first.\n",
        ),
        _ => return refuse(err, path, Refusal::NotSound.number()),
    }
    Failure::Refused
}

// A file that is refused for its bytes.
pub(crate) fn no_witness(path: &[u8], bytes: &[u8], err: i32) -> Failure {
    match kind_of(bytes) {
        Holds::Store => say3(
            err,
            b"regmap: ",
            path,
            b" is a store and no witness: use list, get or root.\n",
        ),
        Holds::Cbor => say3(
            err,
            b"regmap: ",
            path,
            b": refused (9) this is CBOR, as the certificate tools have it: use uncbor first.\n",
        ),
        Holds::Other => say3(
            err,
            b"regmap: ",
            path,
            b": refused (9) these are not the bytes of a witness. Text out of a mail (hex, base64) must be turned into bytes first.\n",
        ),
        _ => return refuse(err, path, Refusal::Malformed.number()),
    }
    Failure::Refused
}

// The digest that a witness rebuilds to; or it is said why the file is no witness.
fn digest_of(path: &[u8], witness: &[u8], err: i32) -> Result<[u8; 32], Failure> {
    rebuild(witness).map_err(|_| no_witness(path, witness, err))
}

// ---- checking

// A witness that is to be checked: its file, the digest that is wanted, in hex, and how the answer is said.
#[derive(Clone, Copy)]
pub(crate) struct Asked<'a> {
    pub path: &'a [u8],
    pub wanted: &'a [u8],
    pub json: bool,
    pub err: i32,
}

// Whether the digest is the one that is wanted, in hex.
fn is_wanted(digest: &[u8], wanted: &[u8]) -> bool {
    hex::value(wanted).is_some_and(|few| is(digest, few.as_slice()))
}

fn say_match(path: &[u8], witness: &[u8]) {
    say(OUT, path);
    say(OUT, b" matches: it rebuilds to that root digest.\n");
    say_counts(OUT, counted(witness));
}

fn say_other(path: &[u8], digest: &[u8], err: i32) -> Failure {
    say3(err, b"regmap: ", path, b" does not match: ");
    say_with_hex(
        err,
        b"it rebuilds to ",
        digest,
        b". It is no witness of that release: do not use it.\n",
    );
    Failure::Refused
}

// A witness with its digest, against the one that is wanted.
fn compared(asked: Asked, digest: &[u8], witness: &[u8]) -> Result<(), Failure> {
    let same = is_wanted(digest, asked.wanted);
    if asked.json {
        json::check(digest, same, counted(witness));
        return if same { Ok(()) } else { Err(Failure::Refused) };
    }
    if !same {
        return Err(say_other(asked.path, digest, asked.err));
    }
    say_match(asked.path, witness);
    Ok(())
}

fn check(asked: Asked, witness: &[u8]) -> Result<(), Failure> {
    let digest = digest_of(asked.path, witness, asked.err)?;
    compared(asked, &digest, witness)
}

// ---- showing

// Whether the digest is the one that is given, if one is.
fn matches_given(line: Line, digest: &[u8]) -> Option<bool> {
    if line.has_digest() {
        return Some(is_wanted(digest, line.word(2)));
    }
    None
}

fn read_text(line: Line, witness: &[u8]) -> Result<(), Failure> {
    records::read(witness);
    let digest = digest_of(line.word(1), witness, line.err)?;
    say_with_hex(OUT, b"root digest ", &digest, b"\n");
    say_counts(OUT, counted(witness));
    match matches_given(line, &digest) {
        None => say(
            OUT,
            b"compared with nothing: check compares it with a root digest.\n",
        ),
        Some(true) => say(OUT, b"it matches the digest given.\n"),
        Some(false) => return Err(say_other(line.word(1), &digest, line.err)),
    }
    Ok(())
}

// As JSON, a picture or a page: of a witness that rebuild takes, and matches the digest if one is given.
fn shown(command: Command, line: Line, witness: &[u8]) -> Result<(), Failure> {
    let digest = digest_of(line.word(1), witness, line.err)?;
    let matches = matches_given(line, &digest);
    match command {
        Command::Read => json::read(witness, &digest, matches, counted(witness)),
        Command::Dot => picture::dot(witness, &digest, matches == Some(true)),
        _ => page(witness, &digest, matches),
    }
    if matches == Some(false) {
        return Err(say_other(line.word(1), &digest, line.err));
    }
    Ok(())
}

// ---- asking

// The name that a word gives; the words of a line were looked at before, so that it gives one where a name is wanted.
pub fn name_in(word: &[u8]) -> Few {
    hex::name(word).unwrap_or(hex::none())
}

// Nothing is said of a witness before its digest matched.
fn ask_of(line: Line, witness: &[u8]) -> Result<(), Failure> {
    let digest = digest_of(line.word(1), witness, line.err)?;
    if !is_wanted(&digest, line.word(2)) {
        return Err(say_other(line.word(1), &digest, line.err));
    }
    match ask(witness, name_in(line.word(3)).as_slice()) {
        Ok(Told::Known) => Ok(()),
        Ok(Told::Silent) => Err(Failure::Refused),
        Err(refusal) => Err(refuse(line.err, line.word(1), refusal.number())),
    }
}

fn show(command: Command, line: Line, witness: &[u8]) -> Result<(), Failure> {
    match command {
        Command::Ask => ask_of(line, witness),
        Command::Check => check(asked_on(line), witness),
        Command::Read if !line.is_json() => read_text(line, witness),
        _ => shown(command, line, witness),
    }
}

// What a line with `check` asks.
fn asked_on(line: Line) -> Asked {
    Asked {
        path: line.word(1),
        wanted: line.word(2),
        json: line.is_json(),
        err: line.err,
    }
}

// ---- merging

// Where it is said that a file was written: beside it, if that is standard output.
pub fn said_to(path: &[u8]) -> i32 {
    if is(path, b"-") { 2 } else { OUT }
}

// A witness that was written: its length, the digest that it rebuilds to, and what it shows.
pub fn say_cut(path: &[u8], witness: &[u8]) {
    let to = said_to(path);
    say(to, path);
    say(to, b": ");
    say_number(to, witness.len());
    say_rebuilt(to, b" bytes, root ", witness);
    say_counts(to, counted(witness));
}

// The digest of a witness that was made here, and so rebuilds to one.
fn say_rebuilt(to: i32, before: &[u8], witness: &[u8]) {
    let digest = rebuild(witness).unwrap_or([0; 32]);
    say_with_hex(to, before, &digest, b"\n");
}

fn say_root(path: &[u8], digest: &[u8], err: i32) {
    say3(err, b"  ", path, b" rebuilds to ");
    say_with_hex(err, b"", digest, b"\n");
}

// Why two files do not merge.
fn unmerged(line: Line, one: &[u8], other: &[u8], refusal: Refusal) -> Result<(), Failure> {
    let first = digest_of(line.word(1), one, line.err)?;
    let second = digest_of(line.word(2), other, line.err)?;
    let failure = refuse(line.err, line.word(2), refusal.number());
    say_root(line.word(1), &first, line.err);
    say_root(line.word(2), &second, line.err);
    Err(failure)
}

fn merged(rt: &HostRuntime, line: Line, one: &[u8], other: &[u8]) -> Result<(), Failure> {
    let mut out = zeros::<FILE>();
    match merge(one, other, &mut out) {
        Err(refusal) => unmerged(line, one, other, refusal),
        Ok(n) => {
            let witness = part(&out, 0, n);
            save(rt, line.word(3), witness, false, line.err)?;
            say_cut(line.word(3), witness);
            Ok(())
        }
    }
}

// Two witnesses of one release in one.
pub fn merge_files(rt: &HostRuntime, line: Line) -> Result<(), Failure> {
    let mut first = zeros::<FILE>();
    let one = load(rt, line.word(1), &mut first, line.err)?;
    let mut second = zeros::<FILE>();
    let other = load(rt, line.word(2), &mut second, line.err)?;
    merged(rt, line, one, other)
}

// ---- many files

// A line of a list: DIGEST WITNESS.
fn check_line(rt: &HostRuntime, line: Line) -> Result<(), Failure> {
    let asked = Asked {
        path: line.word(1),
        wanted: line.word(0),
        json: false,
        err: line.err,
    };
    digest_ok(asked.wanted, asked.err)?;
    let mut buf = zeros::<FILE>();
    let witness = load(rt, asked.path, &mut buf, asked.err)?;
    check(asked, witness)
}

// Every line of a list; the worst that came of one.
fn check_lines(rt: &HostRuntime, list: &[u8], err: i32) -> Result<(), Failure> {
    let mut worst = Ok(());
    for words in list.split(|b| *b == b'\n').filter(|line| register_on(line)) {
        worst = worst.max(check_line(rt, Line { words, err }));
        if is_unread() {
            return Err(Failure::Unread);
        }
    }
    worst
}

fn check_list(rt: &HostRuntime, path: &[u8], err: i32) -> Result<(), Failure> {
    let mut buf = zeros::<65_536>();
    let list = load(rt, path, &mut buf, err)?;
    blanked(list);
    check_lines(rt, list, err)
}

// By the command's number; any number that asks nothing else shows the witness as a page. Its buffers stand in a frame of its own, and
// not in that of every command.
#[inline(never)]
pub fn inspect(rt: &HostRuntime, kind: usize, line: Line) -> Result<(), Failure> {
    let command = COMMANDS.get(kind).copied().unwrap_or(Command::Html);
    if is(line.word(1), b"-c") {
        return check_list(rt, line.word(2), line.err);
    }
    if command == Command::Check && is(line.word(1), b"-") {
        return check_stream(rt, asked_on(line));
    }
    let mut buf = zeros::<FILE>();
    let witness = load(rt, line.word(1), &mut buf, line.err)?;
    show(command, line, witness)
}
