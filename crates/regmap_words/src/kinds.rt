// Which command a line asks for, and whether its words are as they should be. Nothing is read or changed yet.
ghost use Rattle.std.specs.Prelude.{◌≤◌, ◌<◌};

use crate::line::Line;
use crate::says::{Failure, OUT, bad_word, usage, version};
use text::hex;
use text::hex::Few;
use text::print::{is_plain, say};
use text::words::{find, index, is, part};

#[derive(Clone, Copy, Debug, PartialEq, Eq)]
pub enum Command {
    List,
    Get,
    Root,
    Set,
    Add,
    Unset,
    Witness,
    Prefix,
    Full,
    Range,
    Check,
    Read,
    Dot,
    Html,
    Ask,
    Merge,
    Cbor,
    Uncbor,
    Build,
    Run,
    Replay,
    Log,
    Diff,
}

// Their names, in the order of COMMANDS.
const NAMES: [u8; 121] =
    *b"list\0get\0root\0set\0add\0unset\0witness\0prefix\0full\0range\0check\0read\0dot\0html\0ask\0merge\0cbor\0uncbor\0build\0run\0replay\0log\0diff";

// All of them: those whose first file is a store, then the others.
pub const COMMANDS: [Command; 23] = [
    Command::List,
    Command::Get,
    Command::Root,
    Command::Set,
    Command::Add,
    Command::Unset,
    Command::Witness,
    Command::Prefix,
    Command::Full,
    Command::Range,
    Command::Check,
    Command::Read,
    Command::Dot,
    Command::Html,
    Command::Ask,
    Command::Merge,
    Command::Cbor,
    Command::Uncbor,
    Command::Build,
    Command::Run,
    Command::Replay,
    Command::Log,
    Command::Diff,
];

impl Command {
    // How it is written.
    fn form(self) -> &'static [u8] {
        match self {
            Command::List => b"list STORE [--json]",
            Command::Get => b"get STORE NAME",
            Command::Root => b"root STORE",
            Command::Set => b"set STORE NAME HEX",
            Command::Add => b"add STORE NAME HEX",
            Command::Unset => b"unset STORE NAME",
            Command::Witness => b"witness STORE OUT NAME",
            Command::Prefix => b"prefix STORE OUT PREFIX",
            Command::Full => b"full STORE OUT",
            Command::Range => b"range STORE OUT FIRST LAST [--values]",
            Command::Check => b"check WITNESS DIGEST [--json], or check -c FILE",
            Command::Read => b"read WITNESS [DIGEST] [--json]",
            Command::Dot => b"dot WITNESS [DIGEST]",
            Command::Html => b"html WITNESS [DIGEST]",
            Command::Ask => b"ask WITNESS DIGEST NAME",
            Command::Merge => b"merge ONE OTHER OUT",
            Command::Cbor => b"cbor WITNESS OUT",
            Command::Uncbor => b"uncbor CBOR OUT",
            Command::Build => b"build MAP STORE [--capacity N]",
            Command::Run => b"run FILE",
            Command::Replay => b"replay STORE LOG",
            Command::Log => b"log LOG",
            Command::Diff => b"diff OLD NEW",
        }
    }

    // The word that its form begins with.
    fn name(self) -> &'static [u8] {
        let form = self.form();
        &form[..find(form, 0, b' ')]
    }

    // Which of its words is a name of a register, if one is.
    fn name_at(self) -> Option<usize> {
        match self {
            Command::Get | Command::Set | Command::Add | Command::Unset => Some(2),
            Command::Witness | Command::Prefix | Command::Range | Command::Ask => Some(3),
            _ => None,
        }
    }

    // How many of the line's words are options.
    fn options(self, line: Line) -> usize
        ensures { result ≤ 2 }
    {
        match self {
            Command::List | Command::Check | Command::Read if line.is_json() => 1,
            Command::Range if is(line.word(5), b"--values") => 1,
            Command::Build if is(line.word(3), b"--capacity") => 2,
            _ => 0,
        }
    }

    // How many words it has without them.
    fn wanted(self) -> usize
        ensures { result < 9 }
    {
        match self {
            Command::List | Command::Root | Command::Read | Command::Dot | Command::Html => 2,
            Command::Run | Command::Log => 2,
            Command::Get | Command::Unset | Command::Full | Command::Check | Command::Cbor => 3,
            Command::Uncbor | Command::Build | Command::Replay | Command::Diff => 3,
            Command::Set | Command::Add | Command::Witness | Command::Prefix => 4,
            Command::Ask | Command::Merge => 4,
            Command::Range => 5,
        }
    }

    // Whether a digest may stand after a witness.
    fn takes_digest(self) -> bool {
        matches!(self, Command::Read | Command::Dot | Command::Html)
    }

    // Whether its second word is a file too.
    fn takes_two_files(self) -> bool {
        matches!(
            self,
            Command::Witness
                | Command::Prefix
                | Command::Full
                | Command::Range
                | Command::Merge
                | Command::Cbor
                | Command::Uncbor
                | Command::Build
                | Command::Replay
                | Command::Diff
        )
    }
}

// ---- how many words

fn say_form(command: Command, line: Line) -> Failure {
    line.say3(b"", command.form(), b"\n");
    Failure::Trouble
}

fn fits(command: Command, line: Line) -> Result<(), Failure> {
    let n = line.count();
    let most = command.wanted() + command.options(line);
    if n < most {
        line.say(b"regmap: too few words: ");
        return Err(say_form(command, line));
    }
    if n == most || command.takes_digest() && n == most + 1 {
        return Ok(());
    }
    line.say3(b"regmap: ", line.word(most), b" is one word too many: ");
    Err(say_form(command, line))
}

// ---- a word that is no command

// How many letters stand at the same place in both, upper or lower case.
fn likeness(a: &[u8], b: &[u8]) -> usize {
    a.iter()
        .zip(b)
        .filter(|(x, y)| x.eq_ignore_ascii_case(y))
        .count()
}

// The first of the commands that are most like the word, if one has two letters of it.
fn nearest(name: &[u8]) -> Option<Command> {
    let mut best = None;
    let mut most = 1;
    for command in COMMANDS {
        let n = likeness(command.name(), name);
        if most < n {
            most = n;
            best = Some(command);
        }
    }
    best
}

fn unknown(line: Line) -> Failure {
    let name = line.word(0);
    line.say3(b"regmap: ", name, b" is no command");
    match nearest(name) {
        Some(command) => line.say3(b"; did you mean ", command.name(), b"?"),
        None => line.say(b"."),
    }
    line.say(b" regmap --help lists them.\n");
    Failure::Trouble
}

// ---- names, values, digests

// The name that a word gives: it is printable, or in hex.
pub(crate) fn name_of(word: &[u8]) -> Option<Few> {
    if is(part(word, 0, 4), b"hex:") || is_plain(word) {
        return hex::name(word);
    }
    None
}

// Whether it can be a name.
pub fn is_name(word: &[u8]) -> bool {
    name_of(word).is_some()
}

fn name_ok(line: Line, k: usize) -> Result<(), Failure> {
    let name = line.word(k);
    if is_name(name) {
        return Ok(());
    }
    Err(bad_word(
        line.err,
        name,
        b" is no name: a printable word that does not begin with #, or hex: and two hex digits for each byte.\n",
    ))
}

fn value_ok(line: Line) -> Result<(), Failure> {
    let value = line.word(3);
    if hex::value(value).is_some() {
        return Ok(());
    }
    Err(bad_word(
        line.err,
        value,
        b" is no value: write two hex digits for each byte, or - for none.\n",
    ))
}

pub fn digest_ok(word: &[u8], err: i32) -> Result<(), Failure> {
    if hex::value(word).is_some_and(|few| few.len == 32) {
        return Ok(());
    }
    Err(bad_word(err, word, b" is no digest: that is 64 hex digits.\n"))
}

fn rest_ok(command: Command, line: Line) -> Result<(), Failure> {
    match command {
        Command::Set | Command::Add => value_ok(line),
        Command::Range => name_ok(line, 4),
        Command::Ask => digest_ok(line.word(2), line.err),
        Command::Check if !is(line.word(1), b"-c") => digest_ok(line.word(2), line.err),
        Command::Read | Command::Dot | Command::Html if line.has_digest() => {
            digest_ok(line.word(2), line.err)
        }
        _ => Ok(()),
    }
}

// No file has a name that begins with two dashes.
fn no_option(command: Command, line: Line, k: usize) -> Result<(), Failure> {
    let name = line.word(k);
    if !is(part(name, 0, 2), b"--") {
        return Ok(());
    }
    line.say3(b"regmap: ", name, b" is no option here: ");
    Err(say_form(command, line))
}

// ---- the whole line

fn is_help(name: &[u8]) -> bool {
    is(name, b"--help") || is(name, b"-h")
}

fn asks_help(line: Line) -> bool {
    is_help(line.word(0)) || is(line.word(0), b"help") || is_help(line.word(1))
}

// Whether the words are as the command has them.
fn checked(command: Command, line: Line) -> Result<(), Failure> {
    no_option(command, line, 1)?;
    if command.takes_two_files() {
        no_option(command, line, 2)?;
    }
    fits(command, line)?;
    if let Some(k) = command.name_at() {
        name_ok(line, k)?;
    }
    rest_ok(command, line)
}

// The line's command; none, where help or the version was asked for, and said.
pub fn kind_of(line: Line) -> Result<Option<Command>, Failure> {
    if line.has(0) {
        usage(line.err);
        return Err(Failure::Trouble);
    }
    if asks_help(line) {
        usage(OUT);
        return Ok(None);
    }
    let name = line.word(0);
    if is(name, b"--version") {
        version();
        return Ok(None);
    }
    let Some(k) = index(&NAMES, name, COMMANDS.len()) else {
        return Err(unknown(line));
    };
    let command = COMMANDS[k];
    checked(command, line)?;
    Ok(Some(command))
}
