// The tool of a release desk: makes a store from a map of registers, changes it, cuts witnesses from it, checks and reads them.
// Every answer comes from the proved calls; here are words, files and text. docs/REGMAP.md lists the commands.
#![tactic(auto)]

mod build;
mod commands;
mod replays;
mod script;
mod stores;
mod witnesses;

ghost use Rattle.std.specs.Prelude.{◌≤◌, length};

use regmap_words::says::{Failure, OUT, status};
use std::env::{Env, FillError};
use std::process::ExitCode;
use text::print::{UNREAD, is_unread, say, say_number};
use text::words::{is, part, rest, word};

// The empty word, written as the empty name is.
fn empty_word(line: &mut [u8], at: usize) -> usize
    requires { at ≤ length line.old }
    ensures { result ≤ length line.old }
{
    if line.len() - at < 6 {
        return line.len();
    }
    line[at..at + 5].copy_from_slice(b"hex:\0");
    at + 5
}

// Puts the argument `i` at the place, a zero byte after it, and answers the next place; the end, if it does not fit.
fn argument(rt: &HostRuntime, line: &mut [u8], at: usize, i: usize) -> usize
    requires { at ≤ length line.old }
    ensures { result ≤ length line.old }
{
    let Ok(n) = rt.arg(i, &mut line[at..]) else {
        return line.len();
    };
    if n == 0 {
        return empty_word(line, at);
    }
    let end = at + n;
    if end < line.len() {
        line[end] = 0;
        return end + 1;
    }
    end
}

fn is_there(rt: &HostRuntime, i: usize) -> bool {
    let mut none = [0u8; 0];
    !matches!(rt.arg(i, &mut none), Err(FillError::NotPresent))
}

// How many arguments there are, the program's own name among them.
fn arg_count(rt: &HostRuntime) -> usize {
    (0..usize::MAX)
        .find(|i| !is_there(rt, *i))
        .unwrap_or(usize::MAX)
}

// The arguments as a line of words; answers its length, which is all of the line if they do not fit.
fn arguments(rt: &HostRuntime, line: &mut [u8]) -> usize {
    let mut at = 0;
    for i in 1..arg_count(rt) {
        at = argument(rt, line, at, i);
    }
    at
}

// The program ends with 0: started with `--status`, it writes its status, one digit, to descriptor 3, and the script `regmap` ends with
// that. Started without it, its last line says how it ended.
fn is_watched(line: &[u8]) -> bool {
    is(word(line, 0), b"--status")
}

fn say_status(done: Result<(), Failure>) {
    say_number(3, usize::from(status(done)));
}

fn say_end(done: Result<(), Failure>) {
    match done {
        Ok(()) => say(OUT, b"ok\n"),
        Err(Failure::Refused) => say(OUT, b"refused\n"),
        Err(Failure::Trouble | Failure::Unread) => say(OUT, b"failed\n"),
    }
}

// Its own status is 0; only a reader that stopped ends it as the system would.
fn ended() -> ExitCode {
    if is_unread() {
        return ExitCode::from(UNREAD);
    }
    ExitCode::SUCCESS
}

fn too_long() -> Failure {
    say(2, b"regmap: the words are too long: 16 KiB are read.\n");
    Failure::Trouble
}

// Does what the words ask, and says how it ended.
fn run(rt: &HostRuntime, words: &[u8]) {
    let watched = is_watched(words);
    let done = script::done(rt, if watched { rest(words, 1) } else { words });
    if is_unread() {
        return;
    }
    if watched {
        say_status(done);
    } else {
        say_end(done);
    }
}

fn main(rt: HostRuntime) -> ExitCode {
    let mut line = [0u8; 16_384];
    let n = arguments(&rt, &mut line);
    if n == 16_384 {
        let failure = too_long();
        say_status(Err(failure));
        say_end(Err(failure));
        return ended();
    }
    run(&rt, part(&line, 0, n));
    ended()
}
