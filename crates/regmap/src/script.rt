// Commands from the arguments, or from a file with a command a line.
use crate::commands::command;
use regmap_files::room::zeros;
use regmap_files::{load, lost};
use regmap_words::line::Line;
use regmap_words::says::{Failure, OUT, status};
use text::print::{is_unread, say, say_number};
use text::words::{blanked, has, is, part, rest, word};

const ERR: i32 = 2;

// A line that begins with the word `-` may fail.
fn may_fail(line: &[u8]) -> bool {
    is(word(line, 0), b"-")
}

fn is_empty(line: &[u8]) -> bool {
    has(line, 0) || is(part(word(line, 0), 0, 1), b"#")
}

fn say_status(done: Result<(), Failure>) {
    say(OUT, b"status ");
    say_number(OUT, usize::from(status(done)));
    say(OUT, b"\n");
}

// Does a line's command; a failure stops the run.
fn step(rt: &HostRuntime, words: &[u8]) -> Result<(), Failure> {
    if may_fail(words) {
        say_status(command(
            rt,
            Line {
                words: rest(words, 1),
                err: OUT,
            },
        ));
        return Ok(());
    }
    command(rt, Line { words, err: OUT })
}

// What came of it, or trouble if something that was printed is lost. A reader that stopped ends the program.
pub(crate) fn seen(done: Result<(), Failure>) -> Result<(), Failure> {
    if is_unread() {
        return Err(Failure::Unread);
    }
    if lost(ERR) {
        return Err(Failure::Trouble);
    }
    done
}

// The line as it stands; `> ` before it, if it is a command.
fn say_line(line: &[u8]) {
    if !line.is_empty() && !is(part(line, 0, 1), b"#") {
        say(OUT, b"> ");
    }
    say(OUT, line);
    say(OUT, b"\n");
}

fn turn(rt: &HostRuntime, line: &mut [u8]) -> Result<(), Failure> {
    say_line(line);
    if is_unread() {
        return Err(Failure::Unread);
    }
    blanked(line);
    if is_empty(line) {
        return Ok(());
    }
    seen(step(rt, line))
}

fn turns(rt: &HostRuntime, script: &mut [u8]) -> Result<(), Failure> {
    for line in script.split_inclusive_mut(|b| *b == b'\n') {
        let end = line.len() - usize::from(line.ends_with(b"\n"));
        turn(rt, &mut line[..end])?;
    }
    Ok(())
}

fn run(rt: &HostRuntime, path: &[u8]) -> Result<(), Failure> {
    let mut buf = zeros::<65_536>();
    let script = load(rt, path, &mut buf, ERR)?;
    turns(rt, script)
}

// Does what the arguments ask.
pub(crate) fn done(rt: &HostRuntime, words: &[u8]) -> Result<(), Failure> {
    if is(word(words, 0), b"run") && has(words, 2) {
        return run(rt, word(words, 1));
    }
    seen(command(rt, Line { words, err: ERR }))
}
