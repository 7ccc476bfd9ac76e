// One command: its words are looked at, then its work is done.
use crate::build::build;
use crate::replays::replay;
use crate::{stores, witnesses};
use regmap_check::exchange::exchange_file;
use regmap_check::{inspect, merge_files};
use regmap_diff::diff;
use regmap_log::show;
use regmap_words::kinds::{COMMANDS, Command, kind_of};
use regmap_words::line::Line;
use regmap_words::says::Failure;

fn no_run(line: Line) -> Failure {
    line.say(b"regmap: run is no line of a file that is run: put its lines here.\n");
    Failure::Trouble
}

// A command's place among all of them.
fn number(command: Command) -> usize {
    COMMANDS
        .iter()
        .position(|c| *c == command)
        .unwrap_or(COMMANDS.len())
}

// Does one command. Complaints go to `line.err`. What `inspect`, `cut` and `change` hold stands in frames of their own (`inline(never)`),
// and not beside the buffers of every other command.
pub(crate) fn command(rt: &HostRuntime, line: Line) -> Result<(), Failure> {
    let Some(command) = kind_of(line)? else {
        return Ok(());
    };
    match command {
        Command::List => stores::with_store(rt, line, stores::list),
        Command::Get => stores::with_store(rt, line, stores::get),
        Command::Root => stores::with_store(rt, line, stores::root),
        Command::Set | Command::Add | Command::Unset => stores::change(rt, command, line),
        Command::Witness | Command::Prefix | Command::Full | Command::Range => {
            witnesses::cut(rt, command, line)
        }
        Command::Check | Command::Read | Command::Dot | Command::Html | Command::Ask => {
            inspect(rt, number(command), line)
        }
        Command::Merge => merge_files(rt, line),
        Command::Cbor | Command::Uncbor => exchange_file(rt, number(command), line),
        Command::Diff => diff(rt, line),
        Command::Build => build(rt, line),
        Command::Replay => replay(rt, line),
        Command::Log => show(rt, line),
        Command::Run => Err(no_run(line)),
    }
}
