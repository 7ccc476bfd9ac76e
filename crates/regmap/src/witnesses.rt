// Commands that cut witnesses.
use crate::stores::refuse_on;
use answers::Refusal;
use regmap_check::{name_in, said_to, say_cut};
use regmap_files::room::{STORE, zeros};
use regmap_files::{load, save};
use regmap_show::counts::say_labels;
use regmap_words::kinds::Command;
use regmap_words::line::Line;
use regmap_words::says::Failure;
use text::print::say;
use text::words::part;

fn is_absent(store: &[u8], name: &[u8]) -> bool {
    let got = register_map::get(store, name_in(name).as_slice());
    matches!(got, Err(Refusal::Absent))
}

// A witness of an absent name shows that it is absent.
fn say_hole(to: i32, name: &[u8], witness: &[u8]) {
    say(to, name);
    say(
        to,
        b" is not in the map: its neighbours are shown, values hidden:",
    );
    say_labels(to, witness);
    say(to, b"\n");
}

fn say_bound(to: i32, store: &[u8], name: &[u8]) {
    if is_absent(store, name) {
        say(to, name);
        say(
            to,
            b" is no register: it is a bound. Names that begin with it lie above it.\n",
        );
    }
}

// What a person may take for something else.
fn say_shown(command: Command, line: Line, store: &[u8], witness: &[u8]) {
    let to = said_to(line.word(2));
    match command {
        Command::Witness if is_absent(store, line.word(3)) => {
            say_hole(to, line.word(3), witness)
        }
        Command::Range => {
            say_bound(to, store, line.word(3));
            say_bound(to, store, line.word(4));
        }
        _ => {}
    }
}

// How long the witness is that the command asks for.
fn written(command: Command, line: Line, store: &[u8], out: &mut [u8]) -> Result<usize, Refusal> {
    let first = name_in(line.word(3));
    let last = name_in(line.word(4));
    let a = first.as_slice();
    let b = last.as_slice();
    match command {
        Command::Witness => register_map::witness(store, a, out),
        Command::Prefix => register_map::keys_with_prefix(store, a, out),
        Command::Full => register_map::as_hash_tree(store, out),
        _ if line.has(6) => register_map::value_range(store, a, b, out),
        _ => register_map::key_range(store, a, b, out),
    }
}

// Writes the witness, and says its length, the digest that it rebuilds to, and what it shows.
#[inline(never)]
pub(crate) fn cut(rt: &HostRuntime, command: Command, line: Line) -> Result<(), Failure> {
    let mut buf = zeros::<STORE>();
    let store = load(rt, line.word(1), &mut buf, line.err)?;
    let mut out = zeros::<120_830>();
    let n = written(command, line, store, &mut out).map_err(|refusal| refuse_on(
        line,
        store,
        line.word(3),
        refusal,
    ))?;
    let witness = part(&out, 0, n);
    save(rt, line.word(2), witness, false, line.err)?;
    say_cut(line.word(2), witness);
    say_shown(command, line, store, witness);
    Ok(())
}
