// Public calls of the library, a line at a time: a test driver that holds two stores and one output, and writes a line of answer for
// each line of its script. Words are parted by single spaces; bytes are lowercase hex, `-` for none; numbers are decimal; an answer
// begins with the number of document 01. `?` answers a line that it does not know, bad hex, or a number that does not fit.
//
// Landed: every line of the base: buffer, load, poke, room, create, insert, modify, delete, get, first, next, count, empty, root,
// full, keys, witness, krange, vrange, prefix, rebuild, hash, store, sum; of the later requests ask (Q-1), merge (Q-14), begin, part,
// end (Q-8), tocbor, fromcbor (Q-9), replay (Q-12), and swap, diff (Q-3). 4 is by the rule of Q-7.
#![tactic(auto)]

mod input;
mod lines;
mod names;
mod reply;
mod words;

use crate::input::Input;
use crate::lines::Driver;
use std::process::ExitCode;
use text::print::{UNREAD, is_unread};

fn main(rt: HostRuntime) -> ExitCode {
    // All its memory is fixed, as that of the library is: there is no heap.
    let mut input = Input::new();
    let mut line = [0u8; 320_000];
    let mut store = [0u8; 153_608];
    let mut other = [0u8; 153_608];
    let mut output = [0u8; 131_072];
    let mut driver = Driver::new(&mut store, &mut other, &mut output);
    lines::run(&rt, &mut input, &mut line, &mut driver);
    // A reader that stopped ends it as the system would.
    if is_unread() {
        return ExitCode::from(UNREAD);
    }
    ExitCode::SUCCESS
}
