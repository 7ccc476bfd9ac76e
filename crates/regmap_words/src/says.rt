// What is said to a person, and the exit statuses.
ghost use Rattle.std.specs.Prelude.{◌≡◌, ◌<◌, IfOk, IfErr};

use text::print::{UNREAD, say, say_number, say3};

// Why a command failed; each has its exit status.
#[derive(Clone, Copy, Debug, PartialEq, Eq, PartialOrd, Ord)]
pub enum Failure {
    // Refused by a number of document 01, or a digest that does not match.
    Refused,
    // The words are wrong, or a file can't be read or written.
    Trouble,
    // Nobody reads any more what is printed.
    Unread,
}

// The exit status of a command.
pub fn status(done: Result<(), Failure>) -> u8
    ensures well { IfOk done (λ _. result ≡ 0) }
    ensures failed { IfErr done (λ _. 0 < result) }
{
    match done {
        Ok(()) => 0,
        Err(Failure::Refused) => 1,
        Err(Failure::Trouble) => 2,
        Err(Failure::Unread) => UNREAD,
    }
}

pub const OUT: i32 = 1;

// The version of include/dampcandle.h (scripts/test-regmap.sh holds the two together).
pub fn version() {
    say(OUT, b"regmap 1.1.0\n");
}

pub fn usage(to: i32) {
    say(
        to,
        b"regmap: a map of registers as a store with a root digest, and witnesses of it

               regmap ..                       for example, regmap ..
  a store      build MAP STORE [--capacity N]  build examples/uart.map u.store
               list STORE [--json]             list u.store
               get STORE NAME                  get u.store 008.CTRL
               root STORE                      root u.store
               diff OLD NEW                    diff u.store v.store
  a change     set STORE NAME HEX              set u.store 008.CTRL 0008
               add STORE NAME HEX              add u.store 010.NEW 0010
               unset STORE NAME                unset u.store 008.CTRL
               replay STORE LOG                replay u.store examples/uart.log
  a witness    witness STORE OUT NAME          witness u.store w 008.CTRL
               range STORE OUT FIRST LAST      range u.store w 004.STATUS 00c.BAUD
                 [--values]                    range u.store w 008 010 --values
               prefix STORE OUT PREFIX         prefix u.store w 00
               full STORE OUT                  full u.store w
               merge ONE OTHER OUT             merge w v both
               cbor WITNESS OUT                cbor w w.cbor
               uncbor CBOR OUT                 uncbor w.cbor w
  is it right? check WITNESS DIGEST [--json]   check w $(regmap root u.store)
               check -c FILE                   check -c digests
               ask WITNESS DIGEST NAME         ask w $(regmap root u.store) 010
  shown        read WITNESS [DIGEST] [--json]  read w
               dot WITNESS [DIGEST]            dot w | dot -Tsvg >w.svg
               html WITNESS [DIGEST]           html w >w.html
               log LOG                         log examples/uart.log
  from a file  run FILE                        run examples/tour.run
  about it     --help, --version

MAP has a register a line: NAME HEX. HEX is two digits a byte, - for none.
A name that is no printable word is hex: and its bytes in hex. A file named -
is standard input, an OUT named - standard output. Status: 0 done, 1 refused
or no match, 2 wrong words or files. docs/REGMAP.md says more.
",
    );
}

// What a refusal means by its number, and what to do; no byte for a number that is none.
fn meaning_of(number: usize) -> &'static [u8] {
    match number {
        1 =>
            b"(1) the store is not sound: its bytes are damaged, or are no store. Take a sound copy, or build it anew from its map.",
        2 => b"(2) the name is longer than 48 bytes. Shorten it.",
        3 => b"(3) the value is longer than 64 bytes. Shorten it.",
        4 => b"(4) FIRST is above LAST, and two names or more lie from LAST to FIRST. Swap them.",
        5 =>
            b"(5) the store is full. Unset a register, or build it anew with a larger --capacity, at most 1024.",
        6 => b"(6) the witness does not fit the output. Ask for less.",
        7 => b"(7) there is no such register. regmap list shows the names.",
        8 => b"(8) a store has a capacity of 1 to 1024. Choose one.",
        9 =>
            b"(9) the bytes are not exactly one witness. Get the file again; regmap read shows how far it makes sense.",
        10 => b"(10) the message is longer than 65536 bytes.",
        11 =>
            b"(11) the witness is not well-formed: names that do not rise, or a bare value. None of regmap's is; distrust its maker.",
        12 => b"(12) the bytes are no witness in CBOR.",
        13 => b"(13) the log is malformed.",
        14 => b"(14) the path is empty, too long or cut short.",
        15 => b"(15) these are not two witnesses of one release.",
        _ => b"",
    }
}

pub fn meaning(err: i32, number: usize) {
    say(err, meaning_of(number));
    say(err, b"\n");
}

// This file or register is refused, by the number.
pub fn refuse(err: i32, what: &[u8], number: usize) -> Failure {
    say3(err, b"regmap: ", what, b": refused ");
    meaning(err, number);
    Failure::Refused
}

// A word that is no name, no value or no digest.
pub fn bad_word(err: i32, word: &[u8], what: &[u8]) -> Failure {
    say3(err, b"regmap: ", word, what);
    Failure::Trouble
}

// "12 registers", "1 register".
pub fn say_registers(to: i32, n: usize) {
    say_number(to, n);
    if n == 1 {
        return say(to, b" register");
    }
    say(to, b" registers");
}
