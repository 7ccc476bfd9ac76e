// The commands cbor and uncbor: a witness in the CBOR of the certificate tools, and back.
use crate::{no_witness, said_to, say_cut, say_rebuilt};
use answers::Refusal;
use cbor::{read_cbor, write_cbor};
use regmap_files::room::{FILE, zeros};
use regmap_files::{Holds, load, save, save_as};
use regmap_words::kinds::{COMMANDS, Command};
use regmap_words::line::Line;
use regmap_words::says::{Failure, refuse};
use text::print::{say, say_number};
use text::words::part;

// CBOR that was written: its length, and the digest of the tree in it.
fn say_cbor(path: &[u8], length: usize, witness: &[u8]) {
    let to = said_to(path);
    say(to, path);
    say(to, b": ");
    say_number(to, length);
    say_rebuilt(to, b" bytes of CBOR, root ", witness);
}

fn refused(line: Line, bytes: &[u8], refusal: Refusal) -> Failure {
    match refusal {
        Refusal::Malformed => no_witness(line.word(1), bytes, line.err),
        _ => refuse(line.err, line.word(1), refusal.number()),
    }
}

fn to_cbor(rt: &HostRuntime, line: Line, witness: &[u8], out: &mut [u8]) -> Result<(), Failure> {
    let n = write_cbor(witness, out).map_err(|refusal| refused(line, witness, refusal))?;
    save_as(rt, line.word(2), part(out, 0, n), Holds::Cbor, line.err)?;
    say_cbor(line.word(2), n, witness);
    Ok(())
}

fn from_cbor(rt: &HostRuntime, line: Line, cbor: &[u8], out: &mut [u8]) -> Result<(), Failure> {
    let n = read_cbor(cbor, out).map_err(|refusal| refused(line, cbor, refusal))?;
    let witness = part(out, 0, n);
    save(rt, line.word(2), witness, false, line.err)?;
    say_cut(line.word(2), witness);
    Ok(())
}

// The other form of a file, by the command's number: CBOR for `cbor`, back for any other.
pub fn exchange_file(rt: &HostRuntime, kind: usize, line: Line) -> Result<(), Failure> {
    let mut buf = zeros::<FILE>();
    let bytes = load(rt, line.word(1), &mut buf, line.err)?;
    let mut out = zeros::<FILE>();
    match COMMANDS.get(kind) {
        Some(Command::Cbor) => to_cbor(rt, line, bytes, &mut out),
        _ => from_cbor(rt, line, bytes, &mut out),
    }
}
