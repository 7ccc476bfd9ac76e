// `check -`: a witness from standard input, taken as it comes and of any length, and left at the first byte that makes it no witness.
ghost use Rattle.std.specs.Prelude.{◌≡◌, ◌≤◌, length};

use crate::{Asked, compared, is_wanted, no_witness, say_other};
use answers::Refusal;
use parts::{STATE, rebuild_begin, rebuild_end, rebuild_part};
use regmap_files::room::{FILE, zeros};
use regmap_files::trouble;
use regmap_words::says::{Failure, OUT, refuse};
use std::io::Read;
use text::print::{say, say_number};
use text::words::part;

// What is kept of it, to be counted at the end: as much as is read of a file.
const KEPT: usize = 524_288;

// More bytes than come in a lifetime.
const MOST: usize = 0x1000_0000_0000_0000;

// Where the next bytes go: after the others, and where there is no room left, over the first ones.
fn place(n: usize, room: usize) -> usize
    ensures { result ≤ room }
{
    if n < room { n } else { 0 }
}

// Which byte of a part makes it no witness, from the state before the part.
fn first_bad(before: [u8; STATE], bytes: &[u8]) -> usize
    ensures { result ≤ length bytes.now }
{
    let mut state = before;
    bytes
        .iter()
        .position(|b| rebuild_part(&mut state, &[*b]).is_err())
        .unwrap_or(bytes.len())
}

// After how many bytes it ended; or it was said why no more was read.
fn take(
    rt: &HostRuntime,
    kept: &mut [u8],
    state: &mut [u8; STATE],
    err: i32,
) -> Result<usize, Failure>
    requires { length kept.old ≡ 524288 }
{
    let mut input = rt.stdin();
    let mut n = 0;
    // It goes by what a read brings, and no index counts it: an iterator over reads would hold input, room and state to say the same.
    while n < MOST {
        let at = place(n, kept.len());
        let more = input
            .read(&mut kept[at..])
            .map_err(|e| trouble(err, b"read ", b"-", e))?;
        if more == 0 {
            return Ok(n);
        }
        let end = at + more;
        let before = *state;
        if rebuild_part(state, &kept[at..end]).is_err() {
            let bad = n + first_bad(before, &kept[at..end]);
            return Err(stopped(bad, kept, err));
        }
        n += more;
    }
    Ok(n)
}

// What it is, by its first bytes, while they are kept.
fn refused(n: usize, kept: &[u8], err: i32) -> Failure {
    if n < KEPT {
        return no_witness(b"-", kept, err);
    }
    refuse(err, b"-", Refusal::Malformed.number())
}

fn stopped(at: usize, kept: &[u8], err: i32) -> Failure {
    let failure = refused(at, kept, err);
    say(err, b"  the byte at offset ");
    say_number(err, at);
    say(err, b" makes it no witness; no more was read.\n");
    failure
}

fn ended_early(n: usize, kept: &[u8], err: i32) -> Failure {
    let failure = refused(n, part(kept, 0, n), err);
    say(err, b"  it ended after ");
    say_number(err, n);
    say(err, b" bytes, before a witness was whole.\n");
    failure
}

// A witness of which not all was kept: nothing is counted.
fn compared_long(asked: Asked, n: usize, digest: &[u8]) -> Result<(), Failure> {
    if asked.json {
        say(asked.err, b"regmap: - is too long for --json: ");
        say_number(asked.err, n);
        say(
            asked.err,
            b" bytes, and its registers are counted up to 524288.\n",
        );
        return Err(Failure::Trouble);
    }
    if !is_wanted(digest, asked.wanted) {
        return Err(say_other(asked.path, digest, asked.err));
    }
    say(OUT, asked.path);
    say(OUT, b" matches: it rebuilds to that root digest.\n");
    say_number(OUT, n);
    say(OUT, b" bytes: too long for its registers to be counted.\n");
    Ok(())
}

pub(crate) fn check_stream(rt: &HostRuntime, asked: Asked) -> Result<(), Failure> {
    let mut kept = zeros::<FILE>();
    let mut state = [0u8; STATE];
    rebuild_begin(&mut state);
    let n = take(rt, &mut kept, &mut state, asked.err)?;
    let digest = rebuild_end(&state).map_err(|_| ended_early(n, &kept, asked.err))?;
    if n <= KEPT {
        return compared(asked, &digest, part(&kept, 0, n));
    }
    compared_long(asked, n, &digest)
}
