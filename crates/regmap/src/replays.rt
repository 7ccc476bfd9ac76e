// A build log run on a store: all of it, or nothing is written.
use crate::stores::{held, refuse_on, say_store};
use answers::Refusal;
use regmap_files::room::{FILE, STORE, zeros};
use regmap_files::{load, lock, release};
use regmap_log::{refuse_log, say_replayed};
use regmap_words::line::Line;
use regmap_words::says::{Failure, OUT};
use std::fs::File;

// The store stays as it was.
fn refused(line: Line, store: &[u8], log: &[u8], refusal: Refusal) -> Failure {
    match refusal {
        Refusal::BadLog => refuse_log(line.err, line.word(2), log),
        _ => refuse_on(line, store, line.word(1), refusal),
    }
}

// The store is held, and the log is read.
fn ran(
    rt: &HostRuntime,
    line: Line,
    file: File,
    buf: &mut [u8],
    log: &[u8],
) -> Result<(), Failure> {
    held(
        rt,
        line,
        file,
        buf,
        |store| register_map::replay(store, log),
        |store, refusal| refused(line, store, log, refusal),
        |store, replayed| {
            say_replayed(log, replayed.full, replayed.absent);
            say_store(OUT, store);
        },
    )
}

pub(crate) fn replay(rt: &HostRuntime, line: Line) -> Result<(), Failure> {
    let file = lock(rt, line.word(1), line.err)?;
    let mut store = zeros::<STORE>();
    let mut buf = zeros::<FILE>();
    match load(rt, line.word(2), &mut buf, line.err) {
        Ok(log) => ran(rt, line, file, &mut store, log),
        Err(failure) => {
            release(rt, file, line.word(1));
            Err(failure)
        }
    }
}
