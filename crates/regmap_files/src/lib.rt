// Files for the tool: read whole, written whole or not at all, held while they are changed, and told apart by their first bytes.
// A name `-` is standard input where a file is read, and standard output where one is written.
#![tactic(auto)]

pub mod room;

use regmap_words::says::Failure;
use std::fs::{File, OpenOptions};
use std::io::{ErrorKind, Read, Seek, SeekFrom, Write};
use std::os::fd::{AsRawFd, IntoRawFd};
use std::os::unix::fs::FileExt;
use std::str::from_utf8;
use std::{fs, io};
use std_io::io::last_error;
use text::print::{say, say_number, say3};
use text::words::{is, part};

fn reason(error: &io::Error) -> &'static [u8] {
    match error.kind() {
        ErrorKind::NotFound => b"there is no such file or folder",
        ErrorKind::PermissionDenied => b"it is not permitted",
        ErrorKind::IsADirectory => b"it is a folder",
        ErrorKind::NotADirectory => b"a folder of its path is a file",
        ErrorKind::StorageFull => b"the disk is full",
        ErrorKind::AlreadyExists =>
            b"its .new is there: another run is at work, or was cut off. Wait for it; if none is at work, remove that file",
        ErrorKind::ReadOnlyFilesystem => b"the file system may only be read",
        ErrorKind::InvalidFilename => b"its name is too long",
        ErrorKind::BrokenPipe => b"no reader is left",
        _ => b"the system refused it",
    }
}

// Says why a call failed.
pub fn trouble(err: i32, what: &[u8], path: &[u8], error: io::Error) -> Failure {
    say3(err, b"regmap: can't ", what, path);
    say3(err, b": ", reason(&error), b".\n");
    Failure::Trouble
}

// ---- reading

// Reads until the file ends or the buffer is full: how many bytes, or why a read failed. The loop stays: std's read_exact tells no length
// where a file ends early, and read_to_end needs a heap.
fn read_all<R: Read>(file: &mut R, buf: &mut [u8]) -> io::Result<usize> {
    let mut n = 0;
    while n < buf.len() {
        let more = file.read(&mut buf[n..])?;
        if more == 0 {
            return Ok(n);
        }
        n += more;
    }
    Ok(n)
}

fn too_long(err: i32, path: &[u8], n: usize) -> Failure {
    say3(err, b"regmap: ", path, b" is too long: fewer than ");
    say_number(err, n);
    say(err, b" bytes are read.\n");
    Failure::Trouble
}

// The system takes shorter paths than this.
const PATH_MAX: usize = 4096;

// A path as std takes it: one that is too long or no UTF-8 is refused.
fn named(path: &[u8]) -> io::Result<&str> {
    if path.len() >= PATH_MAX {
        return Err(io::Error::from(ErrorKind::InvalidFilename));
    }
    from_utf8(path).map_err(|_| io::Error::from(ErrorKind::InvalidInput))
}

// One that took the place of a standard stream stays open, so that nothing else takes it.
fn closed(file: File) {
    if file.as_raw_fd() > 2 {
        return drop(file);
    }
    let _ = file.into_raw_fd();
}

fn read_path(rt: &HostRuntime, path: &[u8], buf: &mut [u8]) -> io::Result<usize> {
    if is(path, b"-") {
        let mut input = rt.stdin();
        return read_all(&mut input, buf);
    }
    let mut file = File::open(rt, named(path)?)?;
    let read = read_all(&mut file, buf);
    closed(file);
    read
}

// The bytes of the file, read into the buffer; or it was said why it could not be read whole.
pub fn load<'a>(
    rt: &HostRuntime,
    path: &[u8],
    buf: &'a mut [u8],
    err: i32,
) -> Result<&'a mut [u8], Failure> {
    let n = read_path(rt, path, buf).map_err(|e| trouble(err, b"read ", path, e))?;
    if n < buf.len() {
        return Ok(&mut buf[..n]);
    }
    Err(too_long(err, path, n))
}

// ---- what a file holds, by its first two bytes

// No bytes are a kind as the others are: what is said of a file is chosen among all five.
#[derive(Clone, Copy, Debug, PartialEq, Eq)]
pub enum Holds {
    Nothing,
    Store,
    Witness,
    Cbor,
    Other,
}

// A store's edition is 1, in four bits; a witness opens with a record, and its CBOR with an array and a kind.
fn holds_pair(a: u8, b: u8) -> Holds {
    match (a, b) {
        (0x10..=0x1f, _) => Holds::Store,
        (0x00 | 0x20, 0) | (0x40, 0..=48) | (0x60, 0..=64) | (0x80, 32) => Holds::Witness,
        (0x81, 0) | (0x82, 3 | 4) | (0x83, 1 | 2) => Holds::Cbor,
        _ => Holds::Other,
    }
}

pub fn kind_of(bytes: &[u8]) -> Holds {
    match bytes {
        [] => Holds::Nothing,
        [_] => Holds::Other,
        [a, b, ..] => holds_pair(*a, *b),
    }
}

// ---- writing

// The longest path beside which a file is written.
const LONGEST: usize = 3999;

// The path with `.new` after it: the name under which a file is written, and which holds it while it is changed. A buffer with its length
// beside it, since nothing here has a heap.
#[derive(Clone, Copy)]
struct NewName {
    len: usize,
    name: [u8; 4003],
}

impl NewName {
    fn of(path: &[u8]) -> io::Result<NewName> {
        let n = path.len();
        if LONGEST < n {
            return Err(io::Error::from(ErrorKind::InvalidFilename));
        }
        let mut name = [0u8; 4003];
        name[..n].copy_from_slice(path);
        name[n..n + 4].copy_from_slice(b".new");
        Ok(NewName { len: n + 4, name })
    }

    fn as_slice(&self) -> &[u8] {
        part(&self.name, 0, self.len)
    }
}

fn create(rt: &HostRuntime, path: &[u8]) -> io::Result<File> {
    let beside = NewName::of(path)?;
    OpenOptions::new()
        .write(true)
        .create_new(true)
        .open(rt, named(beside.as_slice())?)
}

// Makes the `.new`, which nobody else can make until it is gone; or it was said why it can't be made.
pub fn lock(rt: &HostRuntime, path: &[u8], err: i32) -> Result<File, Failure> {
    if is(path, b"-") {
        say(
            err,
            b"regmap: - is no file that can be changed: name one.\n",
        );
        return Err(Failure::Trouble);
    }
    let file = create(rt, path).map_err(|e| trouble(err, b"write ", path, e))?;
    above_standard(rt, file, path, err)
}

// The file, unless it took the place of a standard stream that is not open.
fn above_standard(rt: &HostRuntime, file: File, path: &[u8], err: i32) -> Result<File, Failure> {
    if file.as_raw_fd() < 3 {
        release(rt, file, path);
        say(
            err,
            b"regmap: standard input, output and error must be open.\n",
        );
        return Err(Failure::Trouble);
    }
    Ok(file)
}

fn remove(rt: &HostRuntime, path: &[u8]) -> io::Result<()> {
    let beside = NewName::of(path)?;
    fs::remove_file(rt, named(beside.as_slice())?)
}

// Gives the file up as it was.
pub fn release(rt: &HostRuntime, file: File, path: &[u8]) {
    drop(file);
    let _ = remove(rt, path);
}

fn put(file: &mut File, bytes: &[u8]) -> io::Result<()> {
    file.write_all(bytes)?;
    file.sync_all()
}

// Writes all of the bytes to the `.new` and gives it its name.
fn placed(rt: &HostRuntime, file: &mut File, path: &[u8], bytes: &[u8]) -> io::Result<()> {
    put(file, bytes)?;
    let beside = NewName::of(path)?;
    fs::rename(rt, named(beside.as_slice())?, named(path)?)
}

// Writes a file that is held, and puts it in its place once it is whole.
pub fn finish(
    rt: &HostRuntime,
    mut file: File,
    path: &[u8],
    bytes: &[u8],
    err: i32,
) -> Result<(), Failure> {
    match placed(rt, &mut file, path, bytes) {
        Err(e) => {
            let failure = trouble(err, b"write ", path, e);
            release(rt, file, path);
            Err(failure)
        }
        Ok(()) => Ok(()),
    }
}

fn head(file: &File) -> Holds {
    let mut two = [0u8; 2];
    match file.read_at(&mut two, 0) {
        Ok(n) => kind_of(&two[..n]),
        Err(_) => Holds::Nothing,
    }
}

fn resize(file: &mut File) -> io::Result<()> {
    file.sync_all()?;
    let size = file.seek(SeekFrom::End(0))?;
    file.set_len(size)
}

// A regular file can be made as long as it is; anything else refuses one of the two.
fn is_file(file: &mut File) -> bool {
    resize(file).is_ok()
}

// What a file of a kind is called.
fn called(kind: Holds, to: i32) {
    match kind {
        Holds::Store => say(to, b"store"),
        Holds::Cbor => say(to, b"CBOR"),
        _ => say(to, b"witness"),
    }
}

fn kept(path: &[u8], wanted: Holds, err: i32) -> Failure {
    say3(err, b"regmap: ", path, b" is there, and is no ");
    called(wanted, err);
    say(
        err,
        b": it is not written over. Choose another name, or remove it.\n",
    );
    Failure::Trouble
}

fn open_update(rt: &HostRuntime, path: &[u8]) -> io::Result<File> {
    OpenOptions::new()
        .read(true)
        .write(true)
        .open(rt, named(path)?)
}

// Whether what stands under a name may be replaced: nothing is there, or a regular file that is empty or holds the same kind of bytes. So
// no input is ever written over, under whatever name.
fn may_replace(rt: &HostRuntime, path: &[u8], wanted: Holds, err: i32) -> Result<(), Failure> {
    match open_update(rt, path) {
        Err(e) if e.kind() == ErrorKind::NotFound => Ok(()),
        Err(e) => Err(trouble(err, b"write ", path, e)),
        Ok(file) => is_ours(file, path, wanted, err),
    }
}

// Whether the open file is a regular file that is empty or holds the same kind of bytes.
fn is_ours(mut file: File, path: &[u8], wanted: Holds, err: i32) -> Result<(), Failure> {
    let kind = head(&file);
    let ours = (kind == Holds::Nothing || kind == wanted) && is_file(&mut file);
    closed(file);
    if ours {
        return Ok(());
    }
    Err(kept(path, wanted, err))
}

// What stands there is no file of ours, whatever it looks like.
fn is_system(path: &[u8]) -> bool {
    is(part(path, 0, 5), b"/dev/") || is(part(path, 0, 6), b"/proc/")
}

// One that nobody reads any more is not said: it ends the program (`text::print::is_unread`).
fn sent(rt: &HostRuntime, bytes: &[u8], err: i32) -> Result<(), Failure> {
    let mut output = rt.stdout();
    match Write::write_all(&mut output, bytes) {
        Err(e) if e.kind() == ErrorKind::BrokenPipe => Err(Failure::Trouble),
        Err(e) => Err(trouble(err, b"write ", b"standard output", e)),
        Ok(()) => Ok(()),
    }
}

// Writes a file of this kind, or says why that can't be.
pub fn save_as(
    rt: &HostRuntime,
    path: &[u8],
    bytes: &[u8],
    kind: Holds,
    err: i32,
) -> Result<(), Failure> {
    if is(path, b"-") {
        return sent(rt, bytes, err);
    }
    if is_system(path) {
        say3(
            err,
            b"regmap: ",
            path,
            b" is no file to be written: - is standard output.\n",
        );
        return Err(Failure::Trouble);
    }
    may_replace(rt, path, kind, err)?;
    let file = lock(rt, path, err)?;
    finish(rt, file, path, bytes, err)
}

// A store or a witness.
pub fn save(
    rt: &HostRuntime,
    path: &[u8],
    bytes: &[u8],
    store: bool,
    err: i32,
) -> Result<(), Failure> {
    let kind = if store { Holds::Store } else { Holds::Witness };
    save_as(rt, path, bytes, kind, err)
}

// ---- what was printed

// Linux's numbers of the reasons for which a write fails.
const EIO: i32 = 5;

const EBADF: i32 = 9;

const EAGAIN: i32 = 11;

const EFBIG: i32 = 27;

const ENOSPC: i32 = 28;

const EPIPE: i32 = 32;

// Whether something printed was lost: nothing clears errno, so it is that of the last call that failed, and these are of no call but a write.
pub fn lost(err: i32) -> bool {
    let error = last_error();
    match error.raw_os_error() {
        Some(ENOSPC | EIO | EFBIG | EBADF | EPIPE | EAGAIN) => {
            trouble(err, b"print", b"", error);
            true
        }
        _ => false,
    }
}
