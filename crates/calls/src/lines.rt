// The calls that lines ask for, made on the driver's stores and output.
use crate::input::Input;
use crate::names::{Ask, Call, Change, Feed, Setup, Show, call_of};
use crate::reply::{
    say_bytes, say_count, say_digest, say_done, say_found, say_looked, say_ok, say_replayed,
    say_unknown, say_whether, say_witness,
};
use answers::Refusal;
use parts::STATE;
use std::mem::swap;
use text::print::is_unread;
use text::words::within;

const FRESH: u8 = 0xee;

const UNTOUCHED: u8 = 0xa5;

// Bytes, and how many of them are in use: a later line may put more of them in use, so all are held.
#[derive(Drop)]
pub(crate) struct Buffer<'a> {
    bytes: &'a mut [u8],
    used: usize,
}

impl<'a> Buffer<'a> {
    fn in_use(&self) -> &[u8] {
        &self.bytes[..within(self.used, self.bytes)]
    }

    fn in_use_mut(&mut self) -> &mut [u8] {
        let n = within(self.used, self.bytes);
        &mut self.bytes[..n]
    }
}

// What the driver holds: two stores, one output, and the state of a rebuild in parts.
#[derive(Drop)]
pub(crate) struct Driver<'a> {
    store: Buffer<'a>,
    other: Buffer<'a>,
    output: Buffer<'a>,
    state: [u8; STATE],
}

// How many bytes from `from` on are no longer as they were.
fn touched(output: &[u8], from: usize) -> usize {
    output
        .iter()
        .skip(from)
        .filter(|b| **b != UNTOUCHED)
        .count()
}

impl<'a> Driver<'a> {
    pub(crate) fn new(
        store: &'a mut [u8],
        other: &'a mut [u8],
        output: &'a mut [u8],
    ) -> Driver<'a> {
        let mut state = [0u8; STATE];
        register_map::rebuild_begin(&mut state);
        Driver {
            store: Buffer {
                bytes: store,
                used: 0,
            },
            other: Buffer {
                bytes: other,
                used: 0,
            },
            output: Buffer {
                bytes: output,
                used: 0,
            },
            state,
        }
    }

    // ---- the driver's own bytes

    fn buffer(&mut self, n: u64) -> Option<()> {
        if n > self.store.bytes.len() as u64 {
            return None;
        }
        self.store.bytes.fill(FRESH);
        self.store.used = n as usize;
        Some(())
    }

    fn load(&mut self, new: &[u8]) -> Option<()> {
        let n = new.len();
        self.store.bytes.get_mut(..n)?.copy_from_slice(new);
        self.store.used = n;
        Some(())
    }

    fn poke(&mut self, at: u64, new: &[u8]) -> Option<()> {
        let from = at as usize;
        let to = from.checked_add(new.len())?;
        self.store
            .in_use_mut()
            .get_mut(from..to)?
            .copy_from_slice(new);
        Some(())
    }

    fn room(&mut self, n: u64) -> Option<()> {
        if n > self.output.bytes.len() as u64 {
            return None;
        }
        self.output.used = n as usize;
        Some(())
    }

    fn set_up(&mut self, which: Setup) -> Option<()> {
        match which {
            Setup::Buffer(n) => self.buffer(n),
            Setup::Load(new) => self.load(new),
            Setup::Poke(at, new) => self.poke(at, new),
            Setup::Room(n) => self.room(n),
        }
    }

    // ---- public calls

    fn change(&mut self, which: Change) -> Result<(), Refusal> {
        let store = self.store.in_use_mut();
        match which {
            Change::Create(capacity) => register_map::create(store, capacity),
            Change::Insert(key, value) => register_map::insert(store, key, value),
            Change::Modify(key, value) => register_map::modify(store, key, value),
            Change::Delete(key) => register_map::delete(store, key),
        }
    }

    fn ask(&self, which: Ask) {
        let store = self.store.in_use();
        match which {
            Ask::Get(key) => say_found(register_map::get(store, key)),
            Ask::First => say_found(register_map::first_entry(store)),
            Ask::Next(key) => say_found(register_map::next_entry(store, key)),
            Ask::Count => say_count(register_map::count(store)),
            Ask::Empty => say_whether(register_map::is_empty(store)),
            Ask::Root => say_digest(register_map::root_hash(store)),
            Ask::Rebuild(witness) => say_digest(register_map::rebuild(witness)),
            Ask::Lookup(witness, key) => say_looked(register_map::lookup(witness, key)),
            Ask::Hash(message) => say_digest(register_map::hash(message)),
            Ask::Store => say_bytes(store),
            Ask::Sum => say_bytes(&sha256::digest(store)),
        }
    }

    fn show(&mut self, which: Show) {
        let store = self.store.in_use();
        let out = self.output.in_use_mut();
        out.fill(UNTOUCHED);
        let r = match which {
            Show::Full => register_map::as_hash_tree(store, out),
            Show::Keys => register_map::keys(store, out),
            Show::Witness(key) => register_map::witness(store, key, out),
            Show::KeyRange(first, last) => register_map::key_range(store, first, last, out),
            Show::ValueRange(first, last) => register_map::value_range(store, first, last, out),
            Show::Prefix(prefix) => register_map::keys_with_prefix(store, prefix, out),
            Show::Merge(one, other) => register_map::merge(one, other, out),
            Show::ToCbor(witness) => register_map::write_cbor(witness, out),
            Show::FromCbor(cbor) => register_map::read_cbor(cbor, out),
            // The other is the old store.
            Show::Diff => register_map::difference(self.other.in_use(), store, out),
        };
        say_witness(r, out, touched(out, r.unwrap_or(0)));
    }

    fn feed(&mut self, which: Feed) {
        match which {
            Feed::Begin => {
                register_map::rebuild_begin(&mut self.state);
                say_ok();
            }
            Feed::Part(bytes) => say_done(register_map::rebuild_part(&mut self.state, bytes)),
            Feed::End => say_digest(register_map::rebuild_end(&self.state)),
        }
    }

    // ---- lines

    fn perform(&mut self, call: Call) {
        match call {
            Call::Setup(which) => match self.set_up(which) {
                Some(()) => say_ok(),
                None => say_unknown(),
            },
            Call::Change(which) => say_done(self.change(which)),
            Call::Ask(which) => self.ask(which),
            Call::Show(which) => self.show(which),
            Call::Feed(which) => self.feed(which),
            Call::Replay(log) => {
                say_replayed(register_map::replay(self.store.in_use_mut(), log));
            }
            Call::Swap => {
                swap(&mut self.store, &mut self.other);
                say_ok();
            }
        }
    }

    // Answers a line.
    fn turn(&mut self, line: &mut [u8]) {
        match call_of(line) {
            Some(call) => self.perform(call),
            None => say_unknown(),
        }
    }
}

// Answers line after line. A loop has to end, and nothing says that the input does: it counts its turns, up to a number that no run comes to.
pub(crate) fn run(rt: &HostRuntime, input: &mut Input, line: &mut [u8], driver: &mut Driver) {
    for _ in 0..u64::MAX {
        let Some(n) = input.read_line(rt, line) else {
            return;
        };
        let end = within(n, line);
        driver.turn(&mut line[..end]);
        if is_unread() {
            return;
        }
    }
}
