// What bench/ measures, and nothing else: the functions for callers that know a store to be sound, called for each row of a table
// after one judging. A row has 64 bytes; its front is the key or the value.
#![tactic(auto)]

ghost use Rattle.std.specs.Prelude.{◌≡◌, ◌≢◌, ◌≤◌, length};
ghost use Rattle.runs.specs.Runs.{Decides};
ghost use Rattle.store.specs.Sound.{Sound};
ghost use Rattle.sha256.specs.Hash.{sha256};
ghost use Rattle.hash_tree.specs.Whole.{rebuilt};
ghost use Rattle.search.specs.Search.{answer_of};
ghost use Rattle.timed.specs.Rows.{Rows, Ran, Told, changed, changed_rows, one, counted, counted_rows, output, output_rows};

use answers::Refusal;
use judge::judge;
use search::Place;

const ROW: usize = 64;

// The changes, by the numbers that C gives them (timed_change); any other number deletes.
const INSERT: usize = 0;

const MODIFY: usize = 1;

// The readings, likewise (timed_read); any other number is a range with values.
const GET: usize = 0;

const AS_HASH_TREE: usize = 1;

const WITNESS: usize = 2;

const KEY_RANGE: usize = 3;

fn has_rows(table: &[u8], most: usize, length: usize, rows: usize) -> bool
    ensures { Decides result (Rows most length rows table.now) }
{
    length <= most && rows <= table.len() / ROW
}

// ---- changes

fn change(op: usize, s: &mut [u8], key: &[u8], value: &[u8]) -> Result<(), Refusal>
    requires sound { Sound s.old }
    requires lengths { (length key.now ≤ 48) × (length value.now ≤ 64) }
    ensures { (Sound s.new) × (s.new ≡ changed op key.now value.now s.old) }
{
    match op {
        INSERT => rb_tree::insert(s, key, value),
        MODIFY => rb_tree::modify(s, key, value),
        _ => rb_tree::delete(s, key),
    }
}

// What a change is refused for, a full store or an absent key, is no matter here.
fn change_rows(
    op: usize,
    s: &mut [u8],
    keys: &[u8],
    key_length: usize,
    values: &[u8],
    value_length: usize,
    rows: usize,
)
    requires sound { Sound s.old }
    requires rows { (Rows 48 key_length rows keys.now) × (Rows 64 value_length rows values.now) }
    ensures { s.new ≡ changed_rows op keys.now key_length values.now value_length rows s.old }
{
    for i in 0..rows {
        let a = ROW * i;
        let _ = change(
            op,
            s,
            &keys[a..a + key_length],
            &values[a..a + value_length],
        );
    }
}

// One change for each row's key, with its value.
#[unsafe(no_mangle)]
pub extern "C" fn timed_change(
    op: usize,
    store: &mut [u8],
    keys: &[u8],
    key_length: usize,
    values: &[u8],
    value_length: usize,
    rows: usize,
) -> bool
    ensures { Ran (Sound store.old × Rows 48 key_length rows keys.now × Rows 64 value_length rows values.now) result store.old store.new (changed_rows op keys.now key_length values.now value_length rows store.old) }
{
    if !has_rows(keys, 48, key_length, rows) || !has_rows(values, 64, value_length, rows) {
        return false;
    }
    if !judge(store) {
        return false;
    }
    change_rows(op, store, keys, key_length, values, value_length, rows);
    true
}

// ---- readings

fn found(place: Option<Place>) -> usize
    ensures { (result ≡ one (answer_of place).number) × (result ≤ 1) }
{
    match place {
        Some(_) => 1,
        None => 0,
    }
}

// What is written goes to the front of the output.
fn write(op: usize, s: &[u8], first: &[u8], last: &[u8], out: &mut [u8]) -> Result<usize, Refusal>
    requires sound { Sound s.now }
    requires lengths { (length first.now ≤ 48) × (length last.now ≤ 48) }
    requires no_get { op ≢ 0 }
    ensures { out.new ≡ output op first.now last.now s.now out.old }
{
    match op {
        AS_HASH_TREE => witness::as_hash_tree(s, out),
        WITNESS => witness::witness(s, first, out),
        KEY_RANGE => witness::key_range(s, first, last, out),
        _ => witness::value_range(s, first, last, out),
    }
}

// get writes nothing, and counts what it finds; what it takes to write is the same where the output is too short.
fn read(op: usize, s: &[u8], first: &[u8], last: &[u8], out: &mut [u8]) -> usize
    requires sound { Sound s.now }
    requires lengths { (length first.now ≤ 48) × (length last.now ≤ 48) }
    ensures { (result ≡ counted op first.now s.now) × (result ≤ 1) × (out.new ≡ output op first.now last.now s.now out.old) }
{
    if op == GET {
        return found(search::get_place(s, first));
    }
    let _ = write(op, s, first, last, out);
    1
}

fn read_rows(
    op: usize,
    s: &[u8],
    firsts: &[u8],
    lasts: &[u8],
    key_length: usize,
    rows: usize,
    out: &mut [u8],
) -> usize
    requires sound { Sound s.now }
    requires rows { (Rows 48 key_length rows firsts.now) × (Rows 48 key_length rows lasts.now) }
    ensures { (result ≡ counted_rows op s.now firsts.now key_length rows) × (out.new ≡ output_rows op s.now firsts.now lasts.now key_length rows out.old) }
{
    let mut n = 0;
    for i in 0..rows {
        let a = ROW * i;
        let r = read(
            op,
            s,
            &firsts[a..a + key_length],
            &lasts[a..a + key_length],
            out,
        );
        n += r;
    }
    n
}

// One reading for each row: how many keys get finds, or how many witnesses are written.
#[unsafe(no_mangle)]
pub extern "C" fn timed_read(
    op: usize,
    store: &[u8],
    firsts: &[u8],
    lasts: &[u8],
    key_length: usize,
    rows: usize,
    out: &mut [u8],
) -> usize
    ensures { Told (Sound store.now × Rows 48 key_length rows firsts.now × Rows 48 key_length rows lasts.now) result (counted_rows op store.now firsts.now key_length rows) out.old out.new (output_rows op store.now firsts.now lasts.now key_length rows out.old) }
{
    if !has_rows(firsts, 48, key_length, rows) || !has_rows(lasts, 48, key_length, rows) {
        return 0;
    }
    if !judge(store) {
        return 0;
    }
    read_rows(op, store, firsts, lasts, key_length, rows, out)
}

// ---- rebuild

// The number of document 01, and the digest; zeros where there is none.
#[unsafe(no_mangle)]
pub extern "C" fn timed_rebuild(witness: &[u8], digest: &mut [u8; 32]) -> usize
    ensures { (result ≡ (rebuilt witness.now).number) × (digest.new ≡ (rebuilt witness.now).digest) }
{
    match hash_tree::rebuild(witness) {
        Ok(d) => {
            *digest = d;
            0
        }
        Err(r) => {
            *digest = [0; 32];
            r.number()
        }
    }
}

// ---- SHA-256, for the other side to hash with

#[unsafe(no_mangle)]
pub extern "C" fn timed_sha256(message: &[u8], digest: &mut [u8; 32])
    ensures { digest.new ≡ sha256 message.now }
{
    *digest = sha256::digest(message);
}
