// The public calls for C (include/dampcandle.h). Each answers its number; whatever else it answers goes into what it is lent for that,
// and a refusal leaves this as it was. A slice is a pointer and a length.
#![tactic(auto)]

mod lent;

ghost use Rattle.std.specs.Prelude.{◌≡◌};
ghost use Rattle.sha256.specs.Hashed.{hashed};
ghost use Rattle.hash_tree.specs.Whole.{rebuilt};
ghost use Rattle.store.specs.Calls.{create_answer, is_empty_answer, count_answer, root_hash_answer, get_answer, first_entry_answer, next_entry_answer, insert_answer, modify_answer, delete_answer, as_hash_tree_answer, keys_answer, witness_answer, key_range_answer, value_range_answer, keys_with_prefix_answer};
ghost use Rattle.store.specs.Replay.{replay_answer};
ghost use Rattle.store.specs.Difference.{difference_answer};
ghost use Rattle.answers.specs.Answers.{changed_of};
ghost use Rattle.lookup.specs.Answer.{lookup_answer};
ghost use Rattle.merge.specs.Answer.{merge_answer};
ghost use Rattle.cbor.specs.Answer.{cbor_written, cbor_read};
ghost use Rattle.parts.specs.Machine.{ended, part_number};
ghost use Rattle.parts.specs.Layout.{begun, run, parts_of};
ghost use Rattle.c_boundary.specs.Lent.{told_is, told_to, counted_is, counted_to, digested_is, digested_to, found_is, found_to, written_is, written_to, replayed_is, replayed_to, asked_is, asked_to};

use crate::lent::{number, put, put_counts, put_places, put_seen};
use parts::STATE;

// ---- the calls as include/dampcandle.h declares them, one by one, places and lengths as numbers of their own: a store as a whole

#[unsafe(no_mangle)]
pub extern "C" fn dampcandle_create(store: &mut [u8], capacity: u64) -> usize
    ensures { changed_of result store.new ≡ create_answer capacity store.old }
{
    number(register_map::create(store, capacity))
}

#[unsafe(no_mangle)]
pub extern "C" fn dampcandle_is_empty(store: &[u8], yes: &mut bool) -> usize
    ensures { told_is result yes.new ≡ told_to yes.old (is_empty_answer store.now) }
{
    put(register_map::is_empty(store), yes)
}

#[unsafe(no_mangle)]
pub extern "C" fn dampcandle_count(store: &[u8], count: &mut usize) -> usize
    ensures { counted_is result count.new ≡ counted_to count.old (count_answer store.now) }
{
    put(register_map::count(store), count)
}

#[unsafe(no_mangle)]
pub extern "C" fn dampcandle_root_hash(store: &[u8], digest: &mut [u8; 32]) -> usize
    ensures { digested_is result digest.new ≡ digested_to digest.old (root_hash_answer store.now) }
{
    let root = register_map::root_hash(store);
    put(root, digest)
}

// ---- entries: where in the store the key and the value lie

#[unsafe(no_mangle)]
pub extern "C" fn dampcandle_get(
    store: &[u8],
    key: &[u8],
    key_at: &mut usize,
    key_length: &mut usize,
    value_at: &mut usize,
    value_length: &mut usize,
) -> usize
    ensures { found_is result key_at.new key_length.new value_at.new value_length.new ≡ found_to key_at.old key_length.old value_at.old value_length.old (get_answer key.now store.now) }
{
    put_places(
        register_map::get(store, key),
        key_at,
        key_length,
        value_at,
        value_length,
    )
}

#[unsafe(no_mangle)]
pub extern "C" fn dampcandle_first_entry(
    store: &[u8],
    key_at: &mut usize,
    key_length: &mut usize,
    value_at: &mut usize,
    value_length: &mut usize,
) -> usize
    ensures { found_is result key_at.new key_length.new value_at.new value_length.new ≡ found_to key_at.old key_length.old value_at.old value_length.old (first_entry_answer store.now) }
{
    put_places(
        register_map::first_entry(store),
        key_at,
        key_length,
        value_at,
        value_length,
    )
}

#[unsafe(no_mangle)]
pub extern "C" fn dampcandle_next_entry(
    store: &[u8],
    key: &[u8],
    key_at: &mut usize,
    key_length: &mut usize,
    value_at: &mut usize,
    value_length: &mut usize,
) -> usize
    ensures { found_is result key_at.new key_length.new value_at.new value_length.new ≡ found_to key_at.old key_length.old value_at.old value_length.old (next_entry_answer key.now store.now) }
{
    put_places(
        register_map::next_entry(store, key),
        key_at,
        key_length,
        value_at,
        value_length,
    )
}

// ---- changes

#[unsafe(no_mangle)]
pub extern "C" fn dampcandle_insert(store: &mut [u8], key: &[u8], value: &[u8]) -> usize
    ensures { changed_of result store.new ≡ insert_answer key.now value.now store.old }
{
    number(register_map::insert(store, key, value))
}

#[unsafe(no_mangle)]
pub extern "C" fn dampcandle_modify(store: &mut [u8], key: &[u8], value: &[u8]) -> usize
    ensures { changed_of result store.new ≡ modify_answer key.now value.now store.old }
{
    number(register_map::modify(store, key, value))
}

#[unsafe(no_mangle)]
pub extern "C" fn dampcandle_delete(store: &mut [u8], key: &[u8]) -> usize
    ensures { changed_of result store.new ≡ delete_answer key.now store.old }
{
    number(register_map::delete(store, key))
}

// Runs a build log.
#[unsafe(no_mangle)]
pub extern "C" fn dampcandle_replay(
    store: &mut [u8],
    log: &[u8],
    full: &mut usize,
    absent: &mut usize,
) -> usize
    ensures { replayed_is result full.new absent.new store.new ≡ replayed_to full.old absent.old (replay_answer log.now store.old) }
{
    put_counts(register_map::replay(store, log), full, absent)
}

// ---- witnesses: each fills the front of the output

#[unsafe(no_mangle)]
pub extern "C" fn dampcandle_as_hash_tree(store: &[u8], out: &mut [u8], length: &mut usize) -> usize
    ensures { written_is result length.new out.new ≡ written_to length.old (as_hash_tree_answer store.now out.old) }
{
    put(register_map::as_hash_tree(store, out), length)
}

#[unsafe(no_mangle)]
pub extern "C" fn dampcandle_keys(store: &[u8], out: &mut [u8], length: &mut usize) -> usize
    ensures { written_is result length.new out.new ≡ written_to length.old (keys_answer store.now out.old) }
{
    put(register_map::keys(store, out), length)
}

#[unsafe(no_mangle)]
pub extern "C" fn dampcandle_witness(
    store: &[u8],
    key: &[u8],
    out: &mut [u8],
    length: &mut usize,
) -> usize
    ensures { written_is result length.new out.new ≡ written_to length.old (witness_answer key.now store.now out.old) }
{
    put(register_map::witness(store, key, out), length)
}

#[unsafe(no_mangle)]
pub extern "C" fn dampcandle_key_range(
    store: &[u8],
    first: &[u8],
    last: &[u8],
    out: &mut [u8],
    length: &mut usize,
) -> usize
    ensures { written_is result length.new out.new ≡ written_to length.old (key_range_answer first.now last.now store.now out.old) }
{
    put(register_map::key_range(store, first, last, out), length)
}

#[unsafe(no_mangle)]
pub extern "C" fn dampcandle_value_range(
    store: &[u8],
    first: &[u8],
    last: &[u8],
    out: &mut [u8],
    length: &mut usize,
) -> usize
    ensures { written_is result length.new out.new ≡ written_to length.old (value_range_answer first.now last.now store.now out.old) }
{
    put(register_map::value_range(store, first, last, out), length)
}

#[unsafe(no_mangle)]
pub extern "C" fn dampcandle_keys_with_prefix(
    store: &[u8],
    prefix: &[u8],
    out: &mut [u8],
    length: &mut usize,
) -> usize
    ensures { written_is result length.new out.new ≡ written_to length.old (keys_with_prefix_answer prefix.now store.now out.old) }
{
    put(register_map::keys_with_prefix(store, prefix, out), length)
}

// ---- two stores

#[unsafe(no_mangle)]
pub extern "C" fn dampcandle_difference(
    old: &[u8],
    new: &[u8],
    out: &mut [u8],
    length: &mut usize,
) -> usize
    ensures { written_is result length.new out.new ≡ written_to length.old (difference_answer old.now new.now out.old) }
{
    put(register_map::difference(old, new, out), length)
}

// ---- without a store

#[unsafe(no_mangle)]
pub extern "C" fn dampcandle_rebuild(witness: &[u8], digest: &mut [u8; 32]) -> usize
    ensures { digested_is result digest.new ≡ digested_to digest.old (rebuilt witness.now) }
{
    put(register_map::rebuild(witness), digest)
}

// What the witness says of the key. It hashes nothing: rebuild first, and compare the digest.
#[unsafe(no_mangle)]
pub extern "C" fn dampcandle_lookup(
    witness: &[u8],
    key: &[u8],
    res: &mut usize,
    child_at: &mut usize,
    child_length: &mut usize,
) -> usize
    ensures { asked_is result res.new child_at.new child_length.new ≡ asked_to res.old child_at.old child_length.old (lookup_answer key.now witness.now) }
{
    put_seen(
        register_map::lookup(witness, key),
        res,
        child_at,
        child_length,
    )
}

#[unsafe(no_mangle)]
pub extern "C" fn dampcandle_merge(
    one: &[u8],
    other: &[u8],
    out: &mut [u8],
    length: &mut usize,
) -> usize
    ensures { written_is result length.new out.new ≡ written_to length.old (merge_answer one.now other.now out.old) }
{
    put(register_map::merge(one, other, out), length)
}

#[unsafe(no_mangle)]
pub extern "C" fn dampcandle_write_cbor(witness: &[u8], out: &mut [u8], length: &mut usize) -> usize
    ensures { written_is result length.new out.new ≡ written_to length.old (cbor_written witness.now out.old) }
{
    put(register_map::write_cbor(witness, out), length)
}

#[unsafe(no_mangle)]
pub extern "C" fn dampcandle_read_cbor(cbor: &[u8], out: &mut [u8], length: &mut usize) -> usize
    ensures { written_is result length.new out.new ≡ written_to length.old (cbor_read cbor.now out.old) }
{
    put(register_map::read_cbor(cbor, out), length)
}

// ---- rebuild in parts

#[unsafe(no_mangle)]
pub extern "C" fn dampcandle_rebuild_begin(state: &mut [u8; STATE])
    ensures { state.new ≡ begun state.old }
{
    register_map::rebuild_begin(state);
}

#[unsafe(no_mangle)]
pub extern "C" fn dampcandle_rebuild_part(state: &mut [u8; STATE], bytes: &[u8]) -> usize
    ensures { (state.new ≡ run state.old bytes.now) × (result ≡ part_number (parts_of state.new)) }
{
    number(register_map::rebuild_part(state, bytes))
}

#[unsafe(no_mangle)]
pub extern "C" fn dampcandle_rebuild_end(state: &[u8; STATE], digest: &mut [u8; 32]) -> usize
    ensures { digested_is result digest.new ≡ digested_to digest.old (ended (parts_of state.now)) }
{
    put(register_map::rebuild_end(state), digest)
}

#[unsafe(no_mangle)]
pub extern "C" fn dampcandle_hash(message: &[u8], digest: &mut [u8; 32]) -> usize
    ensures { digested_is result digest.new ≡ digested_to digest.old (hashed message.now) }
{
    put(register_map::hash(message), digest)
}
