// The register map store: every public call of document 01. Any bytes may arrive as store, key, value, output, witness or message.
// Each call is done or refused by a number of document 01, and is one function of what it is lent (crate store, specs/Calls).
#![tactic(auto, using(crate::proofs::Refusals::refusals))]

ghost use Rattle.std.specs.Prelude.{◌≡◌, ◌≤◌, length};
ghost use Rattle.sha256.specs.Hashed.{hashed};
ghost use Rattle.hash_tree.specs.Whole.{rebuilt};
ghost use Rattle.store.specs.Sound.{Sound};
ghost use Rattle.store.specs.Calls.{create_answer, is_empty_answer, count_answer, root_hash_answer, get_answer, first_entry_answer, next_entry_answer, insert_answer, modify_answer, delete_answer, as_hash_tree_answer, keys_answer, witness_answer, key_range_answer, value_range_answer, keys_with_prefix_answer};
ghost use Rattle.store.specs.Replay.{replay_answer};
ghost use Rattle.store.specs.Difference.{difference_answer};
ghost use Rattle.answers.specs.Numbers.{outcome};
ghost use Rattle.answers.specs.declared.Refusal.TheVariants.{NotSound, LongKey, LongValue};
ghost use Rattle.answers.specs.Answers.{told, counted, digested, answered, changed_of, number_in};
ghost use Rattle.lookup.specs.Answer.{lookup_answer, looked_up};
ghost use Rattle.merge.specs.Answer.{merge_answer};
ghost use Rattle.cbor.specs.Answer.{cbor_written, cbor_read};
ghost use Rattle.parts.specs.Machine.{ended, part_number};
ghost use Rattle.parts.specs.Layout.{begun, run, parts_of};
ghost use Rattle.replay.specs.Runs.{ran_to};
ghost use Rattle.register_map.specs.Answers.{Checked, placed};

use answers::{MAX_KEY, MAX_VALUE, Refusal};
use judge::judge;
use lookup::Looked;
use parts::STATE;
use replay::Replayed;
use search::Place;

// ---- what a call tests before all else

fn sound(store: &[u8]) -> Result<(), Refusal>
    ensures { Checked (Sound store.now) NotSound result }
{
    if judge(store) {
        Ok(())
    } else {
        Err(Refusal::NotSound)
    }
}

fn short_key(key: &[u8]) -> Result<(), Refusal>
    ensures { Checked (length key.now ≤ 48) LongKey result }
{
    if key.len() <= MAX_KEY {
        Ok(())
    } else {
        Err(Refusal::LongKey)
    }
}

fn short_value(value: &[u8]) -> Result<(), Refusal>
    ensures { Checked (length value.now ≤ 64) LongValue result }
{
    if value.len() <= MAX_VALUE {
        Ok(())
    } else {
        Err(Refusal::LongValue)
    }
}

// ---- the calls, each by its name in documents 01 and 02, however alike two of them read: a store as a whole

// Makes the buffer a fresh store, whatever its bytes were.
pub fn create(store: &mut [u8], capacity: u64) -> Result<(), Refusal>
    ensures { changed_of (number_in result) store.new ≡ create_answer capacity store.old }
{
    whole_store::create(store, capacity)
}

pub fn is_empty(store: &[u8]) -> Result<bool, Refusal>
    ensures { told (outcome result) ≡ is_empty_answer store.now }
{
    sound(store)?;
    Ok(whole_store::is_empty(store))
}

// How many entries there are.
pub fn count(store: &[u8]) -> Result<usize, Refusal>
    ensures { counted (outcome result) ≡ count_answer store.now }
{
    sound(store)?;
    Ok(whole_store::count(store))
}

pub fn root_hash(store: &[u8]) -> Result<[u8; 32], Refusal>
    ensures { digested (outcome result) ≡ root_hash_answer store.now }
{
    sound(store)?;
    Ok(whole_store::root_hash(store))
}

// ---- entries

pub fn get(store: &[u8], key: &[u8]) -> Result<Place, Refusal>
    ensures { placed result ≡ get_answer key.now store.now }
{
    sound(store)?;
    short_key(key)?;
    search::get_place(store, key).ok_or(Refusal::Absent)
}

// The first entry in order.
pub fn first_entry(store: &[u8]) -> Result<Place, Refusal>
    ensures { placed result ≡ first_entry_answer store.now }
{
    sound(store)?;
    search::first_place(store).ok_or(Refusal::Absent)
}

// The entry of the least key above this one, whether or not this one is present.
pub fn next_entry(store: &[u8], key: &[u8]) -> Result<Place, Refusal>
    ensures { placed result ≡ next_entry_answer key.now store.now }
{
    sound(store)?;
    short_key(key)?;
    search::next_place(store, key).ok_or(Refusal::Absent)
}

// ---- changes

// A new key, or a new value for a key that is present.
pub fn insert(store: &mut [u8], key: &[u8], value: &[u8]) -> Result<(), Refusal>
    ensures { changed_of (number_in result) store.new ≡ insert_answer key.now value.now store.old }
{
    sound(store)?;
    short_key(key)?;
    short_value(value)?;
    rb_tree::insert(store, key, value)
}

// A new value for a key that is present.
pub fn modify(store: &mut [u8], key: &[u8], value: &[u8]) -> Result<(), Refusal>
    ensures { changed_of (number_in result) store.new ≡ modify_answer key.now value.now store.old }
{
    sound(store)?;
    short_key(key)?;
    short_value(value)?;
    rb_tree::modify(store, key, value)
}

pub fn delete(store: &mut [u8], key: &[u8]) -> Result<(), Refusal>
    ensures { changed_of (number_in result) store.new ≡ delete_answer key.now store.old }
{
    sound(store)?;
    short_key(key)?;
    rb_tree::delete(store, key)
}

// Runs a build log: one call for each of its records, in order. A malformed log changes nothing.
pub fn replay(store: &mut [u8], log: &[u8]) -> Result<Replayed, Refusal>
    ensures { ran_to result store.new ≡ replay_answer log.now store.old }
{
    sound(store)?;
    replay::replay(store, log)
}

// ---- witnesses: each fills the front of the output

// Every key with its value.
pub fn as_hash_tree(store: &[u8], out: &mut [u8]) -> Result<usize, Refusal>
    ensures { answered result out.new ≡ as_hash_tree_answer store.now out.old }
{
    sound(store)?;
    witness::as_hash_tree(store, out)
}

// Every key, the values cut to their digests.
pub fn keys(store: &[u8], out: &mut [u8]) -> Result<usize, Refusal>
    ensures { answered result out.new ≡ keys_answer store.now out.old }
{
    sound(store)?;
    witness::keys(store, out)
}

// A present key with its value; of an absent one its neighbours.
pub fn witness(store: &[u8], key: &[u8], out: &mut [u8]) -> Result<usize, Refusal>
    ensures { answered result out.new ≡ witness_answer key.now store.now out.old }
{
    sound(store)?;
    short_key(key)?;
    witness::witness(store, key, out)
}

pub fn key_range(store: &[u8], first: &[u8], last: &[u8], out: &mut [u8]) -> Result<usize, Refusal>
    ensures { answered result out.new ≡ key_range_answer first.now last.now store.now out.old }
{
    sound(store)?;
    short_key(first)?;
    short_key(last)?;
    witness::key_range(store, first, last, out)
}

pub fn value_range(
    store: &[u8],
    first: &[u8],
    last: &[u8],
    out: &mut [u8],
) -> Result<usize, Refusal>
    ensures { answered result out.new ≡ value_range_answer first.now last.now store.now out.old }
{
    sound(store)?;
    short_key(first)?;
    short_key(last)?;
    witness::value_range(store, first, last, out)
}

pub fn keys_with_prefix(store: &[u8], prefix: &[u8], out: &mut [u8]) -> Result<usize, Refusal>
    ensures { answered result out.new ≡ keys_with_prefix_answer prefix.now store.now out.old }
{
    sound(store)?;
    short_key(prefix)?;
    witness::keys_with_prefix(store, prefix, out)
}

// ---- two stores

// What differs between two releases, in key order: names only in the old, only in the new, and in both with another value.
pub fn difference(old: &[u8], new: &[u8], out: &mut [u8]) -> Result<usize, Refusal>
    ensures { answered result out.new ≡ difference_answer old.now new.now out.old }
{
    sound(old)?;
    sound(new)?;
    difference::difference(old, new, out)
}

// ---- without a store

// The digest of the tree that a witness holds.
pub fn rebuild(witness: &[u8]) -> Result<[u8; 32], Refusal>
    ensures { digested (outcome result) ≡ rebuilt witness.now }
{
    hash_tree::rebuild(witness)
}

// The Interface Specification's lookup of a key in a witness. It hashes nothing: an answer is worth something only after the witness
// was rebuilt and its digest compared.
pub fn lookup(witness: &[u8], key: &[u8]) -> Result<Looked, Refusal>
    ensures { looked_up result ≡ lookup_answer key.now witness.now }
{
    lookup::lookup(witness, key)
}

// Two witnesses of one release in one, at the front of the output.
pub fn merge(one: &[u8], other: &[u8], out: &mut [u8]) -> Result<usize, Refusal>
    ensures { answered result out.new ≡ merge_answer one.now other.now out.old }
{
    merge::merge(one, other, out)
}

// A witness in CBOR, as the Interface Specification writes hash trees, at the front of the output; and back.
pub fn write_cbor(witness: &[u8], out: &mut [u8]) -> Result<usize, Refusal>
    ensures { answered result out.new ≡ cbor_written witness.now out.old }
{
    cbor::write_cbor(witness, out)
}

pub fn read_cbor(cbor: &[u8], out: &mut [u8]) -> Result<usize, Refusal>
    ensures { answered result out.new ≡ cbor_read cbor.now out.old }
{
    cbor::read_cbor(cbor, out)
}

// ---- rebuild in parts: a state of plain bytes, which means nothing before it is begun

pub fn rebuild_begin(state: &mut [u8; STATE])
    ensures { state.new ≡ begun state.old }
{
    parts::rebuild_begin(state);
}

// The next bytes of the witness: refused as malformed once it is certain that no witness begins so.
pub fn rebuild_part(state: &mut [u8; STATE], bytes: &[u8]) -> Result<(), Refusal>
    ensures { (state.new ≡ run state.old bytes.now) × (number_in result ≡ part_number (parts_of state.new)) }
{
    parts::rebuild_part(state, bytes)
}

// What rebuild answers for all the bytes so far; it changes nothing, and parts may follow.
pub fn rebuild_end(state: &[u8; STATE]) -> Result<[u8; 32], Refusal>
    ensures { digested (outcome result) ≡ ended (parts_of state.now) }
{
    parts::rebuild_end(state)
}

// The SHA-256 of a message.
pub fn hash(message: &[u8]) -> Result<[u8; 32], Refusal>
    ensures { digested (outcome result) ≡ hashed message.now }
{
    sha256::hash(message)
}
