// The calls that concern a store as a whole: create of any bytes; count, is_empty and root_hash of a sound store.
#![tactic(auto)]

ghost use Rattle.std.specs.Prelude.{◌≡◌, ◌≤◌, length};
ghost use Rattle.store.specs.Model.{fresh};
ghost use Rattle.store.specs.Sound.{Sound};
ghost use Rattle.store.specs.Encode.{encode};
ghost use Rattle.store.specs.Calls.{create_answer, count_answer, is_empty_answer, root_hash_answer};
ghost use Rattle.judge.specs.Steps.{Sized};
ghost use Rattle.answers.specs.Numbers.{done};
ghost use Rattle.answers.specs.Answers.{changed_of, number_in, counted, told, digested};
ghost use Rattle.whole_store.specs.Fresh.{next_of};

use answers::{MAX_CAPACITY, Refusal};
use hash_tree::empty_hash;
use slots::{EDITION, Header, header_of, store_length};

// The slot after `x` in the chain.
fn next(cap: usize, x: usize) -> usize
    requires { x ≤ 1024 }
    ensures { result ≡ next_of cap x }
{
    if x == cap { 0 } else { x + 1 }
}

// A fresh store, whatever the bytes were.
fn lay(s: &mut [u8], cap: usize)
    requires cap_bound { 1 ≤ cap }
    requires sized { Sized (length s.old) cap }
    ensures { s.new ≡ encode (fresh cap) }
{
    for x in 1..=cap {
        slots::clear_slot(s, x, next(cap, x));
    }
    slots::set_header(
        s,
        Header {
            edition: EDITION,
            capacity: cap,
            live: 0,
            root: 0,
            free: 1,
            zero: 0,
        },
    );
}

// Makes the buffer a fresh store; 8 where capacity or length are wrong. Any capacity may arrive.
pub fn create(s: &mut [u8], capacity: u64) -> Result<(), Refusal>
    ensures { changed_of (number_in result) s.new ≡ create_answer capacity s.old }
{
    if capacity == 0 || (MAX_CAPACITY as u64) < capacity {
        return Err(Refusal::BadCapacity);
    }
    let cap = capacity as usize;
    if s.len() != store_length(cap) {
        return Err(Refusal::BadCapacity);
    }
    lay(s, cap);
    Ok(())
}

// ---- of a sound store. It is plain bytes, here and in search, rb_tree, witness and difference: a type of its own would ask more of callers.

// The number of entries.
pub fn count(s: &[u8]) -> usize
    requires { Sound s.now }
    ensures { counted (done result) ≡ count_answer s.now }
{
    header_of(s).live
}

// Whether there is no entry.
pub fn is_empty(s: &[u8]) -> bool
    requires { Sound s.now }
    ensures { told (done result) ≡ is_empty_answer s.now }
{
    let h = header_of(s);
    h.live == 0
}

// The digest of the whole map.
pub fn root_hash(s: &[u8]) -> [u8; 32]
    requires { Sound s.now }
    ensures { digested (done result) ≡ root_hash_answer s.now }
{
    let root = header_of(s).root;
    if root == 0 {
        empty_hash()
    } else {
        slots::digest(s, root).try_into().unwrap()
    }
}
