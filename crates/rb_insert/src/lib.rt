// The Rust's insert and modify on a tree in the slots of a store. Digests are left stale.
#![tactic(auto)]

ghost use Rattle.rb_insert.specs.Inserts.{CanInsert, DoesInsert, DoesPut, CanModify, DoesModify};

use std::cmp::Ordering;

// `go` of the Rust's modify: digests on the path are marked stale, no other.
pub fn modify_go(s: &mut [u8], h: usize, key: &[u8], value: &[u8])
    requires { CanModify value.now s.old h }
    ensures { DoesModify key.now value.now s.old s.new h }
{
    if h == 0 {
        return;
    }
    match rb_nodes::compare_key(s, h, key) {
        Ordering::Equal => {
            slots::set_value(s, h, value);
            rb_nodes::mark_stale(s, h);
        }
        Ordering::Less => {
            let l = slots::left(s, h);
            modify_go(s, l, key, value);
            rb_nodes::mark_stale(s, h); // on the way back up
        }
        Ordering::Greater => {
            let r = slots::right(s, h);
            modify_go(s, r, key, value);
            rb_nodes::mark_stale(s, h);
        }
    }
}

// `go` of the Rust's insert. A new key takes the slot `x`.
fn insert_go(s: &mut [u8], h: usize, x: usize, key: &[u8], value: &[u8]) -> usize
    requires { CanInsert key.now value.now x s.old h }
    ensures { DoesInsert key.now value.now x s.old s.new h result }
{
    if h == 0 {
        slots::put_entry(s, x, key, value);
        rb_nodes::mark_stale(s, x);
        return x;
    }
    match rb_nodes::compare_key(s, h, key) {
        Ordering::Equal => {
            slots::set_value(s, h, value);
            rb_balance::update_and_balance(s, h)
        }
        Ordering::Less => {
            let l = slots::left(s, h);
            let p = insert_go(s, l, x, key, value);
            slots::set_left(s, h, p);
            rb_balance::update_and_balance(s, h)
        }
        Ordering::Greater => {
            let r = slots::right(s, h);
            let p = insert_go(s, r, x, key, value);
            slots::set_right(s, h, p);
            rb_balance::update_and_balance(s, h)
        }
    }
}

// The Rust's insert on the tree at slot `h`: `go`, and the root black.
pub fn put(s: &mut [u8], h: usize, x: usize, key: &[u8], value: &[u8]) -> usize
    requires { CanInsert key.now value.now x s.old h }
    ensures { DoesPut key.now value.now x s.old s.new h result }
{
    let top = insert_go(s, h, x, key, value);
    slots::set_red(s, top, false);
    top
}
