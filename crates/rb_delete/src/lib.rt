// The Rust's delete on a tree in the slots of a store. Digests are left stale.
#![tactic(auto)]

ghost use Rattle.std.specs.Prelude.{◌≡◌, false};
ghost use Rattle.llrb.specs.Tree.{Tree, Entry, paint};
ghost use Rattle.llrb.specs.Delete.{least, ready};
ghost use Rattle.rb_nodes.specs.Heap.{Held, Full, Marked, HasTree, HasFull, Turn};
ghost use Rattle.rb_delete.specs.Deletes.{CanMin, DoesMin, CanNext, DoesNext, CanDelete, DoesDelete, CanCut, DoesCut};

// The top after a deletion, and the slot that left the tree.
#[derive(Clone, Copy)]
pub struct Cut {
    pub top: usize,
    pub freed: usize,
}

// The slot of the least key: down the left links, as the Rust goes.
fn min(s: &[u8], h: usize) -> usize
    requires { HasFull s.now h }
    ensures { (t : Tree) (d : Entry) → Held s.now h t → Full t → result ≡ (least d t).slot }
{
    let mut at = h;
    loop {
        let l = slots::left(s, at);
        if l == 0 {
            break at;
        }
        at = l;
    }
}

// Takes the least out, and hands back the top.
fn delete_min(s: &mut [u8], h: usize) -> usize
    requires { CanMin s.old h }
    ensures { DoesMin s.old s.new h result }
{
    let l = slots::left(s, h);
    if l == 0 {
        return 0;
    }
    let g = rb_moves::ready_left(s, h);
    let m = slots::left(s, g);
    let p = delete_min(s, m);
    slots::set_left(s, g, p);
    rb_balance::update_and_balance(s, g)
}

// The Rust's swap and what follows it: the key and the value of the least entry on the right come to slot `h`, and that entry's slot leaves.
// A copy does for the swap: the slot that leaves is cleared.
fn pull_next(s: &mut [u8], h: usize) -> Cut
    requires { CanNext s.old h }
    ensures { DoesNext s.old s.new h result.top result.freed }
{
    let r = slots::right(s, h);
    let m = min(s, r);
    slots::move_entry(s, h, m);
    let p = delete_min(s, r);
    slots::set_right(s, h, p);
    let top = rb_balance::update_and_balance(s, h);
    Cut { top, freed: m }
}

// `go` of the Rust's delete.
fn delete_go(s: &mut [u8], h: usize, key: &[u8]) -> Cut
    requires { CanDelete key.now s.old h }
    ensures { DoesDelete key.now s.old s.new h result.top result.freed }
{
    if rb_nodes::compare_key(s, h, key).is_lt() {
        let g = rb_moves::ready_left(s, h);
        let l = slots::left(s, g);
        let c = delete_go(s, l, key);
        let p = c.top;
        slots::set_left(s, g, p);
        let top = rb_balance::update_and_balance(s, g);
        return Cut {
            top,
            freed: c.freed,
        };
    }
    let v = rb_moves::lean_right(s, h);
    let r = slots::right(s, v);
    // without a right child the key is here, and there is no left one
    if r == 0 {
        return Cut { top: 0, freed: v };
    }
    let x = rb_moves::ready_right(s, v);
    if rb_nodes::compare_key(s, x, key).is_eq() {
        return pull_next(s, x);
    }
    let q = slots::right(s, x);
    let c = delete_go(s, q, key);
    let p = c.top;
    slots::set_right(s, x, p);
    let top = rb_balance::update_and_balance(s, x);
    Cut {
        top,
        freed: c.freed,
    }
}

// Makes the root red where both its children are black.
fn ready(s: &mut [u8], h: usize)
    requires { HasFull s.old h }
    ensures { (t : Tree) → Held s.old h t → Full t → Turn Marked Marked s.old s.new h t (ready t) }
{
    if !rb_nodes::is_red(s, slots::left(s, h)) && !rb_nodes::is_red(s, slots::right(s, h)) {
        slots::set_red(s, h, true);
    }
}

// Makes the root black, where there is one.
fn paint_black(s: &mut [u8], h: usize)
    requires { HasTree s.old h }
    ensures { (t : Tree) → Held s.old h t → Turn Marked Marked s.old s.new h t (paint false t) }
{
    if h == 0 {
        return;
    }
    slots::set_red(s, h, false);
}

// The Rust's delete on the tree at slot `h`, of a key that is there.
pub fn cut_out(s: &mut [u8], h: usize, key: &[u8]) -> Cut
    requires { CanCut key.now s.old h }
    ensures { DoesCut key.now s.old s.new h result.top result.freed }
{
    ready(s, h);
    let c = delete_go(s, h, key);
    let top = c.top;
    paint_black(s, top);
    c
}
