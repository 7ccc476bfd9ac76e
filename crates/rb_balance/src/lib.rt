// `balance`, the rotations and `flip_colors` of the Rust's `rb_tree`, over the slots of a store.
#![tactic(auto)]

ghost use Rattle.std.specs.Prelude.{◌≡◌, not, length};
ghost use Rattle.slots.specs.Layout.{HasSlot, slot};
ghost use Rattle.slots.specs.Setters.{set_red};
ghost use Rattle.llrb.specs.Panic.{rotate_left_p, rotate_right_p, flip_colors_p, balance₁_p, balance₂_p, balance₃_p, balance_p};
ghost use Rattle.rb_nodes.specs.Heap.{Marked, Under, Can, Does, CanAt, DoesAt};

// What insert and delete do on the way back: `update_subtree_hash` in the Rust, then `balance`.
pub fn update_and_balance(s: &mut [u8], h: usize) -> usize
    requires { CanAt balance_p s.old h }
    ensures { DoesAt Under balance_p s.old s.new h result }
{
    rb_nodes::mark_stale(s, h);
    balance(s, h)
}

pub fn balance(s: &mut [u8], h: usize) -> usize
    requires { CanAt balance_p s.old h }
    ensures { DoesAt Marked balance_p s.old s.new h result }
{
    let a = balance_1(s, h);
    let b = balance_2(s, a);
    balance_3(s, b)
}

// The three tests of `balance`. A red right child beside a black left one: the red link is made to lean to the left.
fn balance_1(s: &mut [u8], h: usize) -> usize
    requires { CanAt balance₁_p s.old h }
    ensures { DoesAt Marked balance₁_p s.old s.new h result }
{
    if rb_nodes::is_red(s, slots::right(s, h)) && !rb_nodes::is_red(s, slots::left(s, h)) {
        return rotate_left(s, h);
    }
    h
}

// Two red links in a row on the left.
fn balance_2(s: &mut [u8], h: usize) -> usize
    requires { CanAt balance₂_p s.old h }
    ensures { DoesAt Marked balance₂_p s.old s.new h result }
{
    let l = slots::left(s, h);
    if rb_nodes::is_red(s, l) && rb_nodes::is_red(s, slots::left(s, l)) {
        return rotate_right(s, h);
    }
    h
}

// Two red children: their colour goes up.
fn balance_3(s: &mut [u8], h: usize) -> usize
    requires { CanAt balance₃_p s.old h }
    ensures { DoesAt Marked balance₃_p s.old s.new h result }
{
    if rb_nodes::is_red(s, slots::left(s, h)) && rb_nodes::is_red(s, slots::right(s, h)) {
        flip_colors(s, h);
    }
    h
}

// The Rust has the two rotations one by one, and they stand beside it so.
// Turns the tree at slot `h` to the right: its left child comes to the top, and is handed back.
pub fn rotate_right(s: &mut [u8], h: usize) -> usize
    requires { Can rotate_right_p s.old h }
    ensures { Does Under rotate_right_p s.old s.new h result }
{
    let x = slots::left(s, h);
    let y = slots::right(s, x);
    let color = slots::red(s, h);
    slots::set_left(s, h, y);
    slots::set_right(s, x, h);
    slots::set_red(s, x, color);
    slots::set_red(s, h, true);
    rb_nodes::mark_stale(s, h);
    rb_nodes::mark_stale(s, x);
    x
}

// Turns the tree at slot `h` to the left: its right child comes to the top, and is handed back.
pub fn rotate_left(s: &mut [u8], h: usize) -> usize
    requires { Can rotate_left_p s.old h }
    ensures { Does Under rotate_left_p s.old s.new h result }
{
    let x = slots::right(s, h);
    let y = slots::left(s, x);
    let color = slots::red(s, h);
    slots::set_right(s, h, y);
    slots::set_left(s, x, h);
    slots::set_red(s, x, color);
    slots::set_red(s, h, true);
    rb_nodes::mark_stale(s, h); // the lower one has another child now,
    rb_nodes::mark_stale(s, x); // and so has the upper one
    x
}

pub fn flip_colors(s: &mut [u8], h: usize)
    requires { Can flip_colors_p s.old h }
    ensures { Does Marked flip_colors_p s.old s.new h h }
{
    let l = slots::left(s, h);
    let r = slots::right(s, h);
    flip(s, h);
    flip(s, l);
    flip(s, r);
}

fn flip(s: &mut [u8], h: usize)
    requires { HasSlot (length s.old) h }
    ensures { s.new ≡ set_red s.old h (not (slot s.old h).red) }
{
    let color = slots::red(s, h);
    slots::set_red(s, h, !color);
}
