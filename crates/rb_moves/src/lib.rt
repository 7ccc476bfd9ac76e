// What the Rust's delete does to the tree on its way down, over the slots of a store: left and right one by one, as there.
#![tactic(auto)]

ghost use Rattle.llrb.specs.Panic.{move_red_left₂_p, move_red_right₂_p, ready_left_p, ready_right_p, lean_right_p};
ghost use Rattle.rb_nodes.specs.Heap.{Marked, Can, Does, CanAt, DoesAt};
ghost use Rattle.rb_moves.specs.Moves.{move_red_left_p, move_red_right_p};

pub fn move_red_left(s: &mut [u8], h: usize) -> usize
    requires { Can move_red_left_p s.old h }
    ensures { Does Marked move_red_left_p s.old s.new h result }
{
    rb_balance::flip_colors(s, h);
    move_red_left_2(s, h)
}

// The `if` of `move_red_left`.
fn move_red_left_2(s: &mut [u8], h: usize) -> usize
    requires { Can move_red_left₂_p s.old h }
    ensures { Does Marked move_red_left₂_p s.old s.new h result }
{
    let r = slots::right(s, h);
    let m = slots::left(s, r);
    if rb_nodes::is_red(s, m) {
        let p = rb_balance::rotate_right(s, r);
        slots::set_right(s, h, p);
        let x = rb_balance::rotate_left(s, h);
        rb_balance::flip_colors(s, x);
        return x;
    }
    h
}

pub fn move_red_right(s: &mut [u8], h: usize) -> usize
    requires { Can move_red_right_p s.old h }
    ensures { Does Marked move_red_right_p s.old s.new h result }
{
    rb_balance::flip_colors(s, h);
    move_red_right_2(s, h)
}

// The `if` of `move_red_right`.
fn move_red_right_2(s: &mut [u8], h: usize) -> usize
    requires { Can move_red_right₂_p s.old h }
    ensures { Does Marked move_red_right₂_p s.old s.new h result }
{
    let l = slots::left(s, h);
    let m = slots::left(s, l);
    if rb_nodes::is_red(s, m) {
        let x = rb_balance::rotate_right(s, h);
        rb_balance::flip_colors(s, x);
        return x;
    }
    h
}

// `if !rb_nodes::is_red(h.left) && !rb_nodes::is_red(h.left.left) { h = move_red_left(h) }`
pub fn ready_left(s: &mut [u8], h: usize) -> usize
    requires { Can ready_left_p s.old h }
    ensures { Does Marked ready_left_p s.old s.new h result }
{
    let l = slots::left(s, h);
    if !rb_nodes::is_red(s, l) && !rb_nodes::is_red(s, slots::left(s, l)) {
        return move_red_left(s, h);
    }
    h
}

// `if !rb_nodes::is_red(h.right) && !rb_nodes::is_red(h.right.left) { h = move_red_right(h) }`
pub fn ready_right(s: &mut [u8], h: usize) -> usize
    requires { Can ready_right_p s.old h }
    ensures { Does Marked ready_right_p s.old s.new h result }
{
    let r = slots::right(s, h);
    if !rb_nodes::is_red(s, r) && !rb_nodes::is_red(s, slots::left(s, r)) {
        return move_red_right(s, h);
    }
    h
}

// `if rb_nodes::is_red(h.left) { h = rb_balance::rotate_right(h) }`
pub fn lean_right(s: &mut [u8], h: usize) -> usize
    requires { CanAt lean_right_p s.old h }
    ensures { DoesAt Marked lean_right_p s.old s.new h result }
{
    let l = slots::left(s, h);
    if rb_nodes::is_red(s, l) {
        return rb_balance::rotate_right(s, h);
    }
    h
}
