// What writes to an output: the room that is left in it, and bytes and records of the written form put one after the other.
#![tactic(auto)]

ghost use Rattle.std.specs.Prelude.{◌≡◌, ◌+◌, ◌≤◌, ◌<◌, length};
ghost use Rattle.hash_tree.specs.Record.{kind_number};
ghost use Rattle.hash_tree.specs.Written.{head, piece};
ghost use Rattle.output.specs.Putting.{Puts, room_after};

use hash_tree::Kind;

// What is left of a room for writing, none being one too small, after `n` bytes.
pub fn less(room: Option<usize>, n: usize) -> Option<usize>
    ensures { result ≡ room_after n room }
{
    room?.checked_sub(n)
}

// The 16 bits that open a record.
pub fn put_head(out: &mut [u8], at: usize, kind: Kind, len: usize) -> usize
    requires { (len ≤ 64) × (at + 2 ≤ length out.old) }
    ensures { Puts out.old out.new at result (head (kind_number kind) len) }
{
    out[at] = (kind.number() * 32 + len / 256) as u8;
    out[at + 1] = (len % 256) as u8;
    at + 2
}

pub fn put_bytes(out: &mut [u8], at: usize, src: &[u8]) -> usize
    requires { at + length src.now ≤ length out.old }
    ensures { Puts out.old out.new at result src.now }
{
    let end = at + src.len();
    out[at..end].copy_from_slice(src);
    end
}

// A record without its children.
pub fn put_piece(out: &mut [u8], at: usize, kind: Kind, src: &[u8]) -> usize
    requires { (length src.now ≤ 64) × (at + length (piece (kind_number kind) src.now) ≤ length out.old) }
    ensures { Puts out.old out.new at result (piece (kind_number kind) src.now) }
{
    let x = put_head(out, at, kind, src.len());
    put_bytes(out, x, src)
}
