// Room for the bytes of a file.
ghost use Rattle.std.specs.Prelude.{◌≡◌, length, replicate};

// One byte more than the longest file that is read has.
pub const FILE: usize = 524_288;

// One byte more than the longest store has.
pub const STORE: usize = 153_609;

// N zeros. Their number is said beside, so that nobody computes a list of so many.
pub fn zeros<const N: usize>() -> [u8; N]
    ensures zeros { result ≡ replicate N 0 }
    ensures length { N ≡ length result }
{
    [0; N]
}
