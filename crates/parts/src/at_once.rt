// Bytes that do no more than join the record under way, taken at once.
ghost use Rattle.std.specs.Prelude.{◌≡◌, ◌≤◌, ◌<◌, length, take};
ghost use Rattle.parts.specs.Layout.{run, joins};

use crate::{Progress, STATE, Verdict, judge, under_way};
use hash_tree::wide;
use output::put_bytes;

// How many bytes to come do no more than join the record: all that it lacks but the last, once its head is there.
fn joining(s: &[u8; STATE]) -> usize
    ensures { (0 < result) → joins s.now result }
{
    let Some(Progress { levels, held }) = under_way(s) else {
        return 0;
    };
    if held < 2 {
        return 0;
    }
    let len = wide(s[5]);
    let Verdict::More = judge(levels, held + 1, wide(s[4]), len) else {
        return 0;
    };
    len + 1 - held
}

// Takes those of x that do no more than join the record, at once, and says how many.
pub fn take_run(s: &mut [u8; STATE], x: &[u8]) -> usize
    ensures { (result ≤ length x.now) × (s.new ≡ run s.old (take result x.now)) }
{
    let n = joining(s).min(x.len());
    if n == 0 {
        return 0;
    }
    let held = wide(s[3]);
    put_bytes(s, 4 + held, &x[..n]);
    s[3] = (held + n) as u8;
    n
}
