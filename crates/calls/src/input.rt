// Standard input, a line at a time.
use std::io::Read;

// What is left of the chunk that was read.
#[derive(Drop)]
pub(crate) struct Input {
    chunk: [u8; 65_536],
    at: usize,
    end: usize,
}

// Puts the byte in its place, and answers the next one; none, where the line has no room.
fn put(line: &mut [u8], at: usize, b: u8) -> Option<usize> {
    *line.get_mut(at)? = b;
    Some(at + 1)
}

impl Input {
    pub(crate) fn new() -> Input {
        Input {
            chunk: [0u8; 65_536],
            at: 0,
            end: 0,
        }
    }

    // One byte more, or none at its end or where a read fails.
    fn next(&mut self, rt: &HostRuntime) -> Option<u8> {
        if self.end <= self.at {
            self.at = 0;
            self.end = rt.stdin().read(&mut self.chunk).unwrap_or(0);
        }
        if self.end <= self.at {
            return None;
        }
        let b = *self.chunk.get(self.at)?;
        self.at += 1;
        Some(b)
    }

    // The length of one line more, if there is one; 0 for one that the buffer has no room for: the empty line too is none that a call has.
    pub(crate) fn read_line(&mut self, rt: &HostRuntime, line: &mut [u8]) -> Option<usize> {
        let mut b = self.next(rt)?;
        let mut kept = Some(0);
        // A loop has to end, and nothing says that the input does: it counts its turns, up to a number that no run comes to.
        for _ in 0..u64::MAX {
            if b == b'\n' {
                break;
            }
            if let Some(at) = kept {
                kept = put(line, at, b);
            }
            let Some(more) = self.next(rt) else {
                break;
            };
            b = more;
        }
        Some(kept.unwrap_or(0))
    }
}
