// The number of what a call answers; what it answers beside goes into what is lent for that, and a refusal leaves this as it was.
ghost use Rattle.std.specs.Prelude.{◌≡◌, List, ℕ, Some};
ghost use Rattle.replay.specs.Runs.{ran_to};
ghost use Rattle.answers.specs.Answers.{number_in};
ghost use Rattle.lookup.specs.Answer.{looked_up};
ghost use Rattle.c_boundary.specs.Lent.{found_is, found_to, replayed_is, replayed_to, seen_of, asked_is, asked_to, PutIn};
ghost use Rattle.register_map.specs.Answers.{placed};

use answers::Refusal;
use lookup::Looked;
use replay::Replayed;
use search::Place;

pub fn number(answer: Result<(), Refusal>) -> usize
    ensures { result ≡ number_in answer }
{
    match answer {
        Ok(()) => 0,
        Err(r) => r.number(),
    }
}

pub fn put<T: Copy>(answer: Result<T, Refusal>, to: &mut T) -> usize
    ensures { PutIn answer to.old result to.new }
{
    match answer {
        Ok(x) => {
            *to = x;
            0
        }
        Err(r) => r.number(),
    }
}

// Each of these fills several things: C is lent no structs (include/dampcandle.h).
pub fn put_places(
    found: Result<Place, Refusal>,
    key_at: &mut usize,
    key_length: &mut usize,
    value_at: &mut usize,
    value_length: &mut usize,
) -> usize
    ensures { found_is result key_at.new key_length.new value_at.new value_length.new ≡ found_to key_at.old key_length.old value_at.old value_length.old (placed found) }
{
    match found {
        Ok(place) => {
            *key_at = place.key_at;
            *key_length = place.key_length;
            *value_at = place.value_at;
            *value_length = place.value_length;
            0
        }
        Err(r) => r.number(),
    }
}

pub fn put_counts(
    replayed: Result<Replayed, Refusal>,
    full: &mut usize,
    absent: &mut usize,
) -> usize
    ensures { (s : List ℕ) → replayed_is result full.new absent.new s ≡ replayed_to full.old absent.old (ran_to replayed s) }
{
    match replayed {
        Ok(counts) => {
            *full = counts.full;
            *absent = counts.absent;
            0
        }
        Err(r) => r.number(),
    }
}

// What a witness says of a key, in numbers: the header's.
const FOUND: usize = 1;

const ABSENT: usize = 2;

const UNKNOWN: usize = 3;

#[derive(Clone, Copy)]
pub struct Seen {
    pub result: usize,
    pub at: usize,
    pub length: usize,
}

fn seen_of(looked: Looked) -> Seen
    ensures { result ≡ seen_of (Some looked) }
{
    let alone = Seen {
        result: ABSENT,
        at: 0,
        length: 0,
    };
    match looked {
        Looked::Found { at, length } => Seen {
            result: FOUND,
            at,
            length,
        },
        Looked::Absent => alone,
        Looked::Unknown => Seen {
            result: UNKNOWN,
            ..alone
        },
    }
}

pub fn put_seen(
    looked: Result<Looked, Refusal>,
    res: &mut usize,
    child_at: &mut usize,
    child_length: &mut usize,
) -> usize
    ensures { asked_is result res.new child_at.new child_length.new ≡ asked_to res.old child_at.old child_length.old (looked_up looked) }
{
    match looked {
        Ok(said) => {
            let seen = seen_of(said);
            *res = seen.result;
            *child_at = seen.at;
            *child_length = seen.length;
            0
        }
        Err(r) => r.number(),
    }
}
