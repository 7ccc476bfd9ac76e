// Why a call may be refused, by the numbers of documents 01 and 02, and the limits that they speak of. The definitions use this enum as
// it stands here: a refusal of the code is one on paper, with nothing to translate.
#![tactic(auto)]

ghost use Rattle.std.specs.Prelude.{◌≡◌};
ghost use Rattle.answers.specs.Numbers.{number_of};

// In the order of their numbers, which begin with 1.
#[derive(Clone, Copy, Debug, PartialEq, Eq)]
pub enum Refusal {
    NotSound,
    LongKey,
    LongValue,
    Reversed,
    Full,
    NoRoom,
    Absent,
    BadCapacity,
    Malformed,
    LongMessage,
    IllFormed,
    NotCbor,
    BadLog,
    BadPath,
    Unlike,
}

impl Refusal {
    // The number that it has in the documents and for C; 0, which is none of them, is done.
    pub fn number(self) -> usize
        ensures { result ≡ number_of self }
    {
        match self {
            Refusal::NotSound => 1,
            Refusal::LongKey => 2,
            Refusal::LongValue => 3,
            Refusal::Reversed => 4,
            Refusal::Full => 5,
            Refusal::NoRoom => 6,
            Refusal::Absent => 7,
            Refusal::BadCapacity => 8,
            Refusal::Malformed => 9,
            Refusal::LongMessage => 10,
            Refusal::IllFormed => 11,
            Refusal::NotCbor => 12,
            Refusal::BadLog => 13,
            Refusal::BadPath => 14,
            Refusal::Unlike => 15,
        }
    }
}

// ---- limits

pub const MAX_KEY: usize = 48;

pub const MAX_VALUE: usize = 64;

pub const MAX_CAPACITY: usize = 1024;

pub const MAX_MESSAGE: usize = 65_536;
