// What every crate here may want and no crate repeats: the limits of a key, the number in some bytes, why a call refuses, and
// definitions and lemmas (specs/, proofs/).
#![tactic(auto)]

ghost use Rattle.std.specs.Prelude.{◌≡◌, ◌+◌, ◌≤◌, length, drop};
ghost use Rattle.laws.specs.Bytes.{key_bytes, little_endian};
ghost use Rattle.laws.specs.Keys.{key_bound};
ghost use Rattle.laws.specs.Refusals.{number_of, told_by};

use std::error::Error;
use std::fmt;

// A key is a whole number below BOUND, and takes BYTES bytes where it is written down.
#[derive(Clone, Copy)]
pub struct Key {
    pub number: u64,
}

impl Key {
    pub const BOUND: u64 = 1 << 48;

    pub const BYTES: usize = 6;

    // Nobody calls it: its contract says that the constants are those of the definitions.
    pub fn limits()
        ensures bound { Key.BOUND ≡ key_bound }
        ensures bytes { Key.BYTES ≡ key_bytes }
    {}
}

// The number in the N bytes from p on, lowest first.
pub fn little_endian<const N: usize>(bytes: &[u8], p: usize) -> u64
    requires size { N ≤ 8 }
    requires in_bounds { p + N ≤ length bytes.now }
    ensures { result ≡ little_endian N (drop p bytes.now) }
{
    // Byte by byte, which the compiler makes two loads at N = 6. With copy_from_slice it stays a loop over memory: a model choice that
    // read its keys so took twice the time.
    let mut eight = [0; 8];
    for i in 0..N {
        eight[i] = bytes[p + i];
    }
    u64::from_le_bytes(eight)
}

// Why a call refuses, with what it tells besides: the place of the first key that does not rise, or how many nodes were visited
// before the key was found not to be held.
#[derive(Clone, Copy, Debug, PartialEq, Eq)]
pub enum Refusal {
    WrongSizes,
    OutOfRange,
    Reversed,
    NotRising(usize),
    Held,
    NotHeld(usize),
    Full,
    NoRoom,
    Damage,
}

impl Refusal {
    // The number of the answer; done is 0.
    pub fn number(self) -> u64
        ensures { result ≡ number_of self }
    {
        match self {
            Refusal::WrongSizes => 1,
            Refusal::OutOfRange => 2,
            Refusal::Reversed => 3,
            Refusal::NotRising(_) => 4,
            Refusal::Held => 5,
            Refusal::NotHeld(_) => 6,
            Refusal::Full => 7,
            Refusal::NoRoom => 8,
            Refusal::Damage => 9,
        }
    }

    // The place or the visits that it tells; 0 where it tells nothing.
    pub fn told(self) -> usize
        ensures { result ≡ told_by self }
    {
        match self {
            Refusal::NotRising(place) => place,
            Refusal::NotHeld(visits) => visits,
            Refusal::WrongSizes
            | Refusal::OutOfRange
            | Refusal::Reversed
            | Refusal::Held
            | Refusal::Full
            | Refusal::NoRoom
            | Refusal::Damage => 0,
        }
    }
}

impl fmt::Display for Refusal {
    fn fmt<W: fmt::Write>(&self, f: &mut fmt::Formatter<W>) -> fmt::Result {
        match self {
            Refusal::WrongSizes => write!(f, "a lent list or a size is wrong"),
            Refusal::OutOfRange => write!(f, "a key, depth or number is out of range"),
            Refusal::Reversed => write!(f, "the band's ends are reversed"),
            Refusal::NotRising(place) => write!(f, "the key at place {place} does not rise"),
            Refusal::Held => write!(f, "the key is held already"),
            Refusal::NotHeld(visits) => write!(f, "the key is not held, after {visits} nodes"),
            Refusal::Full => write!(f, "the capacity is used up"),
            Refusal::NoRoom => write!(f, "the pools have no room"),
            Refusal::Damage => write!(f, "the memory or a model is damaged"),
        }
    }
}

impl Error for Refusal {}
