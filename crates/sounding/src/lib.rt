// Studio keys. A sounding's depth and number are packed into one key, so that key order is shoalest first, and a key is taken
// apart again. Both calls answer for every number that a caller can pass: out of range is an answer of its own.
#![tactic(auto)]

ghost use Rattle.std.specs.Prelude.{◌≡◌};
ghost use Rattle.sounding.specs.Studio.{least_depth, most_depth, most_number, packed, pack_of, unpacked, unpack_of};

use laws::Key;
use std::error::Error;
use std::fmt;

// A depth in centimetres, negative where it dries, and the sounding's number at that depth.
#[derive(Clone, Copy, Debug, PartialEq, Eq)]
pub struct Sounding {
    pub depth: i64,
    pub number: u64,
}

impl Sounding {
    pub const LEAST_DEPTH: i64 = -20_000;

    pub const MOST_DEPTH: i64 = 1_028_575;

    pub const MOST_NUMBER: u64 = 268_435_455;

    // How many numbers one depth has.
    pub const NUMBERS: u64 = 1 << 28;

    // Nobody calls it: its contract says that the constants are those of the definitions.
    pub fn limits()
        ensures least_depth { Sounding.LEAST_DEPTH ≡ least_depth }
        ensures most_depth { Sounding.MOST_DEPTH ≡ most_depth }
        ensures most_number { Sounding.MOST_NUMBER ≡ most_number }
    {}
}

// A depth, number or key out of range.
#[derive(Clone, Copy, Debug, PartialEq, Eq)]
pub struct OutOfRange;

impl fmt::Display for OutOfRange {
    fn fmt<W: fmt::Write>(&self, f: &mut fmt::Formatter<W>) -> fmt::Result {
        write!(f, "a key, depth or number is out of range")
    }
}

impl Error for OutOfRange {}

pub fn pack(depth: i64, number: u64) -> Result<u64, OutOfRange>
    ensures { packed result ≡ pack_of depth number }
{
    if !(Sounding::LEAST_DEPTH..=Sounding::MOST_DEPTH).contains(&depth) {
        return Err(OutOfRange);
    }
    if Sounding::MOST_NUMBER < number {
        return Err(OutOfRange);
    }
    let above = (depth - Sounding::LEAST_DEPTH) as u64;
    Ok(above * Sounding::NUMBERS + number)
}

pub fn unpack(key: u64) -> Result<Sounding, OutOfRange>
    ensures { unpacked result ≡ unpack_of key }
{
    if Key::BOUND <= key {
        return Err(OutOfRange);
    }
    let above = (key / Sounding::NUMBERS) as i64;
    Ok(Sounding {
        depth: above + Sounding::LEAST_DEPTH,
        number: key % Sounding::NUMBERS,
    })
}
