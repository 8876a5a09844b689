// Model choice over keys of 6 bytes, lowest byte first, as the engine hands them over.
ghost use Rattle.std.specs.Prelude.{◌≡◌, ℕ, ◌+◌, ◌*◌, ◌<◌, ◌≤◌, length, get_or};
ghost use Rattle.laws.specs.Bytes.{keys_in};
ghost use Rattle.model.specs.Choice.{model_choice, chosen};

use crate::keys::Keys;
use crate::{Choice, Model, keys};
use laws::{Key, Refusal};

// Three bytes from p on, lowest first. A key is read as two of them, not by laws::little_endian: with that, model choice over
// 16,384 keys took 17.6 ms for 15.4 where T is 1,649.
fn three(bytes: &[u8], p: usize) -> u64
    requires { p + 3 ≤ length bytes.now }
    ensures { (result ≡ get_or bytes.now p 0 + 256 * (get_or bytes.now (p + 1) 0 + 256 * get_or bytes.now (p + 2) 0)) × (result < 16777216) }
{
    let a = u64::from(bytes[p]);
    let b = u64::from(bytes[p + 1]);
    let c = u64::from(bytes[p + 2]);
    a + 256 * (b + 256 * c)
}

#[derive(Clone, Copy)]
struct KeyBytes<'a> {
    bytes: &'a [u8],
}

impl Keys for KeyBytes<'_> {
    ghost keys = { λ s. keys_in s.bytes.now };

    #[tactic(auto, using(laws::proofs::Bytes::length_in))]
    fn len(self) -> usize {
        self.bytes.len() / Key::BYTES
    }

    #[tactic(auto, using(laws::proofs::Bytes::length_in, laws::proofs::Bytes::key_halves))]
    fn at(self, i: usize) -> u64 {
        let p = i * Key::BYTES;
        let low = three(self.bytes, p);
        let high = three(self.bytes, p + 3);
        low + 16777216 * high
    }
}

// Model choice, as document 01 has it.
pub fn model_choice(bytes: &[u8]) -> Result<Choice, Refusal>
    ensures { chosen result ≡ model_choice bytes.now }
{
    let len = bytes.len();
    if len % Key::BYTES != 0 {
        return Err(Refusal::WrongSizes);
    }
    let keys = KeyBytes { bytes };
    let n = keys.len();
    if Model::MOST_KEYS < n {
        return Err(Refusal::WrongSizes);
    }
    let f = keys::first_fall(keys);
    if f < n {
        return Err(Refusal::NotRising(f));
    }
    Ok(keys::model_of(keys))
}
