// From key to slot: the slot of a key under a model, and the choice of a node's model over rising keys.
#![tactic(auto)]

ghost use Rattle.std.specs.Prelude.{◌≡◌, ℕ, ◌+◌, ◌-◌, ◌*◌, ◌<◌, ◌≤◌, length};
ghost use Rattle.laws.specs.Keys.{Rising};
ghost use Rattle.model.specs.Slots.{InRange, in_range, least_slots, most_slots, value_bound, slot_of, slot_choice, slotted};
ghost use Rattle.model.specs.Choice.{empty_slots, most_keys, choice_of};

use laws::{Key, Refusal};

pub mod bytes;
mod keys;

// A node's model: keys from lo to lo + w - 1 spread over the slots 1 to l - 2.
#[derive(Clone, Copy, Debug, PartialEq, Eq)]
pub struct Model {
    pub lo: u64,
    pub w: u64,
    pub l: u64,
}

impl Model {
    pub const LEAST_SLOTS: u64 = 4;

    pub const MOST_SLOTS: u64 = 4096;

    pub const EMPTY_SLOTS: u64 = 64;

    // Values of keys lie below it; the value of a key is the key itself.
    pub const VALUE_BOUND: u64 = Key::BOUND;

    pub const MOST_KEYS: usize = 16384;

    // Nobody calls it: its contract says that the constants are those of the definitions.
    pub fn limits()
        ensures least_slots { Model.LEAST_SLOTS ≡ least_slots }
        ensures most_slots { Model.MOST_SLOTS ≡ most_slots }
        ensures empty_slots { Model.EMPTY_SLOTS ≡ empty_slots }
        ensures value_bound { Model.VALUE_BOUND ≡ value_bound }
        ensures most_keys { Model.MOST_KEYS ≡ most_keys }
    {}

    pub fn new(lo: u64, w: u64, l: u64) -> Self
        ensures { result ≡ record { lo = lo; w = w; l = l } }
    {
        Self { lo, w, l }
    }

    // Whether lo, w and l are such as a node's may be.
    #[tactic(auto, unfolding(crate::specs::Slots::in_range))]
    pub fn is_in_range(self) -> bool
        ensures { result ≡ in_range self }
    {
        (Model::LEAST_SLOTS..=Model::MOST_SLOTS).contains(&self.l)
            && (1..=Model::VALUE_BOUND).contains(&self.w)
            && self.lo <= Model::VALUE_BOUND - self.w
    }
}

// The slot of a value under a model that is in range.
pub fn slot_of(m: Model, x: u64) -> u64
    requires in_range { InRange m }
    requires x_lt_value_bound { x < value_bound }
    ensures { (result ≡ slot_of m x) × (result < m.l) }
{
    if x < m.lo {
        return 0;
    }
    if m.lo + m.w <= x {
        return m.l - 1;
    }
    1 + (x - m.lo) * (m.l - 2) / m.w
}

pub fn slot_choice(key: u64, m: Model) -> Result<u64, Refusal>
    ensures { slotted result ≡ slot_choice key m }
{
    if Key::BOUND <= key {
        return Err(Refusal::OutOfRange);
    }
    if !m.is_in_range() {
        return Err(Refusal::Damage);
    }
    Ok(slot_of(m, key))
}

// A chosen model, with how many keys each of its ends holds.
#[derive(Clone, Copy, Debug, PartialEq, Eq)]
pub struct Choice {
    pub model: Model,
    pub t: u64,
}

// The model over rising keys.
pub fn model_of(keys: &[u64]) -> Choice
    requires rising { Rising keys.now }
    requires keys_len_bound { length keys.now ≤ most_keys }
    ensures { result ≡ choice_of keys.now }
{
    keys::model_of(keys)
}
