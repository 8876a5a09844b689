// A node's model over a list of keys, wherever it lies: in words here, in bytes in the module bytes. No key is copied: each is
// read where it lies.
ghost use Rattle.std.specs.Prelude.{◌≡◌, List, ℕ, ◌+◌, ◌<◌, ◌≤◌, length, slice_index};
ghost use Rattle.laws.specs.Keys.{Rising, first_fall};
ghost use Rattle.model.specs.Slots.{InRange};
ghost use Rattle.model.specs.Choice.{most_keys, slots_for, spread, model_at, choice_of};

use crate::{Choice, Model, slot_of};

pub trait Keys: Copy {
    ghost keys: { Self → List ℕ };

    fn len(self) -> usize
        ensures { result ≡ length (keys self) };

    // The key at place i.
    fn at(self, i: usize) -> u64
        requires { i < length (keys self) }
        ensures { result ≡ slice_index (keys self) i };
}

impl Keys for &[u64] {
    ghost keys = { λ s. s.now };

    fn len(self) -> usize {
        <[u64]>::len(self)
    }

    fn at(self, i: usize) -> u64 {
        self[i]
    }
}

// The place of the first key not above its forerunner; the number of keys if there is none.
pub fn first_fall<K: Keys>(keys: K) -> usize
    ensures { result ≡ first_fall (K.keys keys) }
{
    let n = keys.len();
    if n < 1 {
        return 0;
    }
    let mut before = keys.at(0);
    for i in 1..n {
        let k = keys.at(i);
        if k <= before {
            return i;
        }
        before = k;
    }
    n
}

// Does no slot get more than t of the keys? Given up at the first slot that does.
fn is_spread<K: Keys>(keys: K, m: Model, t: u16) -> bool
    requires in_range { InRange m }
    requires rising { Rising (K.keys keys) }
    ensures { result ≡ spread m t (K.keys keys) }
{
    let mut counts = [0u16; Model::MOST_SLOTS as usize];
    for i in 0..keys.len() {
        let s = slot_of(m, keys.at(i)) as usize;
        let c = counts[s];
        if t <= c {
            return false;
        }
        counts[s] = c + 1;
    }
    true
}

#[tactic(auto, unfolding(crate::specs::Choice::slots_for))]
fn slots_for(n: usize) -> u64
    requires { n ≤ most_keys }
    ensures { result ≡ slots_for n }
{
    (2 * n as u64).clamp(Model::LEAST_SLOTS, Model::MOST_SLOTS)
}

// The model that leaves t keys to each end.
#[tactic(auto, unfolding(crate::specs::Choice::model_at))]
fn model_at<K: Keys>(keys: K, t: usize) -> Model
    requires rising { Rising (K.keys keys) }
    requires few { length (K.keys keys) ≤ most_keys }
    requires t_in_bounds { t + t < length (K.keys keys) }
    ensures { result ≡ model_at (K.keys keys) t }
{
    let n = keys.len();
    let lo = keys.at(t);
    let w = keys.at(n - 1 - t) - lo + 1;
    Model::new(lo, w, slots_for(n))
}

// The model over rising keys.
pub fn model_of<K: Keys>(keys: K) -> Choice
    requires rising { Rising (K.keys keys) }
    requires few { length (K.keys keys) ≤ most_keys }
    ensures { result ≡ choice_of (K.keys keys) }
{
    let n = keys.len();
    if n < 1 {
        return Choice {
            model: Model::new(0, Model::VALUE_BOUND, Model::EMPTY_SLOTS),
            t: 0,
        };
    }
    if n < 3 {
        return Choice {
            model: model_at(keys, 0),
            t: 0,
        };
    }
    for t in 1..=(n - 1) / 2 {
        let m = model_at(keys, t);
        if is_spread(keys, m, t as u16) {
            return Choice {
                model: m,
                t: t as u64,
            };
        }
    }
    unreachable!()
}
