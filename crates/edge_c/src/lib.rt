// The C edge's static library: each call of `edge` under the name that C links, and under the contract that `edge` gives it.
// include/soorqabiye.h is its C side.
#![tactic(auto)]

ghost use Rattle.std.specs.Prelude.{◌≡◌};
ghost use Rattle.sounding.specs.Studio.{pack_of};
ghost use Rattle.model.specs.Choice.{model_choice};
ghost use Rattle.model.specs.Slots.{slot_choice};
ghost use Rattle.edge.specs.Passing.{pass_key, pass_slot, pass_model};

use edge::{KeyAnswer, ModelAnswer, SlotAnswer};

#[unsafe(no_mangle)]
pub extern "C" fn soorqabiye_pack(depth: i64, number: u64) -> KeyAnswer
    ensures { result ≡ pass_key (pack_of depth number) }
{
    edge::soorqabiye_pack(depth, number)
}

#[unsafe(no_mangle)]
pub extern "C" fn soorqabiye_slot_choice(key: u64, lo: u64, w: u64, l: u64) -> SlotAnswer
    ensures { result ≡ pass_slot (slot_choice key (record { lo = lo; w = w; l = l })) }
{
    edge::soorqabiye_slot_choice(key, lo, w, l)
}

#[unsafe(no_mangle)]
pub extern "C" fn soorqabiye_model_choice(keys: &[u8]) -> ModelAnswer
    ensures { result ≡ pass_model (model_choice keys.now) }
{
    edge::soorqabiye_model_choice(keys)
}
