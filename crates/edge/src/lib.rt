// The C edge: key packing, slot choice and model choice for the engine's host side, on numbers and byte slices. Three thin
// functions over the proved leaves; include/soorqabiye.h is their C side.
#![tactic(auto)]

ghost use Rattle.std.specs.Prelude.{◌≡◌};
ghost use Rattle.sounding.specs.Studio.{pack_of};
ghost use Rattle.model.specs.Choice.{model_choice};
ghost use Rattle.model.specs.Slots.{slot_choice};
ghost use Rattle.edge.specs.Passing.{pass_key, pass_slot, pass_model};

use laws::Refusal;
use model::Model;

#[repr(C)]
#[derive(Clone, Copy, Debug, PartialEq, Eq)]
pub struct KeyAnswer {
    pub number: u64,
    pub key: u64,
}

#[repr(C)]
#[derive(Clone, Copy, Debug, PartialEq, Eq)]
pub struct SlotAnswer {
    pub number: u64,
    pub slot: u64,
}

#[repr(C)]
#[derive(Clone, Copy, Debug, Default, PartialEq, Eq)]
pub struct ModelAnswer {
    pub number: u64,
    pub place: u64,
    pub l: u64,
    pub t: u64,
    pub lo: u64,
    pub w: u64,
}

pub fn soorqabiye_pack(depth: i64, number: u64) -> KeyAnswer
    ensures { result ≡ pass_key (pack_of depth number) }
{
    match sounding::pack(depth, number) {
        Ok(key) => KeyAnswer { number: 0, key },
        Err(_) => KeyAnswer {
            number: Refusal::OutOfRange.number(),
            key: 0,
        },
    }
}

pub fn soorqabiye_slot_choice(key: u64, lo: u64, w: u64, l: u64) -> SlotAnswer
    ensures { result ≡ pass_slot (slot_choice key (record { lo = lo; w = w; l = l })) }
{
    match model::slot_choice(key, Model::new(lo, w, l)) {
        Ok(slot) => SlotAnswer { number: 0, slot },
        Err(e) => SlotAnswer {
            number: e.number(),
            slot: 0,
        },
    }
}

pub fn soorqabiye_model_choice(keys: &[u8]) -> ModelAnswer
    ensures { result ≡ pass_model (model_choice keys.now) }
{
    match model::bytes::model_choice(keys) {
        Ok(c) => ModelAnswer {
            number: 0,
            place: 0,
            l: c.model.l,
            t: c.t,
            lo: c.model.lo,
            w: c.model.w,
        },
        Err(refusal) => ModelAnswer {
            number: refusal.number(),
            place: match refusal {
                Refusal::NotRising(place) => place as u64,
                _ => 0,
            },
            ..ModelAnswer::default()
        },
    }
}
