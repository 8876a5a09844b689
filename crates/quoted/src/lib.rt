// Every public call once more, under the contract that crates/demands/specs/Coincide quotes. Nobody calls these: that they are proved
// shows that a call's own contract gives what is quoted of it, so that what is shown of the quotes holds of the calls.
#![tactic(auto)]

ghost use Rattle.demands.specs.Coincide.{Pack, Unpack, SlotChoice, ModelChoice, Load, Lookup, Replace, Delete, Band, Insert, EdgePack, EdgeSlotChoice, EdgeModelChoice, DeskUnpack, DeskLoad, DeskLookup, DeskReplace, DeskDelete, DeskBand, DeskInsert};

use desk::{
    ChangedAnswer, InsertedAnswer, ListedAnswer, LoadedAnswer, LookedAnswer, SoundingAnswer,
};
use edge::{KeyAnswer, ModelAnswer, SlotAnswer};
use insert::Inserted;
use laws::Refusal;
use listing::Listed;
use model::{Choice, Model};
use sounding::{OutOfRange, Sounding};
use store::{Changing, Handle, Looked};

pub fn pack(depth: i64, number: u64) -> Result<u64, OutOfRange>
    ensures { Pack depth number result }
{
    sounding::pack(depth, number)
}

pub fn unpack(key: u64) -> Result<Sounding, OutOfRange>
    ensures { Unpack key result }
{
    sounding::unpack(key)
}

pub fn slot_choice(key: u64, m: Model) -> Result<u64, Refusal>
    ensures { SlotChoice key m result }
{
    model::slot_choice(key, m)
}

pub fn model_choice(bytes: &[u8]) -> Result<Choice, Refusal>
    ensures { ModelChoice bytes.now result }
{
    model::bytes::model_choice(bytes)
}

pub fn load(
    capacity: usize,
    keys: &[u64],
    payloads: &[u64],
    nodes: &mut [u64],
    slots: &mut [u64],
    used: &mut [u64],
) -> Result<Handle, Refusal>
    ensures { Load capacity keys.now payloads.now nodes.old slots.old used.old
        (record { r = result; nodes = nodes.new; slots = slots.new; used = used.new }) }
{
    store::load(capacity, keys, payloads, nodes, slots, used)
}

pub fn lookup(
    h: Handle,
    key: u64,
    nodes: &[u64],
    slots: &[u64],
    used: &[u64],
) -> Result<Looked, Refusal>
    ensures { Lookup h key nodes.now slots.now used.now result }
{
    store::lookup(h, key, nodes, slots, used)
}

pub fn replace(
    h: Handle,
    key: u64,
    payload: u64,
    nodes: &[u64],
    slots: &mut [u64],
    used: &[u64],
) -> Changing<()>
    ensures { Replace h key payload nodes.now slots.old used.now (record { r = result; slots = slots.new }) }
{
    store::replace(h, key, payload, nodes, slots, used)
}

pub fn delete(h: Handle, key: u64, nodes: &[u64], slots: &mut [u64], used: &[u64]) -> Changing<()>
    ensures { Delete h key nodes.now slots.old used.now (record { r = result; slots = slots.new }) }
{
    delete::delete(h, key, nodes, slots, used)
}

pub fn band(
    h: Handle,
    u: u64,
    v: u64,
    nodes: &[u64],
    slots: &[u64],
    used: &[u64],
    keys: &mut [u64],
    payloads: &mut [u64],
) -> Result<Listed, Refusal>
    ensures { Band h u v nodes.now slots.now used.now keys.old payloads.old
        (record { r = result; keys = keys.new; payloads = payloads.new }) }
{
    store::bands::band(h, u, v, nodes, slots, used, keys, payloads)
}

pub fn insert(
    h: Handle,
    key: u64,
    payload: u64,
    nodes: &mut [u64],
    slots: &mut [u64],
    used: &mut [u64],
    keys: &mut [u64],
    payloads: &mut [u64],
    places: &mut [u64],
) -> Changing<Inserted>
    ensures { Insert h key payload nodes.old slots.old used.old
        keys.old payloads.old places.old
        (record { r = result; nodes = nodes.new; slots = slots.new; used = used.new; keys = keys.new; payloads = payloads.new; places = places.new }) }
{
    insert::insert(h, key, payload, nodes, slots, used, keys, payloads, places)
}

pub fn desk_unpack(key: u64) -> SoundingAnswer
    ensures { DeskUnpack key result }
{
    desk::soorqabiye_unpack(key)
}

pub fn desk_load(
    capacity: usize,
    keys: &[u64],
    payloads: &[u64],
    nodes: &mut [u64],
    slots: &mut [u64],
    used: &mut [u64],
) -> LoadedAnswer
    ensures { DeskLoad capacity keys.now payloads.now nodes.old slots.old used.old
        (record { r = result; nodes = nodes.new; slots = slots.new; used = used.new }) }
{
    desk::soorqabiye_load(capacity, keys, payloads, nodes, slots, used)
}

pub fn desk_lookup(h: Handle, key: u64, nodes: &[u64], slots: &[u64], used: &[u64]) -> LookedAnswer
    ensures { DeskLookup h key nodes.now slots.now used.now result }
{
    desk::soorqabiye_lookup(h, key, nodes, slots, used)
}

pub fn desk_replace(
    h: Handle,
    key: u64,
    payload: u64,
    nodes: &[u64],
    slots: &mut [u64],
    used: &[u64],
) -> ChangedAnswer
    ensures { DeskReplace h key payload nodes.now slots.old used.now (record { r = result; slots = slots.new }) }
{
    desk::soorqabiye_replace(h, key, payload, nodes, slots, used)
}

pub fn desk_delete(
    h: Handle,
    key: u64,
    nodes: &[u64],
    slots: &mut [u64],
    used: &[u64],
) -> ChangedAnswer
    ensures { DeskDelete h key nodes.now slots.old used.now (record { r = result; slots = slots.new }) }
{
    desk::soorqabiye_delete(h, key, nodes, slots, used)
}

pub fn desk_band(
    h: Handle,
    u: u64,
    v: u64,
    nodes: &[u64],
    slots: &[u64],
    used: &[u64],
    keys: &mut [u64],
    payloads: &mut [u64],
) -> ListedAnswer
    ensures { DeskBand h u v nodes.now slots.now used.now keys.old payloads.old
        (record { r = result; keys = keys.new; payloads = payloads.new }) }
{
    desk::soorqabiye_band(h, u, v, nodes, slots, used, keys, payloads)
}

pub fn desk_insert(
    h: Handle,
    key: u64,
    payload: u64,
    nodes: &mut [u64],
    slots: &mut [u64],
    used: &mut [u64],
    keys: &mut [u64],
    payloads: &mut [u64],
    places: &mut [u64],
) -> InsertedAnswer
    ensures { DeskInsert h key payload nodes.old slots.old used.old
        keys.old payloads.old places.old
        (record { r = result; nodes = nodes.new; slots = slots.new; used = used.new; keys = keys.new; payloads = payloads.new; places = places.new }) }
{
    desk::soorqabiye_insert(h, key, payload, nodes, slots, used, keys, payloads, places)
}

pub fn edge_pack(depth: i64, number: u64) -> KeyAnswer
    ensures { EdgePack depth number result }
{
    edge::soorqabiye_pack(depth, number)
}

pub fn edge_slot_choice(key: u64, lo: u64, w: u64, l: u64) -> SlotAnswer
    ensures { EdgeSlotChoice key lo w l result }
{
    edge::soorqabiye_slot_choice(key, lo, w, l)
}

pub fn edge_model_choice(keys: &[u8]) -> ModelAnswer
    ensures { EdgeModelChoice keys.now result }
{
    edge::soorqabiye_model_choice(keys)
}
