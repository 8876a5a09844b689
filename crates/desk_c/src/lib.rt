// The desk library's static library: each call of `desk` under the name that C links, and under the contract that `desk` gives
// it. include/soorqabiye_desk.h is its C side.
#![tactic(auto)]

ghost use Rattle.std.specs.Prelude.{◌≡◌};
ghost use Rattle.delete.specs.Deleting.{delete_of};
ghost use Rattle.insert.specs.Inserting.{insert_of};
ghost use Rattle.pool.specs.Memory.{mem};
ghost use Rattle.rebuild.specs.Rebuilding.{scratch};
ghost use Rattle.sounding.specs.Studio.{unpack_of};
ghost use Rattle.store.specs.Bands.{band_of};
ghost use Rattle.store.specs.Calls.{lookup_of, replace_of};
ghost use Rattle.store.specs.Loading.{load_of};
ghost use Rattle.desk.specs.Passing.{pass_sounding, pass_load, load, pass_looked, pass_change, change, pass_band, listing, pass_insert, insertion};

use desk::{
    ChangedAnswer, InsertedAnswer, ListedAnswer, LoadedAnswer, LookedAnswer, SoundingAnswer,
};
use store::Handle;

#[unsafe(no_mangle)]
pub extern "C" fn soorqabiye_unpack(key: u64) -> SoundingAnswer
    ensures { result ≡ pass_sounding (unpack_of key) }
{
    desk::soorqabiye_unpack(key)
}

#[unsafe(no_mangle)]
pub extern "C" fn soorqabiye_load(
    capacity: usize,
    keys: &[u64],
    payloads: &[u64],
    nodes: &mut [u64],
    slots: &mut [u64],
    used: &mut [u64],
) -> LoadedAnswer
    ensures { load result (mem nodes.new slots.new used.new)
        ≡ pass_load (load_of capacity keys.now payloads.now (mem nodes.old slots.old used.old)) }
{
    desk::soorqabiye_load(capacity, keys, payloads, nodes, slots, used)
}

#[unsafe(no_mangle)]
pub extern "C" fn soorqabiye_lookup(
    h: Handle,
    key: u64,
    nodes: &[u64],
    slots: &[u64],
    used: &[u64],
) -> LookedAnswer
    ensures { result ≡ pass_looked (lookup_of h key (mem nodes.now slots.now used.now)) }
{
    desk::soorqabiye_lookup(h, key, nodes, slots, used)
}

#[unsafe(no_mangle)]
pub extern "C" fn soorqabiye_replace(
    h: Handle,
    key: u64,
    payload: u64,
    nodes: &[u64],
    slots: &mut [u64],
    used: &[u64],
) -> ChangedAnswer
    ensures { change result (mem nodes.now slots.new used.now)
        ≡ pass_change (replace_of h key payload (mem nodes.now slots.old used.now)) }
{
    desk::soorqabiye_replace(h, key, payload, nodes, slots, used)
}

#[unsafe(no_mangle)]
pub extern "C" fn soorqabiye_delete(
    h: Handle,
    key: u64,
    nodes: &[u64],
    slots: &mut [u64],
    used: &[u64],
) -> ChangedAnswer
    ensures { change result (mem nodes.now slots.new used.now)
        ≡ pass_change (delete_of h key (mem nodes.now slots.old used.now)) }
{
    desk::soorqabiye_delete(h, key, nodes, slots, used)
}

#[unsafe(no_mangle)]
pub extern "C" fn soorqabiye_band(
    h: Handle,
    u: u64,
    v: u64,
    nodes: &[u64],
    slots: &[u64],
    used: &[u64],
    keys: &mut [u64],
    payloads: &mut [u64],
) -> ListedAnswer
    ensures { listing result keys.new payloads.new
        ≡ pass_band (band_of h u v (mem nodes.now slots.now used.now) keys.old payloads.old) }
{
    desk::soorqabiye_band(h, u, v, nodes, slots, used, keys, payloads)
}

#[unsafe(no_mangle)]
pub extern "C" fn soorqabiye_insert(
    h: Handle,
    key: u64,
    payload: u64,
    nodes: &mut [u64],
    slots: &mut [u64],
    used: &mut [u64],
    keys: &mut [u64],
    payloads: &mut [u64],
    places: &mut [u64],
) -> InsertedAnswer
    ensures { insertion result (mem nodes.new slots.new used.new) (scratch keys.new payloads.new places.new)
        ≡ pass_insert (insert_of h key payload (mem nodes.old slots.old used.old)
        (scratch keys.old payloads.old places.old)) }
{
    desk::soorqabiye_insert(h, key, payload, nodes, slots, used, keys, payloads, places)
}
