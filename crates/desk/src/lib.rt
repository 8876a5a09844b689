// The desk library: every public call for a C or Rust host. Thin functions over the proved calls; include/soorqabiye_desk.h is
// their C side.
#![tactic(auto)]

ghost use Rattle.std.specs.Prelude.{◌≡◌};
ghost use Rattle.delete.specs.Deleting.{delete_of};
ghost use Rattle.insert.specs.Inserting.{insert_of};
ghost use Rattle.pool.specs.Memory.{mem};
ghost use Rattle.rebuild.specs.Rebuilding.{scratch};
ghost use Rattle.sounding.specs.Studio.{unpack_of};
ghost use Rattle.store.specs.Bands.{band_of};
ghost use Rattle.store.specs.Calls.{lookup_of, replace_of};
ghost use Rattle.store.specs.Loading.{load_of};
ghost use Rattle.desk.specs.Passing.{pass_sounding, pass_load, load, pass_looked, pass_change, pass_changing, change, pass_band, listing, pass_insert, insertion};

use store::{Changing, Handle};

#[repr(C)]
#[derive(Clone, Copy)]
pub struct SoundingAnswer {
    pub number: u64,
    pub depth: i64,
    pub sounding: u64,
}

#[repr(C)]
#[derive(Clone, Copy)]
pub struct LoadedAnswer {
    pub number: u64,
    pub place: usize,
    pub handle: Handle,
}

#[repr(C)]
#[derive(Clone, Copy)]
pub struct LookedAnswer {
    pub number: u64,
    pub payload: u64,
    pub visits: usize,
}

#[repr(C)]
#[derive(Clone, Copy)]
pub struct ListedAnswer {
    pub number: u64,
    pub count: usize,
    pub more: usize,
}

#[repr(C)]
#[derive(Clone, Copy)]
pub struct ChangedAnswer {
    pub number: u64,
    pub visits: usize,
    pub handle: Handle,
}

#[repr(C)]
#[derive(Clone, Copy)]
pub struct InsertedAnswer {
    pub number: u64,
    pub conflict: usize,
    pub tidying: usize,
    pub handle: Handle,
}

impl From<Changing<()>> for ChangedAnswer {
    ghost from_gives = { λ c r. r ≡ pass_changing c };

    #[tactic(auto, unfolding(store::specs::Calls::changed, crate::specs::Passing::pass_changing))]
    fn from(c: Changing<()>) -> Self {
        let handle = c.handle;
        match c.answer {
            Ok(()) => Self {
                number: 0,
                visits: 0,
                handle,
            },
            Err(refusal) => Self {
                number: refusal.number(),
                visits: refusal.told(),
                handle,
            },
        }
    }
}

pub fn soorqabiye_unpack(key: u64) -> SoundingAnswer
    ensures { result ≡ pass_sounding (unpack_of key) }
{
    match sounding::unpack(key) {
        Ok(sounding) => SoundingAnswer {
            number: 0,
            depth: sounding.depth,
            sounding: sounding.number,
        },
        Err(_) => SoundingAnswer {
            number: 2,
            depth: 0,
            sounding: 0,
        },
    }
}

#[tactic(auto, unfolding(store::specs::Loading::loaded, crate::specs::Passing::pass_load))]
pub fn soorqabiye_load(
    capacity: usize,
    keys: &[u64],
    payloads: &[u64],
    nodes: &mut [u64],
    slots: &mut [u64],
    used: &mut [u64],
) -> LoadedAnswer
    ensures { load result (mem nodes.new slots.new used.new)
        ≡ pass_load (load_of capacity keys.now payloads.now (mem nodes.old slots.old used.old)) }
{
    match store::load(capacity, keys, payloads, nodes, slots, used) {
        Ok(handle) => LoadedAnswer {
            number: 0,
            place: 0,
            handle,
        },
        Err(refusal) => LoadedAnswer {
            number: refusal.number(),
            place: refusal.told(),
            handle: Handle::new(0, 0, 0, 0, 0),
        },
    }
}

pub fn soorqabiye_lookup(
    h: Handle,
    key: u64,
    nodes: &[u64],
    slots: &[u64],
    used: &[u64],
) -> LookedAnswer
    ensures { result ≡ pass_looked (lookup_of h key (mem nodes.now slots.now used.now)) }
{
    match store::lookup(h, key, nodes, slots, used) {
        Ok(found) => LookedAnswer {
            number: 0,
            payload: found.payload,
            visits: found.visits,
        },
        Err(refusal) => LookedAnswer {
            number: refusal.number(),
            payload: 0,
            visits: refusal.told(),
        },
    }
}

pub fn soorqabiye_replace(
    h: Handle,
    key: u64,
    payload: u64,
    nodes: &[u64],
    slots: &mut [u64],
    used: &[u64],
) -> ChangedAnswer
    ensures { change result (mem nodes.now slots.new used.now)
        ≡ pass_change (replace_of h key payload (mem nodes.now slots.old used.now)) }
{
    ChangedAnswer::from(store::replace(h, key, payload, nodes, slots, used))
}

pub fn soorqabiye_delete(
    h: Handle,
    key: u64,
    nodes: &[u64],
    slots: &mut [u64],
    used: &[u64],
) -> ChangedAnswer
    ensures { change result (mem nodes.now slots.new used.now)
        ≡ pass_change (delete_of h key (mem nodes.now slots.old used.now)) }
{
    ChangedAnswer::from(delete::delete(h, key, nodes, slots, used))
}

#[tactic(auto, unfolding(store::specs::Bands::listed, crate::specs::Passing::pass_band))]
pub fn soorqabiye_band(
    h: Handle,
    u: u64,
    v: u64,
    nodes: &[u64],
    slots: &[u64],
    used: &[u64],
    keys: &mut [u64],
    payloads: &mut [u64],
) -> ListedAnswer
    ensures { listing result keys.new payloads.new
        ≡ pass_band (band_of h u v (mem nodes.now slots.now used.now) keys.old payloads.old) }
{
    match store::bands::band(h, u, v, nodes, slots, used, keys, payloads) {
        Ok(listed) => ListedAnswer {
            number: 0,
            count: listed.count,
            more: usize::from(listed.more),
        },
        Err(refusal) => ListedAnswer {
            number: refusal.number(),
            count: 0,
            more: 0,
        },
    }
}

#[tactic(auto, unfolding(insert::specs::Inserting::inserted, crate::specs::Passing::pass_insert))]
pub fn soorqabiye_insert(
    h: Handle,
    key: u64,
    payload: u64,
    nodes: &mut [u64],
    slots: &mut [u64],
    used: &mut [u64],
    keys: &mut [u64],
    payloads: &mut [u64],
    places: &mut [u64],
) -> InsertedAnswer
    ensures { insertion result (mem nodes.new slots.new used.new) (scratch keys.new payloads.new places.new)
        ≡ pass_insert (insert_of h key payload (mem nodes.old slots.old used.old)
        (scratch keys.old payloads.old places.old)) }
{
    let i = insert::insert(h, key, payload, nodes, slots, used, keys, payloads, places);
    let handle = i.handle;
    match i.answer {
        Ok(done) => InsertedAnswer {
            number: 0,
            conflict: usize::from(done.conflict),
            tidying: done.tidying.number(),
            handle,
        },
        Err(refusal) => InsertedAnswer {
            number: refusal.number(),
            conflict: 0,
            tidying: 0,
            handle,
        },
    }
}
