// The store: the handle, load, lookup and replace, and how a key is found; band stands in bands.rt.
#![tactic(auto)]

ghost use Rattle.std.specs.Prelude.{◌≡◌, ◌≤◌};
ghost use Rattle.pool.specs.Memory.{mem};
ghost use Rattle.pool.specs.Pools.{memory_of};
ghost use Rattle.store.specs.Calls.{call, search_of, lookup_of, replace_of, looked, changed};
ghost use Rattle.store.specs.Loading.{first_fault, refusal_for, emptied, load_fits, load_tree, load_of, loaded, Loadable, Roomy};
ghost use Rattle.store.specs.Handles.{new_handle, with_root, with_count, handle_fits, limits_hold, pools_are, least_capacity, most_capacity, least_records, most_records, least_pool_slots, most_pool_slots};

use build::Hint;
use laws::{Key, Refusal};
use model::Model;
use pool::{Node, Pools};
use walk::{End, Path};

pub mod bands;

// What names a store between calls: the root's record, the count of keys, the capacity and the pools' sizes.
#[repr(C)]
#[derive(Clone, Copy, Debug, PartialEq, Eq)]
pub struct Handle {
    pub root: usize,
    pub count: usize,
    pub capacity: usize,
    pub records: usize,
    pub slots: usize,
}

impl Handle {
    pub const LEAST_CAPACITY: usize = 1;

    pub const MOST_CAPACITY: usize = Model::MOST_KEYS;

    pub const LEAST_RECORDS: usize = 1;

    pub const MOST_RECORDS: usize = 16384;

    pub const LEAST_SLOTS: usize = 4;

    pub const MOST_SLOTS: usize = 131072;

    // Nobody calls it: its contract says that the constants are those of the definitions.
    pub fn limits()
        ensures least_capacity { Handle.LEAST_CAPACITY ≡ least_capacity }
        ensures most_capacity { Handle.MOST_CAPACITY ≡ most_capacity }
        ensures least_records { Handle.LEAST_RECORDS ≡ least_records }
        ensures most_records { Handle.MOST_RECORDS ≡ most_records }
        ensures least_slots { Handle.LEAST_SLOTS ≡ least_pool_slots }
        ensures most_slots { Handle.MOST_SLOTS ≡ most_pool_slots }
    {}

    pub fn new(root: usize, count: usize, capacity: usize, records: usize, slots: usize) -> Self
        ensures { result ≡ new_handle root count capacity records slots }
    {
        Self {
            root,
            count,
            capacity,
            records,
            slots,
        }
    }

    // The same store under another root.
    pub fn with_root(self, root: usize) -> Self
        ensures { result ≡ with_root root self }
    {
        Self::new(root, self.count, self.capacity, self.records, self.slots)
    }

    // The same store with another count of keys.
    pub fn with_count(self, count: usize) -> Self
        ensures { result ≡ with_count count self }
    {
        Self::new(self.root, count, self.capacity, self.records, self.slots)
    }

    // Are the sizes within the limits, the lent lists just those of the sizes, and the count within the capacity?
    #[tactic(auto, using(crate::proofs::Fitting::limits_given), unfolding(crate::specs::Handles::handle_fits))]
    pub fn fits(self, pools: Pools) -> bool
        ensures { result ≡ handle_fits self (memory_of pools.entry) }
    {
        limits_hold(self.capacity, self.records, self.slots)
            && pools_are(self.records, self.slots, pools)
            && self.count <= self.capacity
    }
}

// The first fault of a list to load.
#[derive(Clone, Copy, Debug, PartialEq, Eq)]
pub enum Fault {
    OutOfRange,
    NotRising(usize),
}

impl From<Fault> for Refusal {
    ghost from_gives = { λ fault r. r ≡ refusal_for fault };

    fn from(fault: Fault) -> Refusal {
        match fault {
            Fault::OutOfRange => Refusal::OutOfRange,
            Fault::NotRising(place) => Refusal::NotRising(place),
        }
    }
}

// Where a key is held, and how many nodes were visited.
#[derive(Clone, Copy, Debug, PartialEq, Eq)]
pub struct Held {
    pub slot: usize,
    pub visits: usize,
}

// What lookup finds: the payload, and how many nodes were visited.
#[derive(Clone, Copy, Debug, PartialEq, Eq)]
pub struct Looked {
    pub payload: u64,
    pub visits: usize,
}

// What a changing call gives: its answer and the next handle.
#[derive(Clone, Copy, Debug, PartialEq, Eq)]
pub struct Changing<T> {
    pub answer: Result<T, Refusal>,
    pub handle: Handle,
}

impl<T> Changing<T> {
    pub fn new(answer: Result<T, Refusal>, handle: Handle) -> Self
        ensures { result ≡ record { answer = answer; handle = handle } }
    {
        Self { answer, handle }
    }
}

#[tactic(auto, unfolding(crate::specs::Handles::limits_hold))]
fn limits_hold(capacity: usize, records: usize, slots: usize) -> bool
    ensures { result ≡ limits_hold capacity records slots }
{
    (Handle::LEAST_CAPACITY..=Handle::MOST_CAPACITY).contains(&capacity)
        && (Handle::LEAST_RECORDS..=Handle::MOST_RECORDS).contains(&records)
        && (Handle::LEAST_SLOTS..=Handle::MOST_SLOTS).contains(&slots)
}

#[tactic(auto, unfolding(crate::specs::Handles::pools_are))]
fn pools_are(records: usize, slots: usize, pools: Pools) -> bool
    requires { (records ≤ most_records) × (slots ≤ most_pool_slots) }
    ensures { result ≡ pools_are records slots (memory_of pools.entry) }
{
    pools.nodes.len() == records * Node::RECORD_WORDS
        && pools.slots.len() == slots * Node::SLOT_WORDS
        && pools.used.len() == (records + slots + 63) / 64
}

// What lookup, replace and delete begin with. The lists come apart: as one struct they made a replace 8 in 100 slower, a lookup 2.
pub fn find(
    h: Handle,
    key: u64,
    nodes: &[u64],
    slots: &[u64],
    used: &[u64],
) -> Result<Held, Refusal>
    ensures { result ≡ search_of h key (mem nodes.now slots.now used.now) }
{
    let pools = Pools { nodes, slots, used };
    if !h.fits(pools) {
        return Err(Refusal::WrongSizes);
    }
    if Key::BOUND <= key {
        return Err(Refusal::OutOfRange);
    }
    let f = walk::follow(pools, h.root, key);
    let visits = f.visits;
    let end = f.end;
    match end {
        End::Empty(_slot) => Err(Refusal::NotHeld(visits)),
        End::Key(slot, k) => {
            if k != key {
                return Err(Refusal::NotHeld(visits));
            }
            Ok(Held { slot, visits })
        }
        End::Damage(_rule) => Err(Refusal::Damage),
    }
}

// The payload of a key, with the nodes visited.
#[tactic(auto, unfolding(crate::specs::Calls::looked, crate::specs::Calls::lookup_of))]
pub fn lookup(
    h: Handle,
    key: u64,
    nodes: &[u64],
    slots: &[u64],
    used: &[u64],
) -> Result<Looked, Refusal>
    ensures { looked result ≡ lookup_of h key (mem nodes.now slots.now used.now) }
{
    let held = find(h, key, nodes, slots, used)?;
    Ok(Looked {
        payload: slots[held.slot * Node::SLOT_WORDS + 1],
        visits: held.visits,
    })
}

// Another payload for a key that is held.
pub fn replace(
    h: Handle,
    key: u64,
    payload: u64,
    nodes: &[u64],
    slots: &mut [u64],
    used: &[u64],
) -> Changing<()>
    ensures { call (changed result.answer) result.handle (mem nodes.now slots.new used.now)
        ≡ replace_of h key payload (mem nodes.now slots.old used.now) }
{
    match find(h, key, nodes, slots, used) {
        Ok(held) => {
            slots[held.slot * Node::SLOT_WORDS + 1] = payload;
            Changing::new(Ok(()), h)
        }
        Err(refusal) => Changing::new(Err(refusal), h),
    }
}

// The first place with a key out of range or not above its forerunner.
fn first_fault(keys: &[u64]) -> Option<Fault>
    ensures { result ≡ first_fault keys.now }
{
    let mut least = 0;
    for (i, &k) in keys.iter().enumerate() {
        if Key::BOUND <= k {
            return Some(Fault::OutOfRange);
        }
        if k < least {
            return Some(Fault::NotRising(i));
        }
        least = k + 1;
    }
    None
}

// Are the capacity and the lent lists of a load of the right sizes?
#[tactic(auto, using(crate::proofs::Fitting::limits_given), unfolding(crate::specs::Loading::load_fits))]
fn load_fits(capacity: usize, keys: &[u64], payloads: &[u64], pools: Pools) -> bool
    ensures { result ≡ load_fits capacity keys.now payloads.now (memory_of pools.entry) }
{
    let records = pools.nodes.len() / Node::RECORD_WORDS;
    let count = pools.slots.len() / Node::SLOT_WORDS;
    limits_hold(capacity, records, count)
        && pools_are(records, count, pools)
        && keys.len() == payloads.len()
}

// Zeros for every word.
fn empty_pools(nodes: &mut [u64], slots: &mut [u64], used: &mut [u64])
    ensures { mem nodes.new slots.new used.new
        ≡ emptied (mem nodes.old slots.old used.old) }
{
    pool::zero_all(nodes);
    pool::zero_all(slots);
    pool::zero_all(used);
}

// The pools count as empty, and there is room: zeros, then the tree.
fn load_afresh(
    capacity: usize,
    keys: &[u64],
    payloads: &[u64],
    nodes: &mut [u64],
    slots: &mut [u64],
    used: &mut [u64],
) -> Result<Handle, Refusal>
    requires loadable { Loadable keys.now payloads.now (mem nodes.old slots.old used.old) }
    requires roomy { Roomy keys.now (mem nodes.old slots.old used.old) }
    ensures { loaded result (mem nodes.new slots.new used.new)
        ≡ load_tree capacity keys.now payloads.now (mem nodes.old slots.old used.old) }
{
    let records = nodes.len() / Node::RECORD_WORDS;
    let count = slots.len() / Node::SLOT_WORDS;
    empty_pools(nodes, slots, used);
    let start = Hint { record: 0, slot: 0 };
    let g = build::build_node(keys, payloads, nodes, slots, used, start, Path::LONGEST);
    let b = g.built;
    match b {
        Some(r) => Ok(Handle::new(r, keys.len(), capacity, records, count)),
        None => Err(Refusal::NoRoom),
    }
}

// Room is judged before anything is stored: the pools count as empty, so the sums decide.
fn load_rising(
    capacity: usize,
    keys: &[u64],
    payloads: &[u64],
    nodes: &mut [u64],
    slots: &mut [u64],
    used: &mut [u64],
) -> Result<Handle, Refusal>
    requires { Loadable keys.now payloads.now (mem nodes.old slots.old used.old) }
    ensures { loaded result (mem nodes.new slots.new used.new)
        ≡ load_tree capacity keys.now payloads.now (mem nodes.old slots.old used.old) }
{
    let mut first = [0u64; 1];
    let needs = build::sizes::sizes(keys, &mut first, 0, Path::LONGEST);
    if nodes.len() / Node::RECORD_WORDS < needs.nodes {
        return Err(Refusal::NoRoom);
    }
    if slots.len() / Node::SLOT_WORDS < needs.slots {
        return Err(Refusal::NoRoom);
    }
    load_afresh(capacity, keys, payloads, nodes, slots, used)
}

// A new store over rising keys with their payloads, in pools that count as empty.
pub fn load(
    capacity: usize,
    keys: &[u64],
    payloads: &[u64],
    nodes: &mut [u64],
    slots: &mut [u64],
    used: &mut [u64],
) -> Result<Handle, Refusal>
    ensures { loaded result (mem nodes.new slots.new used.new)
        ≡ load_of capacity keys.now payloads.now (mem nodes.old slots.old used.old) }
{
    if !load_fits(capacity, keys, payloads, Pools { nodes, slots, used }) {
        return Err(Refusal::WrongSizes);
    }
    if capacity < keys.len() {
        return Err(Refusal::Full);
    }
    if let Some(fault) = first_fault(keys) {
        return Err(Refusal::from(fault));
    }
    load_rising(capacity, keys, payloads, nodes, slots, used)
}
