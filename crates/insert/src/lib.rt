// Insert: a key put in with its payload, and the due node nearest the root tidied.
#![tactic(auto)]

ghost use Rattle.std.specs.Prelude.{true, ◌≡◌, ◌^◌, ◌<◌, ◌≤◌, take, is_some, unwrap_or};
ghost use Rattle.counters.specs.Counters.{OnPath};
ghost use Rattle.insert.specs.Inserting.{one_more_at, tidying_number, insertion, inserted, scratch_fits, settled, slot_above, hung, sound_due, standing, replaced, tidy_of, settle_of, whole_of, insert_of};
ghost use Rattle.insert.specs.Entries.{fresh_of};
ghost use Rattle.insert.specs.Steps.{Ready, Sized, GoodPath, Ends, Stores};
ghost use Rattle.laws.specs.Keys.{key_bound};
ghost use Rattle.pool.specs.Memory.{mem, slots_in};
ghost use Rattle.pool.specs.Pools.{memory_of};
ghost use Rattle.rebuild.specs.Judging.{Pooled};
ghost use Rattle.rebuild.specs.Rebuilding.{Scratch, scratch};

use laws::{Key, Refusal};
use pool::{Node, Pools};
use store::{Changing, Handle};
use walk::{End, Path};

// What an insert did about the due node nearest the root.
#[derive(Clone, Copy, Debug, PartialEq, Eq)]
pub enum Tidying {
    NotDue,
    Tidied,
    PutOff,
    WholeTree,
}

impl Tidying {
    // The number that the answer gives.
    pub fn number(self) -> usize
        ensures { result ≡ tidying_number self }
    {
        match self {
            Tidying::NotDue => 0,
            Tidying::Tidied => 1,
            Tidying::PutOff => 2,
            Tidying::WholeTree => 3,
        }
    }
}

// What an insert answers that is done: whether its slot held another key, and the tidying.
#[derive(Clone, Copy, Debug, PartialEq, Eq)]
pub struct Inserted {
    pub conflict: bool,
    pub tidying: Tidying,
}

// A key that is neither held nor too many, with its payload, the nodes on its path and the slot at its end, where in a conflict
// another key stands.
#[derive(Clone, Copy)]
struct Entry {
    key: u64,
    payload: u64,
    path: Path,
    slot: usize,
    other: Option<u64>,
}

// Is scratch as long as the capacity, and are its lists equally long?
#[tactic(auto, unfolding(crate::specs::Inserting::scratch_fits))]
fn scratch_fits(capacity: usize, keys: &[u64], payloads: &[u64], places: &[u64]) -> bool
    ensures { result ≡ scratch_fits capacity (scratch keys.now payloads.now places.now) }
{
    capacity <= keys.len() && payloads.len() == keys.len() && places.len() == keys.len()
}

// Is no rule broken in the subtree to be rebuilt, at place `at` of the path, if there is one?
fn sound_due(capacity: usize, key: u64, path: Path, at: usize, pools: Pools) -> bool
    requires le_capacity { 1 ≤ capacity }
    requires sized { Sized path }
    ensures { result ≡ sound_due capacity key (take path.len path.nodes) at (memory_of pools.entry) }
{
    if path.len <= at {
        return true;
    }
    let top = path.nodes[at];
    rebuild::is_sound(capacity, key, at, top, pools)
}

// The slot that leads to the node at place `at` of the path; the root has none.
fn slot_above(key: u64, path: Path, at: usize, pools: Pools) -> usize
    requires key_lt_key_bound { key < key_bound }
    requires sized { Sized path × (at ≤ path.len) }
    requires good_path { GoodPath (memory_of pools) path }
    ensures { result ≡ slot_above pools.entry.nodes.now (take path.len path.nodes) key at }
{
    if at < 1 {
        return 0;
    }
    let r = path.nodes[at - 1];
    let Ok(n) = pools.node_at(r) else {
        return 0;
    };
    let m = n.model;
    n.start + model::slot_of(m, key) as usize
}

// The slot at the end of the path: the key, or after a conflict the two-key node.
fn settle_slot(conflict: bool, q: usize, key: u64, payload: u64, c: usize, slots: &mut [u64])
    requires q_bound { q < slots_in slots.old }
    requires key_lt_key_bound { (key < key_bound) × (c < 2 ^ 48) }
    ensures { slots.new ≡ settled conflict q key payload c slots.old }
{
    if conflict {
        pool::put_child(slots, q, c);
        return;
    }
    pool::put_data(slots, q, key, payload);
}

// The slot above leads to a new node; the root has no such slot.
fn hang(at: usize, q: usize, r: usize, slots: &mut [u64])
    requires { (1 ≤ at → q < slots_in slots.old) × (r < 2 ^ 48) }
    ensures { slots.new ≡ hung at q r slots.old }
{
    if at < 1 {
        return;
    }
    pool::put_child(slots, q, r);
}

// One key more, under a root that may be new.
fn one_more(h: Handle, root: usize) -> Handle
    requires { h.count < h.capacity }
    ensures { result ≡ one_more_at root h }
{
    h.with_root(root).with_count(h.count + 1)
}

fn done(h: Handle, root: usize, conflict: bool, tidying: Tidying) -> Changing<Inserted>
    requires { h.count < h.capacity }
    ensures { result ≡ record { answer = Ok (record { conflict = conflict; tidying = tidying }); handle = one_more_at root h } }
{
    Changing::new(Ok(Inserted { conflict, tidying }), one_more(h, root))
}

// The insert stands with its counters.
fn stand(
    h: Handle,
    entry: Entry,
    tidying: Tidying,
    c: usize,
    nodes: &mut [u64],
    slots: &mut [u64],
    used: &[u64],
) -> Changing<Inserted>
    requires count_lt_capacity { h.count < h.capacity }
    requires key_lt_key_bound { entry.key < key_bound }
    requires stores { Stores entry.slot c 0 0 entry.path (mem nodes.old slots.old used.now) }
    ensures { (s : Scratch) → insertion (inserted result.answer) result.handle (mem nodes.new slots.new used.now) s
        ≡ standing h (fresh_of entry) (tidying_number tidying) c (mem nodes.old slots.old used.now) s }
{
    let conflict = entry.other.is_some();
    settle_slot(conflict, entry.slot, entry.key, entry.payload, c, slots);
    counters::raise(nodes, entry.path, entry.path.len, conflict);
    done(h, h.root, conflict, tidying)
}

// The node at place `at` of the path is rebuilt, and r is the new one: zeroing, the slot above, counters of the nodes not released.
fn replace_at(
    h: Handle,
    entry: Entry,
    at: usize,
    above: usize,
    c: usize,
    r: usize,
    nodes: &mut [u64],
    slots: &mut [u64],
    used: &mut [u64],
) -> Changing<Inserted>
    requires count_lt_capacity { h.count < h.capacity }
    requires pooled { Pooled (mem nodes.old slots.old used.old) }
    requires stores { Stores entry.slot c at above entry.path (mem nodes.old slots.old used.old) }
    requires r_bound { r < 2 ^ 48 }
    ensures { (s : Scratch) → insertion (inserted result.answer) result.handle (mem nodes.new slots.new used.new) s
        ≡ replaced h (fresh_of entry) at above c r (mem nodes.old slots.old used.old) s }
{
    let conflict = entry.other.is_some();
    rebuild::pairs::drop_pair(conflict, c, nodes, slots, used);
    hang(at, above, r, slots);
    counters::raise(nodes, entry.path, at, conflict);
    if at < 1 {
        return done(h, r, conflict, Tidying::Tidied);
    }
    done(h, h.root, conflict, Tidying::Tidied)
}

// The due node is tidied, if there is one; a tidying without room is put off. The keys are read in the memory as it is here, which has the
// two-key node already.
fn tidy(
    h: Handle,
    entry: Entry,
    at: usize,
    above: usize,
    c: usize,
    nodes: &mut [u64],
    slots: &mut [u64],
    used: &mut [u64],
    keys: &mut [u64],
    payloads: &mut [u64],
    places: &mut [u64],
) -> Changing<Inserted>
    requires ready { Ready h entry.key (mem nodes.old slots.old used.old) (scratch keys.old payloads.old places.old) }
    requires stores { Stores entry.slot c at above entry.path (mem nodes.old slots.old used.old) }
    requires used_value { sound_due h.capacity entry.key (take entry.path.len entry.path.nodes) at (mem nodes.old slots.old used.old) ≡ true }
    ensures { insertion (inserted result.answer) result.handle (mem nodes.new slots.new used.new)
        (scratch keys.new payloads.new places.new)
        ≡ tidy_of h (fresh_of entry) at above c (mem nodes.old slots.old used.old)
        (mem nodes.old slots.old used.old) (scratch keys.old payloads.old places.old) }
{
    if entry.path.len <= at {
        return stand(h, entry, Tidying::NotDue, c, nodes, slots, used);
    }
    let top = entry.path.nodes[at];
    match rebuild::rebuild(
        h.capacity,
        entry.key,
        entry.payload,
        at,
        top,
        nodes,
        slots,
        used,
        keys,
        payloads,
        places,
    ) {
        Some(r) => replace_at(h, entry, at, above, c, r, nodes, slots, used),
        None => stand(h, entry, Tidying::PutOff, c, nodes, slots, used),
    }
}

// A key that is neither held nor too many: damage in the subtree to be rebuilt, then the two-key node's places, then the tidying.
fn settle(
    h: Handle,
    entry: Entry,
    nodes: &mut [u64],
    slots: &mut [u64],
    used: &mut [u64],
    keys: &mut [u64],
    payloads: &mut [u64],
    places: &mut [u64],
) -> Changing<Inserted>
    requires ready { Ready h entry.key (mem nodes.old slots.old used.old) (scratch keys.old payloads.old places.old) }
    requires ends { Ends entry.key entry.slot (is_some entry.other) (unwrap_or entry.other 0) entry.path (mem nodes.old slots.old used.old) }
    ensures { insertion (inserted result.answer) result.handle (mem nodes.new slots.new used.new)
        (scratch keys.new payloads.new places.new)
        ≡ settle_of h (fresh_of entry) (mem nodes.old slots.old used.old)
        (scratch keys.old payloads.old places.old) }
{
    let key = entry.key;
    let at = counters::due_at(nodes, entry.path, entry.other.is_some());
    let pools = Pools { nodes, slots, used };
    if !sound_due(h.capacity, key, entry.path, at, pools) {
        return Changing::new(Err(Refusal::Damage), h);
    }
    let above = slot_above(key, entry.path, at, pools);
    let held = slots[entry.slot * Node::SLOT_WORDS + 1];
    let Some(c) = rebuild::pairs::build_pair(
        key,
        entry.payload,
        entry.other,
        held,
        nodes,
        slots,
        used,
    ) else {
        return Changing::new(Err(Refusal::NoRoom), h);
    };
    tidy(
        h, entry, at, above, c, nodes, slots, used, keys, payloads, places,
    )
}

// A conflict at the end of a path of 24 nodes: the whole tree is built afresh over all keys and the new one.
fn rebuild_whole(
    h: Handle,
    key: u64,
    payload: u64,
    nodes: &mut [u64],
    slots: &mut [u64],
    used: &mut [u64],
    keys: &mut [u64],
    payloads: &mut [u64],
    places: &mut [u64],
) -> Changing<Inserted>
    requires { Ready h key (mem nodes.old slots.old used.old) (scratch keys.old payloads.old places.old) }
    ensures { insertion (inserted result.answer) result.handle (mem nodes.new slots.new used.new)
        (scratch keys.new payloads.new places.new)
        ≡ whole_of h key payload (mem nodes.old slots.old used.old)
        (scratch keys.old payloads.old places.old) }
{
    if !rebuild::is_sound(h.capacity, key, 0, h.root, Pools { nodes, slots, used }) {
        return Changing::new(Err(Refusal::Damage), h);
    }
    match rebuild::rebuild(
        h.capacity, key, payload, 0, h.root, nodes, slots, used, keys, payloads, places,
    ) {
        Some(r) => done(h, r, true, Tidying::WholeTree),
        None => Changing::new(Err(Refusal::NoRoom), h),
    }
}

// A key put in with its payload.
pub fn insert(
    h: Handle,
    key: u64,
    payload: u64,
    nodes: &mut [u64],
    slots: &mut [u64],
    used: &mut [u64],
    keys: &mut [u64],
    payloads: &mut [u64],
    places: &mut [u64],
) -> Changing<Inserted>
    ensures { insertion (inserted result.answer) result.handle (mem nodes.new slots.new used.new)
        (scratch keys.new payloads.new places.new)
        ≡ insert_of h key payload (mem nodes.old slots.old used.old)
        (scratch keys.old payloads.old places.old) }
{
    let pools = Pools { nodes, slots, used };
    if !h.fits(pools) {
        return Changing::new(Err(Refusal::WrongSizes), h);
    }
    if !scratch_fits(h.capacity, keys, payloads, places) {
        return Changing::new(Err(Refusal::WrongSizes), h);
    }
    if Key::BOUND <= key {
        return Changing::new(Err(Refusal::OutOfRange), h);
    }
    let t = walk::trace(pools, h.root, key);
    let path = t.path;
    let end = t.end;
    match end {
        End::Damage(_rule) => Changing::new(Err(Refusal::Damage), h),
        End::Empty(q) => {
            if h.capacity <= h.count {
                return Changing::new(Err(Refusal::Full), h);
            }
            let entry = Entry {
                key,
                payload,
                path,
                slot: q,
                other: None,
            };
            settle(h, entry, nodes, slots, used, keys, payloads, places)
        }
        End::Key(q, k) => {
            if k == key {
                return Changing::new(Err(Refusal::Held), h);
            }
            if h.capacity <= h.count {
                return Changing::new(Err(Refusal::Full), h);
            }
            if Path::LONGEST <= path.len {
                return rebuild_whole(h, key, payload, nodes, slots, used, keys, payloads, places);
            }
            let entry = Entry {
                key,
                payload,
                path,
                slot: q,
                other: Some(k),
            };
            settle(h, entry, nodes, slots, used, keys, payloads, places)
        }
    }
}
