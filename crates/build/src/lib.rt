// Building a tree over rising keys into lent memory.
#![tactic(auto)]

pub mod release;
pub mod room;
pub mod sizes;

ghost use Rattle.std.specs.Prelude.{◌≡◌, ◌+◌, ◌<◌, ◌≤◌, length};
ghost use Rattle.laws.specs.Keys.{Rising};
ghost use Rattle.model.specs.Choice.{most_keys};
ghost use Rattle.model.specs.Slots.{InRange};
ghost use Rattle.pool.specs.Memory.{mem, records_in, slots_in};
ghost use Rattle.build.specs.Building.{build, place_node};
ghost use Rattle.build.specs.Hints.{Sized, Hinted, Builds};
ghost use Rattle.build.specs.Runs.{place_for, Begins, RunEnd, Groups};

use model::Model;
use pool::Node;

// Where a search for places may start: every record before `record` and every slot before `slot` is used.
#[derive(Clone, Copy, Debug, PartialEq, Eq)]
pub struct Hint {
    pub record: usize,
    pub slot: usize,
}

// A build's end: its top node's record, if there was room, and where the next search may start.
#[derive(Clone, Copy, Debug, PartialEq, Eq)]
pub struct Grown {
    pub built: Option<usize>,
    pub hint: Hint,
}

// A node's places: its record, its model with the first slot of its run, and where the next search may start once it has them.
#[derive(Clone, Copy)]
struct Place {
    record: usize,
    node: Node,
    next: Hint,
}

// The lowest unused record and the lowest run for a node with the model m.
fn find_place(nodes: &[u64], slots: &[u64], used: &[u64], m: Model, hint: Hint) -> Option<Place>
    requires sized { Sized (mem nodes.now slots.now used.now) }
    requires hinted { Hinted (mem nodes.now slots.now used.now) hint }
    requires in_range { InRange m }
    ensures { result ≡ place_for (mem nodes.now slots.now used.now) m }
{
    let records = nodes.len() / Node::RECORD_WORDS;
    let count = slots.len() / Node::SLOT_WORDS;
    let record = marks::first_unused(used, 0, records, hint.record)?;
    let first = marks::first_unused(used, records, count, hint.slot)?;
    let start = marks::lowest_run(used, records, count, m.l as usize, first)?;
    Some(Place {
        record,
        node: Node { model: m, start },
        next: Hint {
            record: record + 1,
            slot: first,
        },
    })
}

// A new node's record, its slots all NULL, and its places marked.
fn place_node(nodes: &mut [u64], slots: &mut [u64], used: &mut [u64], r: usize, n: Node, count: u64)
    requires sized { Sized (mem nodes.old slots.old used.old) }
    requires r_bound { r < records_in nodes.old }
    requires l_bound { n.start + n.model.l ≤ slots_in slots.old }
    ensures { mem nodes.new slots.new used.new ≡ place_node (mem nodes.old slots.old used.old) r n count }
{
    let p = nodes.len() / Node::RECORD_WORDS + n.start;
    let m = n.model;
    let l = m.l as usize;
    pool::put_node(nodes, r, n, count);
    pool::zero_run(slots, n.start, l);
    marks::mark(used, r);
    marks::mark_run(used, p, l);
}

// A node over the keys takes its places: parent before children.
fn begin_node(
    keys: &[u64],
    nodes: &mut [u64],
    slots: &mut [u64],
    used: &mut [u64],
    hint: Hint,
) -> Option<Place>
    requires rising { Rising keys.now }
    requires keys_len_bound { length keys.now ≤ most_keys }
    requires sized { Sized (mem nodes.old slots.old used.old) }
    requires hinted { Hinted (mem nodes.old slots.old used.old) hint }
    ensures { Begins keys.now (mem nodes.old slots.old used.old) (mem nodes.new slots.new used.new) result }
{
    let c = model::model_of(keys);
    let m = c.model;
    let place = find_place(nodes, slots, used, m, hint)?;
    place_node(
        nodes,
        slots,
        used,
        place.record,
        place.node,
        keys.len() as u64,
    );
    Some(place)
}

// The end of the run of keys from a on that share a slot.
fn run_end(keys: &[u64], a: usize, m: Model) -> usize
    requires rising { Rising keys.now }
    requires in_range { InRange m }
    requires a_in_bounds { a < length keys.now }
    ensures { RunEnd m keys.now a result }
{
    let s = model::slot_of(m, keys[a]);
    for b in a + 1..keys.len() {
        if model::slot_of(m, keys[b]) != s {
            return b;
        }
    }
    keys.len()
}

// The child over the keys of one slot, and slot q that leads to it.
#[cycle(build_group_build_node)]
fn build_group(
    keys: &[u64],
    payloads: &[u64],
    nodes: &mut [u64],
    slots: &mut [u64],
    used: &mut [u64],
    q: usize,
    hint: Hint,
    fuel: usize,
) -> Grown
    requires rising { Rising keys.now }
    requires payloads_len { length payloads.now ≡ length keys.now }
    requires keys_len_bound { length keys.now ≤ most_keys }
    requires sized { Sized (mem nodes.old slots.old used.old) }
    requires hinted { Hinted (mem nodes.old slots.old used.old) hint }
    requires q_bound { q < slots_in slots.old }
    ensures { Groups (build fuel) q keys.now payloads.now (mem nodes.old slots.old used.old) (mem nodes.new slots.new used.new) result }
{
    let g = build_node(keys, payloads, nodes, slots, used, hint, fuel);
    let built = g.built;
    if let Some(child) = built {
        pool::put_child(slots, q, child);
    }
    g
}

// The tree over the keys, of at most `fuel` levels. Where its levels end it answers that there is no room; with the 24 levels of a path,
// which every caller allows, they never do: H(n) is at most 9 (proofs/Heights, `build_enough`).
#[cycle(build_group_build_node)]
pub fn build_node(
    keys: &[u64],
    payloads: &[u64],
    nodes: &mut [u64],
    slots: &mut [u64],
    used: &mut [u64],
    hint: Hint,
    fuel: usize,
) -> Grown
    requires rising { Rising keys.now }
    requires payloads_len { length payloads.now ≡ length keys.now }
    requires keys_len_bound { length keys.now ≤ most_keys }
    requires sized { Sized (mem nodes.old slots.old used.old) }
    requires hinted { Hinted (mem nodes.old slots.old used.old) hint }
    ensures { Builds fuel keys.now payloads.now (mem nodes.old slots.old used.old) (mem nodes.new slots.new used.new) result }
{
    if fuel < 1 {
        return Grown { built: None, hint };
    }
    let Some(place) = begin_node(keys, nodes, slots, used, hint) else {
        return Grown { built: None, hint };
    };
    let record = place.record;
    let node = place.node;
    let m = node.model;
    let mut next = place.next;
    let mut a = 0;
    // A turn takes a whole run of keys, so no range counts the turns.
    while a < keys.len() {
        let b = run_end(keys, a, m);
        let k = keys[a];
        let q = node.start + model::slot_of(m, k) as usize;
        if b - a == 1 {
            pool::put_data(slots, q, k, payloads[a]);
        } else {
            let g = build_group(
                &keys[a..b],
                &payloads[a..b],
                nodes,
                slots,
                used,
                q,
                next,
                fuel - 1,
            );
            let built = g.built;
            let Some(_) = built else {
                return g;
            };
            next = g.hint;
        }
        a = b;
    }
    Grown {
        built: Some(record),
        hint: next,
    }
}
