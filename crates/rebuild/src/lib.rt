// Rebuilding a subtree: a tree over its live keys and a new one takes the places that it finds, and only then is the old one
// released.
#![tactic(auto)]

pub mod pairs;

ghost use Rattle.std.specs.Prelude.{◌≡◌, ◌<◌, ◌≤◌, length};
ghost use Rattle.laws.specs.Keys.{key_bound};
ghost use Rattle.pool.specs.Memory.{mem, records_in};
ghost use Rattle.pool.specs.Pools.{memory_of};
ghost use Rattle.rebuild.specs.Judging.{Judgeable, Sound, Judges, Gatherable, Gathers, Rebuildable};
ghost use Rattle.rebuild.specs.Rebuilding.{rebuild_rules, sound_below, rebuild_of, rebuilt, scratch};
ghost use Rattle.build.specs.Building.{out};
ghost use Rattle.walk.specs.Walks.{longest_path};

use build::Hint;
use laws::Key;
use pool::{Node, Pools};
use walk::reading::Reading;
use walk::{Path, Rules, Span};

// The rules of a rebuild's reading: the new key counts among those of the capacity, and is not met.
fn rules_of(pools: Pools, capacity: usize, key: u64) -> Rules
    requires { 1 ≤ capacity }
    ensures { result ≡ rebuild_rules (records_in pools.entry.nodes.now) capacity key }
{
    Rules {
        nodes: pools.records(),
        keys: capacity - 1,
        least: 0,
        rebuild: true,
        fresh: key,
    }
}

// Is no rule broken in the subtree at record `top`? Nothing is written.
pub fn is_sound(capacity: usize, key: u64, above: usize, top: usize, pools: Pools) -> bool
    requires { (1 ≤ capacity) × (above < longest_path) }
    ensures { result ≡ sound_below capacity key above top (memory_of pools.entry) }
{
    let rules = rules_of(pools, capacity, key);
    let reading = Reading {
        pools,
        span: Span::Whole,
        above,
    };
    let counted = listing::count(&reading, top, rules, 0, Key::BOUND - 1, capacity);
    counted.is_ok()
}

// The live keys of the subtree at record `top` with the new one in its place, and their payloads: how many.
fn gather(
    capacity: usize,
    key: u64,
    payload: u64,
    above: usize,
    top: usize,
    pools: Pools,
    keys: &mut [u64],
    payloads: &mut [u64],
) -> usize
    requires { Gatherable capacity key above keys.old payloads.old }
    ensures { Gathers capacity key payload above top (memory_of pools.entry)
        keys.old payloads.old keys.new payloads.new result }
{
    let rules = rules_of(pools, capacity, key);
    let reading = Reading {
        pools,
        span: Span::Whole,
        above,
    };
    let lower = listing::write(&reading, top, rules, 0, key, capacity, keys, payloads, 0);
    keys[lower] = key;
    payloads[lower] = payload;
    listing::write(
        &reading,
        top,
        rules,
        key,
        Key::BOUND - 1,
        capacity,
        keys,
        payloads,
        lower + 1,
    )
}

// The tree over the keys in place of the one at record `top`, whose path has `above` nodes before it; without room, or where a
// path would get too long, nothing is stored. Room is judged in the list of places.
fn build_in_place(
    keys: &[u64],
    payloads: &[u64],
    above: usize,
    top: usize,
    nodes: &mut [u64],
    slots: &mut [u64],
    used: &mut [u64],
    places: &mut [u64],
) -> Option<usize>
    requires judgeable { Judgeable keys.now payloads.now (mem nodes.old slots.old used.old) places.old }
    requires above_le_longest_path { above ≤ longest_path }
    requires sound { Sound above top (mem nodes.old slots.old used.old) }
    ensures { Judges above top keys.now payloads.now (mem nodes.old slots.old used.old)
        places.old (mem nodes.new slots.new used.new) places.new result }
{
    let records = nodes.len() / Node::RECORD_WORDS;
    let count = slots.len() / Node::SLOT_WORDS;
    let needs = build::sizes::sizes(keys, places, 0, Path::LONGEST);
    if !build::room::has_room(used, records, count, places, needs.nodes) {
        return None;
    }
    if Path::LONGEST < above + needs.depth {
        return None;
    }
    let start = Hint { record: 0, slot: 0 };
    let g = build::build_node(keys, payloads, nodes, slots, used, start, Path::LONGEST);
    build::release::release(nodes, slots, used, top, Path::LONGEST);
    g.built
}

// The subtree at record `top` over its live keys and the new one, if there is room and no path gets too long. Scratch is used and left
// with zeros.
pub fn rebuild(
    capacity: usize,
    key: u64,
    payload: u64,
    above: usize,
    top: usize,
    nodes: &mut [u64],
    slots: &mut [u64],
    used: &mut [u64],
    keys: &mut [u64],
    payloads: &mut [u64],
    places: &mut [u64],
) -> Option<usize>
    requires { Rebuildable capacity key above top (mem nodes.old slots.old used.old) (scratch keys.old payloads.old places.old) }
    ensures { rebuilt (out result (mem nodes.new slots.new used.new)) (scratch keys.new payloads.new places.new)
        ≡ rebuild_of capacity key payload above top (mem nodes.old slots.old used.old)
        (scratch keys.old payloads.old places.old) }
{
    let pools = Pools { nodes, slots, used };
    let n = gather(capacity, key, payload, above, top, pools, keys, payloads);
    let built = build_in_place(
        &keys[0..n],
        &payloads[0..n],
        above,
        top,
        nodes,
        slots,
        used,
        places,
    );
    build::room::wipe(keys, n);
    build::room::wipe(payloads, n);
    build::room::wipe(places, n);
    built
}
