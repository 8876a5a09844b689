// What a build over rising keys needs, found without storing anything in the pools: how many nodes and slots, how deep, and the
// L of each node in the order in which the nodes take their places.
ghost use Rattle.std.specs.Prelude.{◌≡◌, ◌+◌, ◌^◌, ◌≤◌, length, set};
ghost use Rattle.laws.specs.Keys.{Rising};
ghost use Rattle.model.specs.Choice.{most_keys};
ghost use Rattle.build.specs.Counting.{Counts};

use crate::run_end;
use model::model_of;

// What a build takes: nodes, slots, and nodes on its longest path.
#[derive(Clone, Copy, Debug, PartialEq, Eq)]
pub struct Needs {
    pub nodes: usize,
    pub slots: usize,
    pub depth: usize,
}

// A store past the list's end is left out.
fn put(list: &mut [u64], i: usize, v: u64)
    ensures { list.new ≡ set list.old i v }
{
    if i < list.len() {
        list[i] = v;
    }
}

// What the tree over the keys, of at most `fuel` levels, takes. Each L goes into the list from place `at` on, as far as the list
// goes: the node's own, then those of the children in slot order, each child over the part of the keys that share its slot. A
// turn passes the keys of one slot, however many, which no range steps by.
pub fn sizes(keys: &[u64], list: &mut [u64], at: usize, fuel: usize) -> Needs
    requires rising { Rising keys.now }
    requires keys_len_bound { length keys.now ≤ most_keys }
    requires keys_bound { at + length keys.now ≤ 2 ^ 33 }
    ensures { Counts fuel keys.now at list.old list.new result }
{
    if fuel < 1 {
        return Needs {
            nodes: 0,
            slots: 0,
            depth: 0,
        };
    }
    let m = model_of(keys).model;
    put(list, at, m.l);
    let mut nodes = 1;
    let mut slots = m.l as usize;
    let mut below = 0usize;
    let mut a = 0;
    // A turn takes a whole run of keys, so no range counts the turns.
    while a < keys.len() {
        let b = run_end(keys, a, m);
        if 1 < b - a {
            let child = sizes(&keys[a..b], list, at + nodes, fuel - 1);
            nodes += child.nodes;
            slots += child.slots;
            below = below.max(child.depth);
        }
        a = b;
    }
    Needs {
        nodes,
        slots,
        depth: below + 1,
    }
}
