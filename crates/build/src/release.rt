// Releasing a subtree: children first, each in slot order, then the node's own run and record are zeroed and unmarked. A record
// that does not read as a node is passed over, whatever the memory holds.
ghost use Rattle.std.specs.Prelude.{◌≡◌, ◌+◌, ◌<◌, ◌≤◌};
ghost use Rattle.pool.specs.Memory.{mem, records_in, slots_in};
ghost use Rattle.build.specs.Hints.{Sized};
ghost use Rattle.build.specs.Releasing.{drop_node, release};

use pool::{Node, Pools, Slot};

// The node n of record r goes: zeros for its run and its record, and their marks taken away.
fn drop_node(nodes: &mut [u64], slots: &mut [u64], used: &mut [u64], r: usize, n: Node)
    requires sized { Sized (mem nodes.old slots.old used.old) }
    requires r_bound { r < records_in nodes.old }
    requires l_bound { n.start + n.model.l ≤ slots_in slots.old }
    ensures { mem nodes.new slots.new used.new ≡ drop_node (mem nodes.old slots.old used.old) r n }
{
    let p = nodes.len() / Node::RECORD_WORDS + n.start;
    let m = n.model;
    let l = m.l as usize;
    pool::zero_run(slots, n.start, l);
    pool::zero_record(nodes, r);
    marks::clear_run(used, p, l);
    marks::clear(used, r);
}

// The subtree at record r, of at most `fuel` levels. The node is read once; each slot is read when its turn comes.
pub fn release(nodes: &mut [u64], slots: &mut [u64], used: &mut [u64], r: usize, fuel: usize)
    requires { Sized (mem nodes.old slots.old used.old) }
    ensures { mem nodes.new slots.new used.new ≡ release fuel (mem nodes.old slots.old used.old) r }
{
    if fuel < 1 {
        return;
    }
    let pools = Pools { nodes, slots, used };
    let Ok(n) = pools.node_at(r) else {
        return;
    };
    let m = n.model;
    let l = m.l as usize;
    for j in 0..l {
        let pools = Pools { nodes, slots, used };
        let Ok(slot) = pools.slot_at(n, j) else {
            continue;
        };
        let Slot::Child(child) = slot else {
            continue;
        };
        release(nodes, slots, used, child, fuel - 1);
    }
    drop_node(nodes, slots, used, r, n);
}
