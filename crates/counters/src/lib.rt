// The counters of the nodes on a path: which node an insert makes due, and how they rise.
#![tactic(auto)]

ghost use Rattle.std.specs.Prelude.{◌≡◌, ◌<◌, ◌≤◌, take};
ghost use Rattle.pool.specs.Memory.{records_in};
ghost use Rattle.counters.specs.Counters.{one_more, raised_if, is_due, due_node, due_in, raise_node, raise, OnPath};

use model::Model;
use pool::Node;
use walk::Path;

// A node's counters, of any value.
#[derive(Clone, Copy)]
struct Counters {
    elements: u64,
    built: u64,
    conflicts: u64,
}

impl Counters {
    const STOP: u64 = 4294967295;

    const LEAST_DUE: u64 = 64;

    const GROWTH: u64 = 2;

    const CONFLICT_WEIGHT: u64 = 10;
}

fn one_more(x: u64) -> u64
    ensures { result ≡ one_more x }
{
    x.min(Counters::STOP - 1) + 1
}

fn raised_if(conflict: bool, x: u64) -> u64
    ensures { result ≡ raised_if conflict x }
{
    if conflict {
        return one_more(x);
    }
    x
}

// Twice built and ten times conflicts may not fit a word, so the counters are divided. Past the second test elements are above
// built.
fn is_due(n: Counters, l: u64) -> bool
    ensures { result ≡ is_due n.elements n.built n.conflicts l }
{
    if n.elements < Counters::LEAST_DUE {
        return false;
    }
    if n.elements / Counters::GROWTH < n.built {
        return false;
    }
    if n.conflicts <= (n.elements - n.built - 1) / Counters::CONFLICT_WEIGHT {
        return false;
    }
    l < Model::MOST_SLOTS
}

// Whether the insert makes the node of record r due.
fn due_node(nodes: &[u64], r: usize, conflict: bool) -> bool
    requires { r < records_in nodes.now }
    ensures { result ≡ due_node nodes.now conflict r }
{
    let at = r * Node::RECORD_WORDS;
    let l = nodes[at + 2];
    let elements = one_more(nodes[at + 4]);
    let built = nodes[at + 5];
    let conflicts = raised_if(conflict, nodes[at + 6]);
    let n = Counters {
        elements,
        built,
        conflicts,
    };
    is_due(n, l)
}

// The place in the path of the due node nearest the root; the path's length if the insert makes none due.
pub fn due_at(nodes: &[u64], path: Path, conflict: bool) -> usize
    requires { OnPath nodes.now path }
    ensures { result ≡ due_in nodes.now conflict (take path.len path.nodes) }
{
    path.nodes[..path.len]
        .iter()
        .position(|r| due_node(nodes, *r, conflict))
        .unwrap_or(path.len)
}

fn raise_node(nodes: &mut [u64], r: usize, conflict: bool)
    requires { r < records_in nodes.old }
    ensures { nodes.new ≡ raise_node nodes.old conflict r }
{
    let at = r * Node::RECORD_WORDS;
    nodes[at + 4] = one_more(nodes[at + 4]);
    if !conflict {
        return;
    }
    nodes[at + 6] = one_more(nodes[at + 6]);
}

// The first n nodes of the path, one insert on.
pub fn raise(nodes: &mut [u64], path: Path, n: usize, conflict: bool)
    requires n_le_len { n ≤ path.len }
    requires on_path { OnPath nodes.old path }
    ensures { nodes.new ≡ raise nodes.old conflict (take n path.nodes) }
{
    for r in &path.nodes[..n] {
        raise_node(nodes, *r, conflict);
    }
}
