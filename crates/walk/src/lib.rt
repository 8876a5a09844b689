// The two walks: following one key, and reading in slot order.
#![tactic(auto)]

ghost use Rattle.std.specs.Prelude.{◌≡◌, ◌+◌, ◌<◌, ◌≤◌, []};
ghost use Rattle.laws.specs.Keys.{key_bound};
ghost use Rattle.model.specs.Slots.{InRange};
ghost use Rattle.pool.specs.Memory.{slots_in};
ghost use Rattle.pool.specs.Pools.{memory_of};
ghost use Rattle.walk.specs.Walks.{longest_path, path_of, step_good, step_of, follow_of, trace_of};

use pool::{Node, Pools, Rule, Slot};

pub mod reading;

// Where a key's path ends: at a NULL slot, at a DATA slot with its key, or at a broken rule. Damage is one of the ends and no Err, since
// the nodes visited are told with it as well.
#[derive(Clone, Copy, Debug, PartialEq, Eq)]
pub enum End {
    Empty(usize),
    Key(usize, u64),
    Damage(Rule),
}

// One node of a walk: down to a child, or the end.
#[derive(Clone, Copy, Debug, PartialEq, Eq)]
pub enum Step {
    Down(usize),
    Stop(End),
}

// The nodes on a key's path, the root first.
#[derive(Clone, Copy, Debug, PartialEq, Eq)]
pub struct Path {
    pub nodes: [usize; Path::LONGEST],
    pub len: usize,
}

impl Path {
    pub const LONGEST: usize = 24;

    // Nobody calls it: its contract says that the constant is that of the definitions.
    pub fn limits()
        ensures { Path.LONGEST ≡ longest_path }
    {}

    pub fn new() -> Self
        ensures { result ≡ path_of [] }
    {
        Self {
            nodes: [0usize; Path::LONGEST],
            len: 0,
        }
    }
}

// A walk's end, with how many nodes were visited.
#[derive(Clone, Copy, Debug, PartialEq, Eq)]
pub struct Followed {
    pub end: End,
    pub visits: usize,
}

// A walk's end, with the nodes on the way.
#[derive(Clone, Copy, Debug, PartialEq, Eq)]
pub struct Traced {
    pub end: End,
    pub path: Path,
}

// What a reading takes in each node: the slots from u's to v's, or all.
#[derive(Clone, Copy, Debug, PartialEq, Eq)]
pub enum Span {
    Between(u64, u64),
    Whole,
}

// What a reading meets: a node, an element with its slot, a broken rule; or its end. Damage is met in its turn, so it is no Err.
#[derive(Clone, Copy, Debug, PartialEq, Eq)]
pub enum Event {
    Enter(usize, Node),
    Element(usize, u64),
    Damage(Rule),
    End,
}

// Where a reading stands: the node it reads, its next slot and the one past its last, and how many nodes lie above it within
// the reading. Their records and next slots lie in two lent lists of 24, highest first.
#[derive(Clone, Copy, Debug, PartialEq, Eq)]
pub struct Cursor {
    pub record: usize,
    pub node: Node,
    pub at: usize,
    pub end: usize,
    pub depth: usize,
}

// One step of a reading: what was met, and where it stands then.
#[derive(Clone, Copy, Debug, PartialEq, Eq)]
pub struct Moved {
    pub event: Event,
    pub cursor: Cursor,
}

// The rules of a whole reading: how many nodes and keys it may still meet, the least key that still rises, and in a rebuild the
// key that may not be met and that every run is wholly marked.
#[derive(Clone, Copy, Debug, PartialEq, Eq)]
pub struct Rules {
    pub nodes: usize,
    pub keys: usize,
    pub least: u64,
    pub rebuild: bool,
    pub fresh: u64,
}

// What a reading under the rules meets: an element with its slot, a broken rule, or its end; each caller asks for all three.
#[derive(Clone, Copy, Debug, PartialEq, Eq)]
pub enum Item {
    Held(usize, u64),
    Broken,
    End,
}

// One item of a reading: what was met, the rules after it, and where the reading stands then.
#[derive(Clone, Copy, Debug, PartialEq, Eq)]
pub struct Next {
    pub item: Item,
    pub rules: Rules,
    pub cursor: Cursor,
}

// What the key's slot in a good node says. The key sought, in its own slot, belongs there: no second division.
fn step_in(pools: Pools, n: Node, key: u64) -> Step
    requires key_lt_key_bound { key < key_bound }
    requires in_range { InRange n.model }
    requires l_bound { n.start + n.model.l ≤ slots_in pools.slots.now }
    ensures { result ≡ step_good pools.entry.slots.now n key }
{
    let m = n.model;
    let j = model::slot_of(m, key) as usize;
    let q = n.start + j;
    let slots = pools.slots;
    if slots[q * Node::SLOT_WORDS] == Slot::UNIT + key {
        return Step::Stop(End::Key(q, key));
    }
    match pools.slot_at(n, j) {
        Ok(Slot::Null) => Step::Stop(End::Empty(q)),
        Ok(Slot::Data(k)) => Step::Stop(End::Key(q, k)),
        Ok(Slot::Child(c)) => Step::Down(c),
        Err(rule) => Step::Stop(End::Damage(rule)),
    }
}

// One node of a walk.
pub fn step_at(pools: Pools, r: usize, key: u64) -> Step
    requires { key < key_bound }
    ensures { result ≡ step_of (memory_of pools.entry) r key }
{
    match pools.node_at(r) {
        Ok(n) => step_in(pools, n, key),
        Err(rule) => Step::Stop(End::Damage(rule)),
    }
}

// From the root along a key's slots to its end, counting the nodes.
pub fn follow(pools: Pools, root: usize, key: u64) -> Followed
    requires { key < key_bound }
    ensures { result ≡ follow_of (memory_of pools.entry) root key }
{
    let mut r = root;
    let mut visits = 0;
    while visits < Path::LONGEST {
        visits += 1;
        match step_at(pools, r, key) {
            Step::Down(c) => {
                r = c;
            }
            Step::Stop(end) => {
                return Followed { end, visits };
            }
        }
    }
    Followed {
        end: End::Damage(Rule::PathTooLong),
        visits,
    }
}

// The same with the nodes on the way, for the call that raises their counters. It does not call step_at: a function with one caller is
// put in its place, and a lookup is the shorter for it.
pub fn trace(pools: Pools, root: usize, key: u64) -> Traced
    requires { key < key_bound }
    ensures { result ≡ trace_of (memory_of pools.entry) root key }
{
    let mut path = Path::new();
    let mut r = root;
    while path.len < Path::LONGEST {
        let at = path.len;
        path.nodes[at] = r;
        path.len = at + 1;
        match pools.node_at(r) {
            Err(rule) => {
                return Traced {
                    end: End::Damage(rule),
                    path,
                };
            }
            Ok(n) => {
                match step_in(pools, n, key) {
                    Step::Down(c) => {
                        r = c;
                    }
                    Step::Stop(end) => {
                        return Traced { end, path };
                    }
                }
            }
        }
    }
    Traced {
        end: End::Damage(Rule::PathTooLong),
        path,
    }
}
