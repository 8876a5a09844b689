// The memory: node records and slots in lent words, read under the damage rules and written. The words are in docs/MEMORY.md.
#![tactic(auto)]

ghost use Rattle.std.specs.Prelude.{◌≡◌, ◌+◌, ◌*◌, ◌^◌, ◌<◌, ◌≤◌, length, replicate};
ghost use Rattle.laws.specs.Keys.{key_bound};
ghost use Rattle.model.specs.Slots.{InRange};
ghost use Rattle.pool.specs.Memory.{records_in, kind_unit};
ghost use Rattle.pool.specs.Reading.{node_at, slot_at};
ghost use Rattle.pool.specs.Writing.{put_node, put_data, put_child, put_null, zero_record, zero_run};

use laws::Key;
use model::Model;

// A node as its record has it: its model, and the first slot of its run. One that node_at calls good has its model in range
// and its run of model.l slots within the pool.
#[derive(Clone, Copy, Debug, PartialEq, Eq)]
pub struct Node {
    pub model: Model,
    pub start: usize,
}

impl Node {
    pub const RECORD_WORDS: usize = 8;

    pub const SLOT_WORDS: usize = 2;
}

// The rules that what is read has to keep; the first one broken is told.
#[derive(Clone, Copy, Debug, PartialEq, Eq)]
pub enum Rule {
    UnusedRecord,
    RunOutside,
    ModelOutOfRange,
    UnknownKind,
    MisplacedKey,
    PathTooLong,
}

// What a slot holds: nothing, a key, or the record of a child. A key and a record are below UNIT.
#[derive(Clone, Copy, Debug, PartialEq, Eq)]
pub enum Slot {
    Null,
    Data(u64),
    Child(usize),
}

impl Slot {
    pub const UNIT: u64 = Key::BOUND;

    pub const NULL: u64 = 0;

    pub const DATA: u64 = 1;

    pub const NODE: u64 = 2;
}

// The pools lent for reading: the words of the records, of the slots and of the map.
#[derive(Clone, Copy)]
pub struct Pools<'a> {
    pub nodes: &'a [u64],
    pub slots: &'a [u64],
    pub used: &'a [u64],
}

impl<'a> Pools<'a> {
    ghost use Rattle.pool.specs.Pools.{memory_of};

    // How many records the pools have.
    pub fn records(self) -> usize
        ensures { result ≡ records_in self.entry.nodes.now }
    {
        self.nodes.len() / Node::RECORD_WORDS
    }

    // The node of record r, or the first rule that it breaks, whatever the memory holds.
    pub fn node_at(self, r: usize) -> Result<Node, Rule>
        ensures { result ≡ node_at (memory_of self.entry) r }
    {
        let nodes = self.nodes;
        if nodes.len() / Node::RECORD_WORDS <= r {
            return Err(Rule::UnusedRecord);
        }
        if !marks::is_used(self.used, r) {
            return Err(Rule::UnusedRecord);
        }
        let at = r * Node::RECORD_WORDS;
        let lo = nodes[at];
        let w = nodes[at + 1];
        let l = nodes[at + 2];
        let start = nodes[at + 3];
        let count = (self.slots.len() / Node::SLOT_WORDS) as u64;
        if count < l {
            return Err(Rule::RunOutside);
        }
        if count - l < start {
            return Err(Rule::RunOutside);
        }
        let model = Model { lo, w, l };
        if !model.is_in_range() {
            return Err(Rule::ModelOutOfRange);
        }
        Ok(Node {
            model,
            start: start as usize,
        })
    }

    // What slot j of a node holds, or the first rule that it breaks.
    pub fn slot_at(self, n: Node, j: usize) -> Result<Slot, Rule>
        requires j_in_bounds { (n.start + j) * 2 < length self.slots.now }
        requires in_range { InRange n.model }
        ensures { result ≡ slot_at self.entry.slots.now n j }
    {
        let at = n.start + j;
        let slots = self.slots;
        let word = slots[at * Node::SLOT_WORDS];
        let kind = word / Slot::UNIT;
        let value = word % Slot::UNIT;
        if kind == Slot::NULL {
            return Ok(Slot::Null);
        }
        if kind == Slot::DATA {
            let m = n.model;
            if model::slot_of(m, value) == j as u64 {
                return Ok(Slot::Data(value));
            }
            return Err(Rule::MisplacedKey);
        }
        if kind == Slot::NODE {
            return Ok(Slot::Child(value as usize));
        }
        Err(Rule::UnknownKind)
    }
}

// A new node's record: elements and built are the count of its keys, and there were no conflicts.
pub fn put_node(nodes: &mut [u64], r: usize, n: Node, count: u64)
    requires { r * 8 + 7 < length nodes.old }
    ensures { nodes.new ≡ put_node nodes.old r n count }
{
    let at = r * Node::RECORD_WORDS;
    let m = n.model;
    let words = [m.lo, m.w, m.l, n.start as u64, count, count, 0, 0];
    nodes[at..at + Node::RECORD_WORDS].copy_from_slice(&words);
}

// Slot q holds a key and its payload.
pub fn put_data(slots: &mut [u64], q: usize, key: u64, payload: u64)
    requires q_in_bounds { q * 2 + 1 < length slots.old }
    requires key_lt_key_bound { key < key_bound }
    ensures { slots.new ≡ put_data slots.old q key payload }
{
    let at = q * Node::SLOT_WORDS;
    slots[at] = Slot::DATA * Slot::UNIT + key;
    slots[at + 1] = payload;
}

// Slot q leads to the record of a child.
pub fn put_child(slots: &mut [u64], q: usize, child: usize)
    requires q_in_bounds { q * 2 + 1 < length slots.old }
    requires child_lt_kind_unit { child < kind_unit }
    ensures { slots.new ≡ put_child slots.old q child }
{
    let at = q * Node::SLOT_WORDS;
    slots[at] = Slot::NODE * Slot::UNIT + child as u64;
    slots[at + 1] = 0;
}

// Slot q holds nothing: both its words are 0.
pub fn put_null(slots: &mut [u64], q: usize)
    requires { q * 2 + 1 < length slots.old }
    ensures { slots.new ≡ put_null slots.old q }
{
    let at = q * Node::SLOT_WORDS;
    slots[at] = Slot::NULL;
    slots[at + 1] = Slot::NULL;
}

// An unused record is all zeros.
pub fn zero_record(nodes: &mut [u64], r: usize)
    requires { r * 8 + 7 < length nodes.old }
    ensures { nodes.new ≡ zero_record nodes.old r }
{
    let at = r * Node::RECORD_WORDS;
    nodes[at..at + Node::RECORD_WORDS].fill(0);
}

// Unused slots are all zeros: the l of them from start on.
pub fn zero_run(slots: &mut [u64], start: usize, l: usize)
    requires { (start + l) * 2 ≤ length slots.old }
    ensures { slots.new ≡ zero_run slots.old start l }
{
    let first = start * Node::SLOT_WORDS;
    let end = (start + l) * Node::SLOT_WORDS;
    slots[first..end].fill(0);
}

// A whole pool of zeros.
pub fn zero_all(words: &mut [u64])
    ensures { words.new ≡ replicate (length words.old) 0 }
{
    words.fill(0);
}
