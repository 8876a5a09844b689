// Reading a tree in slot order, one step after the other. A cursor stands in a node; the nodes above it within the reading lie in
// two lent lists of 24, the record of each and its next slot.
ghost use Rattle.std.specs.Prelude.{◌≡◌, ℕ, ◌+◌, ◌-◌, ◌^◌, ◌<◌, ◌≤◌, length, get_or, List};
ghost use Rattle.laws.specs.Keys.{key_bound};
ghost use Rattle.model.specs.Slots.{InRange};
ghost use Rattle.pool.specs.Memory.{slots_in, kind_word, kind_unit};
ghost use Rattle.pool.specs.Pools.{memory_of};
ghost use Rattle.pool.specs.Reading.{slot_at};
ghost use Rattle.walk.specs.Cursors.{remains, told};
ghost use Rattle.walk.specs.Events.{first_in, last_in, events_of};
ghost use Rattle.walk.specs.Items.{may_enter, may_hold, entered, holding};
ghost use Rattle.walk.specs.Moves.{SpanFits, Standing, Stands, Moves, Skipped, Finds, below};
ghost use Rattle.walk.specs.Walks.{longest_path};

use crate::{Cursor, Event, Item, Moved, Next, Path, Rules, Span};
use model::Model;
use pool::{Node, Pools, Rule, Slot};

// A reading: the pools, what it takes in each node, and how many nodes the path of the record where it begins has before it.
#[derive(Clone, Copy)]
pub struct Reading<'a> {
    pub pools: Pools<'a>,
    pub span: Span,
    pub above: usize,
}

// The first slot that a reading takes in a node, and the one past its last.
fn first_in(span: Span, m: Model) -> usize
    requires in_range { InRange m }
    requires span_fits { SpanFits span }
    ensures { result ≡ first_in span m }
{
    match span {
        Span::Between(u, _) => model::slot_of(m, u) as usize,
        Span::Whole => 0,
    }
}

fn past_last(span: Span, m: Model) -> usize
    requires in_range { InRange m }
    requires span_fits { SpanFits span }
    ensures { result ≡ last_in span m + 1 }
{
    match span {
        Span::Between(_, v) => model::slot_of(m, v) as usize + 1,
        Span::Whole => m.l as usize,
    }
}

// The first slot from `at` on that is not NULL, or the end.
fn skip_null(slots: &[u64], start: usize, at: usize, end: usize) -> usize
    requires { start + end ≤ slots_in slots.now }
    ensures { Skipped slots.now start at end result }
{
    let mut j = at;
    while j < end {
        if Slot::UNIT <= slots[(start + j) * Node::SLOT_WORDS] {
            return j;
        }
        j += 1;
    }
    j
}

// May one node more be entered: in a rebuild its run has to be wholly marked too.
fn may_enter(pools: Pools, rules: Rules, n: Node) -> bool
    requires { n.start + n.model.l ≤ slots_in pools.slots.now }
    ensures { result ≡ may_enter (memory_of pools.entry) rules n }
{
    if rules.nodes < 1 {
        return false;
    }
    if !rules.rebuild {
        return true;
    }
    let m = n.model;
    marks::is_full_run(pools.used, pools.records() + n.start, m.l as usize)
}

// May this key be read: it rises; in a rebuild one key more may be read too, and it is not the new one.
fn may_hold(rules: Rules, k: u64) -> bool
    ensures { result ≡ may_hold rules k }
{
    if k < rules.least {
        return false;
    }
    if !rules.rebuild {
        return true;
    }
    if rules.keys < 1 {
        return false;
    }
    k != rules.fresh
}

// The rules after a node, and after a key.
fn after_node(rules: Rules) -> Rules
    requires { 1 ≤ rules.nodes }
    ensures { result ≡ entered rules }
{
    let mut left = rules;
    left.nodes = rules.nodes - 1;
    left
}

fn after_key(rules: Rules, k: u64) -> Rules
    requires { k < key_bound }
    ensures { result ≡ holding rules k }
{
    let mut left = rules;
    left.least = k + 1;
    if rules.keys < 1 {
        return left;
    }
    left.keys = rules.keys - 1;
    left
}

impl<'a> Reading<'a> {
    // A reading of the tree below record r, whose path has `above` nodes before it: its first event.
    pub fn start(&self, r: usize) -> Moved
        requires span_fits { SpanFits self.now.span }
        requires above_lt_longest_path { self.now.above < longest_path }
        ensures { (rs js : List ℕ) → Moves self.now.span (memory_of self.now.pools) self.now.above
            (events_of self.now.span (memory_of self.now.pools) self.now.above r) result rs js }
    {
        match self.pools.node_at(r) {
            Ok(n) => {
                let m = n.model;
                let at = first_in(self.span, m);
                let end = past_last(self.span, m);
                Moved {
                    event: Event::Enter(r, n),
                    cursor: Cursor {
                        record: r,
                        node: n,
                        at,
                        end,
                        depth: 0,
                    },
                }
            }
            Err(rule) => Moved {
                event: Event::Damage(rule),
                cursor: Cursor {
                    record: r,
                    node: Node {
                        model: Model { lo: 0, w: 0, l: 0 },
                        start: 0,
                    },
                    at: 0,
                    end: 0,
                    depth: 0,
                },
            },
        }
    }

    // A NODE slot, whose child is r: down to the child if its record is good and the path has room for it.
    fn descend(&self, c: Cursor, r: usize, records: &mut [usize], places: &mut [usize]) -> Moved
        requires span_fits { SpanFits self.now.span }
        requires standing { Standing self.now.span (memory_of self.now.pools) self.now.above c }
        requires at_lt_end { c.at < c.end }
        requires at_value { slot_at self.now.pools.slots.now c.node c.at ≡ Ok (Slot.Child r) }
        requires longest_path_in_bounds { (longest_path ≤ length records.old) × (longest_path ≤ length places.old) }
        ensures { Moves self.now.span (memory_of self.now.pools) self.now.above
            (remains self.now.span (memory_of self.now.pools) (below self.now.above c) c records.old places.old)
            result records.new places.new }
    {
        let slot = c.at + 1;
        let mut past = c;
        past.at = slot;
        match self.pools.node_at(r) {
            Err(rule) => Moved {
                event: Event::Damage(rule),
                cursor: past,
            },
            Ok(n) => {
                let depth = c.depth;
                let above = self.above;
                if Path::LONGEST <= above + depth + 1 {
                    return Moved {
                        event: Event::Damage(Rule::PathTooLong),
                        cursor: past,
                    };
                }
                let m = n.model;
                let at = first_in(self.span, m);
                let end = past_last(self.span, m);
                records[depth] = c.record;
                places[depth] = slot;
                Moved {
                    event: Event::Enter(r, n),
                    cursor: Cursor {
                        record: r,
                        node: n,
                        at,
                        end,
                        depth: depth + 1,
                    },
                }
            }
        }
    }

    // What the cursor's slot says, which is not NULL.
    fn meet(self, c: Cursor, records: &mut [usize], places: &mut [usize]) -> Moved
        requires span_fits { SpanFits self.span }
        requires standing { Standing self.span (memory_of self.pools) self.above c }
        requires at_lt_end { c.at < c.end }
        requires kind_unit_bound { kind_unit ≤ get_or self.pools.slots.now (kind_word (c.node.start + c.at)) 0 }
        requires longest_path_in_bounds { (longest_path ≤ length records.old) × (longest_path ≤ length places.old) }
        ensures { Moves self.entry.span (memory_of self.entry.pools) self.entry.above
            (remains self.entry.span (memory_of self.entry.pools) (below self.entry.above c) c records.old places.old)
            result records.new places.new }
    {
        let n = c.node;
        let at = c.at;
        let mut past = c;
        past.at = at + 1;
        match self.pools.slot_at(n, at) {
            Ok(Slot::Data(k)) => Moved {
                event: Event::Element(n.start + at, k),
                cursor: past,
            },
            Ok(Slot::Child(r)) => self.descend(c, r, records, places),
            Err(rule) => Moved {
                event: Event::Damage(rule),
                cursor: past,
            },
            Ok(Slot::Null) => Moved {
                event: Event::End,
                cursor: past,
            },
        }
    }

    // One step: the next event, from the cursor on. A node that is done leads up to the one above it.
    pub fn next(&self, from: Cursor, records: &mut [usize], places: &mut [usize]) -> Moved
        requires span_fits { SpanFits self.now.span }
        requires standing { Standing self.now.span (memory_of self.now.pools) self.now.above from }
        requires longest_path_in_bounds { (longest_path ≤ length records.old) × (longest_path ≤ length places.old) }
        ensures { Moves self.now.span (memory_of self.now.pools) self.now.above
            (remains self.now.span (memory_of self.now.pools) (below self.now.above from) from records.old places.old)
            result records.new places.new }
    {
        let mut c = from;
        // A node that is done leads up to the one above it: no range counts the turns.
        loop {
            let n = c.node;
            let end = c.end;
            let at = skip_null(self.pools.slots, n.start, c.at, end);
            if at < end {
                c.at = at;
                return (*self).meet(c, records, places);
            }
            if c.depth < 1 {
                return Moved {
                    event: Event::End,
                    cursor: c,
                };
            }
            let depth = c.depth - 1;
            let r = records[depth];
            match self.pools.node_at(r) {
                Ok(n) => {
                    let m = n.model;
                    let end = past_last(self.span, m);
                    c = Cursor {
                        record: r,
                        node: n,
                        at: places[depth],
                        end,
                        depth,
                    };
                }
                Err(rule) => {
                    return Moved {
                        event: Event::Damage(rule),
                        cursor: Cursor {
                            record: r,
                            node: n,
                            at: 0,
                            end: 0,
                            depth,
                        },
                    };
                }
            }
        }
    }

    // From an event on to the next element, a broken rule or the end. Each node entered leaves one less to enter.
    fn find_item(
        &self,
        from: Moved,
        rules: Rules,
        records: &mut [usize],
        places: &mut [usize],
    ) -> Next
        requires span_fits { SpanFits self.now.span }
        requires stands { Stands self.now.span (memory_of self.now.pools) self.now.above from.event from.cursor }
        requires longest_path_in_bounds { (longest_path ≤ length records.old) × (longest_path ≤ length places.old) }
        ensures { Finds self.now.span (memory_of self.now.pools) self.now.above rules
            (told from.event (remains self.now.span (memory_of self.now.pools) (below self.now.above from.cursor) from.cursor
            records.old places.old)) result records.new places.new }
    {
        let mut moved = from;
        let mut left = rules;
        // Events are read until an item comes of one: no range counts them.
        loop {
            let event = moved.event;
            let cursor = moved.cursor;
            match event {
                Event::Enter(_, n) => {
                    if !may_enter(self.pools, left, n) {
                        return Next {
                            item: Item::Broken,
                            rules: left,
                            cursor,
                        };
                    }
                    left = after_node(left);
                    moved = self.next(cursor, records, places);
                }
                Event::Element(q, k) => {
                    if !may_hold(left, k) {
                        return Next {
                            item: Item::Broken,
                            rules: left,
                            cursor,
                        };
                    }
                    let after = after_key(left, k);
                    return Next {
                        item: Item::Held(q, k),
                        rules: after,
                        cursor,
                    };
                }
                Event::Damage(_rule) => {
                    return Next {
                        item: Item::Broken,
                        rules: left,
                        cursor,
                    };
                }
                Event::End => {
                    return Next {
                        item: Item::End,
                        rules: left,
                        cursor,
                    };
                }
            }
        }
    }

    // The first item of a reading of the tree below record r, whose path has `above` nodes before it.
    pub fn first_item(
        &self,
        r: usize,
        rules: Rules,
        records: &mut [usize],
        places: &mut [usize],
    ) -> Next
        requires span_fits { SpanFits self.now.span }
        requires above_lt_longest_path { self.now.above < longest_path }
        requires longest_path_in_bounds { (longest_path ≤ length records.old) × (longest_path ≤ length places.old) }
        ensures { Finds self.now.span (memory_of self.now.pools) self.now.above rules
            (events_of self.now.span (memory_of self.now.pools) self.now.above r) result records.new places.new }
    {
        let first = self.start(r);
        self.find_item(first, rules, records, places)
    }

    // The next item, from the cursor on.
    pub fn next_item(
        &self,
        from: Cursor,
        rules: Rules,
        records: &mut [usize],
        places: &mut [usize],
    ) -> Next
        requires span_fits { SpanFits self.now.span }
        requires standing { Standing self.now.span (memory_of self.now.pools) self.now.above from }
        requires longest_path_in_bounds { (longest_path ≤ length records.old) × (longest_path ≤ length places.old) }
        ensures { Finds self.now.span (memory_of self.now.pools) self.now.above rules
            (remains self.now.span (memory_of self.now.pools) (below self.now.above from) from records.old places.old)
            result records.new places.new }
    {
        let first = self.next(from, records, places);
        self.find_item(first, rules, records, places)
    }
}
