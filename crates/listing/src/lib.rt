// The listing of a tree: the elements with u <= key <= v that a reading meets, in key order, read twice. The first reading finds damage
// and how many fit, and writes nothing; the second writes just so many.
#![tactic(auto)]

ghost use Rattle.std.specs.Prelude.{true, false, ◌&&◌, map, ◌≡◌, ℕ, ◌+◌, ◌^◌, ◌<◌, ◌≤◌, leb, length, get_or};
ghost use Rattle.std.proofs.lemmas.List.Edits.{sets};
ghost use Rattle.listing.specs.Listing.{listing, left, Lands, count_from};
ghost use Rattle.pool.specs.Memory.{payload_word};
ghost use Rattle.pool.specs.Pools.{memory_of};
ghost use Rattle.walk.specs.Cursors.{remains};
ghost use Rattle.walk.specs.Events.{events_of};
ghost use Rattle.walk.specs.Items.{items};
ghost use Rattle.walk.specs.Moves.{SpanFits, Holds, Standing, below};
ghost use Rattle.walk.specs.Walks.{longest_path};

use laws::Refusal;
use pool::Node;
use walk::reading::Reading;
use walk::{Item, Next, Path, Rules};

// How many elements are listed, and whether more remain.
#[derive(Clone, Copy, Debug, PartialEq, Eq)]
pub struct Listed {
    pub count: usize,
    pub more: bool,
}

impl Listed {
    // All there are.
    fn all(count: usize) -> Self
        ensures { result ≡ record { count = count; more = false } }
    {
        Self { count, more: false }
    }

    // The first of more.
    fn first(count: usize) -> Self
        ensures { result ≡ record { count = count; more = true } }
    {
        Self { count, more: true }
    }
}

fn inside(u: u64, v: u64, k: u64) -> bool
    ensures { result ≡ (leb u k && leb k v) }
{
    (u..=v).contains(&k)
}

// From an item on to the next between u and v.
fn to_listed(
    reading: &Reading,
    u: u64,
    v: u64,
    from: Next,
    records: &mut [usize],
    places: &mut [usize],
) -> Next
    requires span_fits { SpanFits reading.now.span }
    requires holds { Holds reading.now.span (memory_of reading.now.pools) reading.now.above from.item from.cursor }
    requires longest_path_in_bounds { (longest_path ≤ length records.old) × (longest_path ≤ length places.old) }
    ensures { Lands reading.now.span (memory_of reading.now.pools) reading.now.above u v
        (left reading.now.span (memory_of reading.now.pools) reading.now.above from records.old places.old)
        result records.new places.new }
{
    let mut next = from;
    // Items are read until one lies between: no range counts them.
    loop {
        let item = next.item;
        match item {
            Item::Held(_, k) => {
                if inside(u, v, k) {
                    return next;
                }
                let cursor = next.cursor;
                let rules = next.rules;
                next = reading.next_item(cursor, rules, records, places);
            }
            Item::Broken => {
                return next;
            }
            Item::End => {
                return next;
            }
        }
    }
}

// The first element between u and v of the tree below record r, whose path has `above` nodes before it; and the next after an element.
fn first_listed(
    reading: &Reading,
    r: usize,
    rules: Rules,
    u: u64,
    v: u64,
    records: &mut [usize],
    places: &mut [usize],
) -> Next
    requires span_fits { SpanFits reading.now.span }
    requires above_lt_longest_path { reading.now.above < longest_path }
    requires longest_path_in_bounds { (longest_path ≤ length records.old) × (longest_path ≤ length places.old) }
    ensures { Lands reading.now.span (memory_of reading.now.pools) reading.now.above u v
        (items (memory_of reading.now.pools) rules
        (events_of reading.now.span (memory_of reading.now.pools) reading.now.above r))
        result records.new places.new }
{
    let first = reading.first_item(r, rules, records, places);
    to_listed(reading, u, v, first, records, places)
}

fn next_listed(
    reading: &Reading,
    u: u64,
    v: u64,
    from: Next,
    records: &mut [usize],
    places: &mut [usize],
) -> Next
    requires span_fits { SpanFits reading.now.span }
    requires standing { Standing reading.now.span (memory_of reading.now.pools) reading.now.above from.cursor }
    requires longest_path_in_bounds { (longest_path ≤ length records.old) × (longest_path ≤ length places.old) }
    ensures { Lands reading.now.span (memory_of reading.now.pools) reading.now.above u v
        (items (memory_of reading.now.pools) from.rules
        (remains reading.now.span (memory_of reading.now.pools) (below reading.now.above from.cursor) from.cursor
        records.old places.old)) result records.new places.new }
{
    let cursor = from.cursor;
    let rules = from.rules;
    let next = reading.next_item(cursor, rules, records, places);
    to_listed(reading, u, v, next, records, places)
}

// The first reading, which writes nothing: up to the first element beyond the room.
pub fn count(
    reading: &Reading,
    r: usize,
    rules: Rules,
    u: u64,
    v: u64,
    room: usize,
) -> Result<Listed, Refusal>
    requires span_fits { SpanFits reading.now.span }
    requires above_lt_longest_path { reading.now.above < longest_path }
    ensures { result ≡ count_from 0 (listing u v room (items (memory_of reading.now.pools) rules
        (events_of reading.now.span (memory_of reading.now.pools) reading.now.above r))) }
{
    let mut records = [0usize; Path::LONGEST];
    let mut places = [0usize; Path::LONGEST];
    let mut next = first_listed(reading, r, rules, u, v, &mut records, &mut places);
    let mut n = 0;
    // Items are read until the reading ends or there is no room: no range counts them.
    loop {
        let item = next.item;
        match item {
            Item::Held(_slot, _key) => {
                if room <= n {
                    return Ok(Listed::first(n));
                }
                n += 1;
                next = next_listed(reading, u, v, next, &mut records, &mut places);
            }
            Item::Broken => {
                return Err(Refusal::Damage);
            }
            Item::End => {
                return Ok(Listed::all(n));
            }
        }
    }
}

// The second reading: so many elements into the output, from place `at` on; the place after the last.
pub fn write(
    reading: &Reading,
    r: usize,
    rules: Rules,
    u: u64,
    v: u64,
    count: usize,
    keys: &mut [u64],
    payloads: &mut [u64],
    at: usize,
) -> usize
    requires span_fits { SpanFits reading.now.span }
    requires above_lt_longest_path { reading.now.above < longest_path }
    requires count_bound { at + count < 2 ^ 63 }
    requires r_in_bounds { at + length (listing u v count (items (memory_of reading.now.pools) rules (events_of reading.now.span (memory_of reading.now.pools) reading.now.above r))).keys ≤ length keys.old }
    requires payloads_len { length payloads.old ≡ length keys.old }
    ensures value { result ≡ at + length (listing u v count (items (memory_of reading.now.pools) rules
        (events_of reading.now.span (memory_of reading.now.pools) reading.now.above r))).keys }
    ensures keys_after { keys.new
        ≡ sets keys.old at (listing u v count (items (memory_of reading.now.pools) rules
        (events_of reading.now.span (memory_of reading.now.pools) reading.now.above r))).keys }
    ensures payloads_after { payloads.new
        ≡ sets payloads.old at (map (λ (q : ℕ). get_or reading.now.pools.slots.now (payload_word q) 0)
        (listing u v count (items (memory_of reading.now.pools) rules
        (events_of reading.now.span (memory_of reading.now.pools) reading.now.above r))).places) }
{
    let mut records = [0usize; Path::LONGEST];
    let mut places = [0usize; Path::LONGEST];
    let mut next = first_listed(reading, r, rules, u, v, &mut records, &mut places);
    let slots = reading.pools.slots;
    let end = at + count;
    let mut n = at;
    while n < end {
        let item = next.item;
        match item {
            Item::Held(q, k) => {
                keys[n] = k;
                payloads[n] = slots[q * Node::SLOT_WORDS + 1];
                n += 1;
                next = next_listed(reading, u, v, next, &mut records, &mut places);
            }
            Item::Broken => {
                return n;
            }
            Item::End => {
                return n;
            }
        }
    }
    n
}
