// Whether there is room for the nodes of a build: their sizes are placed one after the other, each at the lowest unused record
// and the lowest run, as the build would place them. Every mark is then undone, from what the list of sizes keeps of it.
ghost use Rattle.std.specs.Prelude.{◌≡◌, ◌*◌, ◌≤◌, length, replicate};
ghost use Rattle.std.proofs.lemmas.List.Edits.{sets};
ghost use Rattle.build.specs.Undoing.{Mapped, Sought, Asked, Tried, Judged, Undoable, spot_for, marked_by, undone_by};

// a kept word is size * SIZE + record * RECORD + start
const SIZE: u64 = 281474976710656;

const RECORD: u64 = 16777216;

// Where a size goes: its record, the first slot of its run, and the first slot that was unused.
#[derive(Clone, Copy)]
struct Spot {
    record: usize,
    start: usize,
    first: usize,
}

// One size takes its places, if there are any. The records before r and the slots before s are known to be used.
fn place_one(
    used: &mut [u64],
    records: usize,
    count: usize,
    l: usize,
    r: usize,
    s: usize,
) -> Option<Spot>
    requires mapped { Mapped records count used.old }
    requires sought { Sought records count used.old r s }
    requires le_l { 1 ≤ l }
    ensures { (result ≡ spot_for records count l used.old) × (used.new ≡ marked_by records l result used.old) }
{
    let record = marks::first_unused(used, 0, records, r)?;
    let first = marks::first_unused(used, records, count, s)?;
    let start = marks::lowest_run(used, records, count, l, first)?;
    marks::mark(used, record);
    marks::mark_run(used, records + start, l);
    Some(Spot {
        record,
        start,
        first,
    })
}

// The sizes in turn, as far as there is room; how many were placed. In the list each leaves how it is undone.
fn place_sizes(used: &mut [u64], records: usize, count: usize, list: &mut [u64], n: usize) -> usize
    requires { Asked records count n list.old used.old }
    ensures { Tried records count n list.old used.old list.new used.new result }
{
    let mut r = 0;
    let mut s = 0;
    for i in 0..n {
        let l = list[i];
        let Some(spot) = place_one(used, records, count, l as usize, r, s) else {
            return i;
        };
        list[i] = l * SIZE + spot.record as u64 * RECORD + spot.start as u64;
        r = spot.record + 1;
        s = spot.first;
    }
    n
}

// The first n words of the list undone, the last first.
fn undo(used: &mut [u64], records: usize, list: &[u64], n: usize)
    requires { Undoable records n list.now (length used.old * 64) }
    ensures { used.new ≡ undone_by records list.now n used.old }
{
    for i in (0..n).rev() {
        let w = list[i];
        marks::clear_run(used, records + (w % RECORD) as usize, (w / SIZE) as usize);
        marks::clear(used, (w / RECORD % RECORD) as usize);
    }
}

// The first n places of the list zero.
pub fn wipe(list: &mut [u64], n: usize)
    requires { n ≤ length list.old }
    ensures { list.new ≡ sets list.old 0 (replicate n 0) }
{
    list[..n].fill(0);
}

// Whether the first n sizes of the list have room. The map is left as it was, and those places of the list are zero.
pub fn has_room(used: &mut [u64], records: usize, count: usize, list: &mut [u64], n: usize) -> bool
    requires { Asked records count n list.old used.old }
    ensures { Judged records count n list.old used.old list.new used.new result }
{
    let placed = place_sizes(used, records, count, list, n);
    undo(used, records, list, placed);
    wipe(list, n);
    placed == n
}
