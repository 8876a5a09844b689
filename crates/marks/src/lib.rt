// The map of used places: test, mark, clear, and the search for the lowest unused place or run. A place is a bit, 64 places
// a word, lowest bit first. Where 64 places from a word's start lie within what is asked, the word is taken at once. So a turn of
// each `while` here passes one place or 64, which no range steps by.
#![tactic(auto)]

ghost use Rattle.std.specs.Prelude.{◌≡◌, true, ℕ, ◌+◌, ◌*◌, ◌<◌, ◌≤◌, ◌^◌, length, SomeIff};
ghost use Rattle.marks.specs.Used.{used_at, mark_at, clear_at, mark_run, clear_run, set_place, set_run, full_run, first_unused, lowest_run};

// a word whose 64 places are used
const FULL: u64 = 18446744073709551615;

// is place p used; past the map's end nothing is
pub fn is_used(used: &[u64], p: usize) -> bool
    ensures { result ≡ used_at used.now p }
{
    let k = p / 64;
    if k < used.len() {
        (used[k] >> (p % 64)) % 2 == 1
    } else {
        false
    }
}

pub fn mark(used: &mut [u64], p: usize)
    requires { p < length used.old * 64 }
    ensures { used.new ≡ mark_at used.old p }
{
    used[p / 64] |= 1 << (p % 64);
}

pub fn clear(used: &mut [u64], p: usize)
    requires { p < length used.old * 64 }
    ensures { used.new ≡ clear_at used.old p }
{
    used[p / 64] &= !(1 << (p % 64));
}

// place p used, or unused
fn set_place<const USED: bool>(used: &mut [u64], p: usize)
    requires { p < length used.old * 64 }
    ensures { used.new ≡ set_place USED used.old p }
{
    if USED {
        mark(used, p);
    } else {
        clear(used, p);
    }
}

// the n places from p on used, or unused; a whole word in one store
fn set_run<const USED: bool>(used: &mut [u64], p: usize, n: usize)
    requires { (p + n ≤ length used.old * 64) × (p + n < 2 ^ 63) }
    ensures { used.new ≡ set_run USED used.old p n }
{
    let word = if USED { FULL } else { 0 };
    let end = p + n;
    let mut q = p;
    while q < end {
        if q % 64 == 0 && 64 <= end - q {
            used[q / 64] = word;
            q += 64;
        } else {
            set_place::<USED>(used, q);
            q += 1;
        }
    }
}

pub fn mark_run(used: &mut [u64], p: usize, n: usize)
    requires { (p + n ≤ length used.old * 64) × (p + n < 2 ^ 63) }
    ensures { used.new ≡ mark_run used.old p n }
{
    set_run::<true>(used, p, n);
}

pub fn clear_run(used: &mut [u64], p: usize, n: usize)
    requires { (p + n ≤ length used.old * 64) × (p + n < 2 ^ 63) }
    ensures { used.new ≡ clear_run used.old p n }
{
    set_run::<false>(used, p, n);
}

// are the n places from p on all used; the run may lie past the map's end
pub fn is_full_run(used: &[u64], p: usize, n: usize) -> bool
    requires { p + n < 2 ^ 63 }
    ensures { result ≡ full_run used.now p n }
{
    let end = p + n;
    let mut q = p;
    while q < end {
        if !is_used(used, q) {
            return false;
        }
        if q % 64 == 0 && 64 <= end - q {
            if used[q / 64] != FULL {
                return false;
            }
            q += 64;
        } else {
            q += 1;
        }
    }
    true
}

// the first word from k on, below end, that is not full; end if there is none. Within its callers the loop may fall across two
// lines of instructions: an insert at 16,384 keys then took 930 ns in place of 800.
#[inline(never)]
fn skip_full(used: &[u64], k: usize, end: usize) -> usize
    requires { (k ≤ end) × (end ≤ length used.now) }
    ensures { (k ≤ result) × (result ≤ end) × ((q : ℕ) → k * 64 ≤ q → q < result * 64 → used_at used.now q ≡ true) }
{
    for w in k..end {
        if used[w] != FULL {
            return w;
        }
    }
    end
}

// the first unused place, if there is one; those before s are known to be used
pub fn first_unused(used: &[u64], from: usize, n: usize, s: usize) -> Option<usize>
    requires { (from + n ≤ length used.now * 64) × (from + n < 2 ^ 63) × (s ≤ n) × ((j : ℕ) → j < s → used_at used.now (from + j) ≡ true) }
    ensures { SomeIff result (first_unused used.now from n < n) (first_unused used.now from n) }
{
    let mut i = s;
    while i < n {
        let p = from + i;
        if p % 64 == 0 && 64 <= n - i && used[p / 64] == FULL {
            i = skip_full(used, p / 64 + 1, (from + n) / 64) * 64 - from;
        } else {
            if !is_used(used, p) {
                return Some(i);
            }
            i += 1;
        }
    }
    None
}

// the lowest start of l unused places, if there is one; those before s are known to be used. From the start tried, got places are known to be
// unused; a used place rules out every start up to it, full words every start in them.
pub fn lowest_run(used: &[u64], from: usize, n: usize, l: usize, s: usize) -> Option<usize>
    requires { (from + n ≤ length used.now * 64) × (from + n < 2 ^ 63) × (1 ≤ l) × (s ≤ n) × ((j : ℕ) → j < s → used_at used.now (from + j) ≡ true) }
    ensures { result ≡ lowest_run used.now from n l }
{
    if n < l {
        return None;
    }
    let last = n - l;
    let mut start = s;
    let mut got = 0;
    while start <= last {
        let p = from + start + got;
        if p % 64 == 0 {
            let w = used[p / 64];
            if w == FULL {
                start = skip_full(used, p / 64 + 1, (from + n + 63) / 64) * 64 - from;
                got = 0;
                continue;
            }
            if w == 0 && 64 < l - got {
                got += 64;
                continue;
            }
        }
        if is_used(used, p) {
            start = start + got + 1;
            got = 0;
        } else {
            got += 1;
            if got == l {
                return Some(start);
            }
        }
    }
    None
}
