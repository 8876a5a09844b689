// One operation of a session, and a block of them: read, done and printed (document 01, "The session program").
#![tactic(auto)]

ghost use Rattle.std.specs.Prelude.{◌≡◌, ◌+◌, ◌*◌, ◌<◌, ◌≤◌, length};
ghost use Rattle.delete.specs.Deleting.{delete_of};
ghost use Rattle.lines.specs.Kinds.{body_length};
ghost use Rattle.lines.specs.Lines.{longest_line, text, write};
ghost use Rattle.pool.specs.Memory.{mem};
ghost use Rattle.rebuild.specs.Rebuilding.{scratch};
ghost use Rattle.store.specs.Bands.{band_of};
ghost use Rattle.store.specs.Calls.{lookup_of, replace_of, changed};
ghost use Rattle.insert.specs.Inserting.{insert_of};
ghost use Rattle.laws.specs.Refusals.{status_of};
ghost use Rattle.operations.specs.Printing.{answer_line, element_lines, band_lines};
ghost use Rattle.operations.specs.Sessions.{longest_list, longest_answer};
ghost use Rattle.operations.specs.Stepping.{state, step_of, stepped, write_step};

use laws::{Key, Refusal};
use lines::Operation;
use store::Handle;

pub mod blocks;

// What an operation leaves: the next handle, and the place past what was printed.
#[derive(Clone, Copy, Debug, PartialEq, Eq)]
pub struct Next {
    pub handle: Handle,
    pub at: usize,
}

impl Next {
    // A band lists no more elements.
    pub const LONGEST_LIST: usize = 64;

    pub const LONGEST_LINE: usize = 65;

    // No answer takes more bytes: a first line and a line for each element.
    pub const LONGEST_ANSWER: usize = Next::LONGEST_LINE + Next::LONGEST_LINE * Next::LONGEST_LIST;

    // Nobody calls it: its contract says that the constants are those of the definitions.
    pub fn limits()
        ensures longest_list { Next.LONGEST_LIST ≡ longest_list }
        ensures longest_line { Next.LONGEST_LINE ≡ longest_line }
        ensures longest_answer { Next.LONGEST_ANSWER ≡ longest_answer }
    {}
}

// The number of an answer: 0, or that of its refusal.
fn number_of<T>(answer: &Result<T, Refusal>) -> u64
    ensures { result ≡ status_of answer.now }
{
    match answer {
        Ok(_) => 0,
        Err(refusal) => refusal.number(),
    }
}

fn insert(
    h: Handle,
    key: u64,
    payload: u64,
    nodes: &mut [u64],
    slots: &mut [u64],
    used: &mut [u64],
    keys: &mut [u64],
    payloads: &mut [u64],
    places: &mut [u64],
    out: &mut [u8],
    at: usize,
) -> Next
    requires { at + longest_line ≤ length out.old }
    ensures handle_value { result.handle ≡ (insert_of h key payload (mem nodes.old slots.old used.old) (scratch keys.old payloads.old places.old)).handle }
    ensures used_after { mem nodes.new slots.new used.new
        ≡ (insert_of h key payload (mem nodes.old slots.old used.old) (scratch keys.old payloads.old places.old)).memory }
    ensures places_after { scratch keys.new payloads.new places.new
        ≡ (insert_of h key payload (mem nodes.old slots.old used.old) (scratch keys.old payloads.old places.old)).scratch }
    ensures at_after { text out.new result.at ≡ write (text out.old at)
        (answer_line 1 (insert_of h key payload (mem nodes.old slots.old used.old) (scratch keys.old payloads.old places.old)).answer) }
    ensures at_bound { (result.at ≤ at + longest_line) × (length out.new ≡ length out.old) }
{
    let i = insert::insert(h, key, payload, nodes, slots, used, keys, payloads, places);
    let handle = i.handle;
    let answer = i.answer;
    let Ok(done) = answer else {
        let end = lines::line(b'1', &[number_of(&answer)], out, at);
        return Next { handle, at: end };
    };
    let tidying = done.tidying.number() as u64;
    let end = lines::line(b'1', &[0, u64::from(done.conflict), tidying], out, at);
    Next { handle, at: end }
}

// The line of a change: its number, and nothing besides.
fn change_line(kind: u8, answer: Result<(), Refusal>, out: &mut [u8], at: usize) -> usize
    requires kind_is_a_digit { kind < 10 }
    requires room { at + longest_line ≤ length out.old }
    ensures result_after { text out.new result ≡ write (text out.old at) (answer_line kind (changed answer)) }
    ensures upper_bound { (result ≤ at + longest_line) × (length out.new ≡ length out.old) }
{
    let Ok(()) = answer else {
        return lines::line(b'0' + kind, &[number_of(&answer)], out, at);
    };
    lines::line(b'0' + kind, &[0], out, at)
}

fn delete(
    h: Handle,
    key: u64,
    nodes: &[u64],
    slots: &mut [u64],
    used: &[u64],
    out: &mut [u8],
    at: usize,
) -> Next
    requires { at + longest_line ≤ length out.old }
    ensures handle_value { result.handle ≡ (delete_of h key (mem nodes.now slots.old used.now)).handle }
    ensures used_after { mem nodes.now slots.new used.now ≡ (delete_of h key (mem nodes.now slots.old used.now)).memory }
    ensures at_after { text out.new result.at
        ≡ write (text out.old at) (answer_line 2 (delete_of h key (mem nodes.now slots.old used.now)).answer) }
    ensures at_bound { (result.at ≤ at + longest_line) × (length out.new ≡ length out.old) }
{
    let c = delete::delete(h, key, nodes, slots, used);
    Next {
        handle: c.handle,
        at: change_line(2, c.answer, out, at),
    }
}

fn replace(
    h: Handle,
    key: u64,
    payload: u64,
    nodes: &[u64],
    slots: &mut [u64],
    used: &[u64],
    out: &mut [u8],
    at: usize,
) -> Next
    requires { at + longest_line ≤ length out.old }
    ensures handle_value { result.handle ≡ (replace_of h key payload (mem nodes.now slots.old used.now)).handle }
    ensures used_after { mem nodes.now slots.new used.now ≡ (replace_of h key payload (mem nodes.now slots.old used.now)).memory }
    ensures at_after { text out.new result.at
        ≡ write (text out.old at) (answer_line 5 (replace_of h key payload (mem nodes.now slots.old used.now)).answer) }
    ensures at_bound { (result.at ≤ at + longest_line) × (length out.new ≡ length out.old) }
{
    let c = store::replace(h, key, payload, nodes, slots, used);
    Next {
        handle: c.handle,
        at: change_line(5, c.answer, out, at),
    }
}

fn lookup(
    h: Handle,
    key: u64,
    nodes: &[u64],
    slots: &[u64],
    used: &[u64],
    out: &mut [u8],
    at: usize,
) -> usize
    requires { at + longest_line ≤ length out.old }
    ensures result_after { text out.new result
        ≡ write (text out.old at) (answer_line 3 (lookup_of h key (mem nodes.now slots.now used.now))) }
    ensures upper_bound { (result ≤ at + longest_line) × (length out.new ≡ length out.old) }
{
    let answer = store::lookup(h, key, nodes, slots, used);
    let Ok(found) = answer else {
        return lines::line(b'3', &[number_of(&answer)], out, at);
    };
    lines::line(b'3', &[0, found.payload, found.visits as u64], out, at)
}

// A line "= key payload" for each of the first n elements.
fn list_elements(n: usize, keys: &[u64], payloads: &[u64], out: &mut [u8], at: usize) -> usize
    requires n_in_bounds { (n ≤ length keys.now) × (n ≤ length payloads.now) }
    requires n_in_bounds_2 { at + longest_line * n ≤ length out.old }
    ensures result_after { text out.new result ≡ write (text out.old at) (element_lines keys.now payloads.now 0 n) }
    ensures upper_bound { (result ≤ at + longest_line * n) × (length out.new ≡ length out.old) }
{
    let mut end = at;
    for (key, payload) in keys[..n].iter().zip(&payloads[..n]) {
        end = lines::line(b'=', &[*key, *payload], out, end);
    }
    end
}

fn band(
    h: Handle,
    u: u64,
    v: u64,
    nodes: &[u64],
    slots: &[u64],
    used: &[u64],
    keys: &mut [u64],
    payloads: &mut [u64],
    out: &mut [u8],
    at: usize,
) -> usize
    requires keys_len_bound { (length keys.old ≤ longest_list) × (length payloads.old ≡ length keys.old) }
    requires longest_answer_in_bounds { at + longest_answer ≤ length out.old }
    ensures keys_after { keys.new ≡ (band_of h u v (mem nodes.now slots.now used.now) keys.old payloads.old).keys }
    ensures payloads_after { payloads.new ≡ (band_of h u v (mem nodes.now slots.now used.now) keys.old payloads.old).payloads }
    ensures result_after { text out.new result ≡ write (text out.old at)
        (band_lines (band_of h u v (mem nodes.now slots.now used.now) keys.old payloads.old)) }
    ensures upper_bound { (result ≤ at + longest_answer) × (length out.new ≡ length out.old) }
{
    let answer = store::bands::band(h, u, v, nodes, slots, used, keys, payloads);
    let Ok(listed) = answer else {
        return lines::line(b'4', &[number_of(&answer)], out, at);
    };
    let more = u64::from(listed.more);
    let first = lines::line(b'4', &[0, listed.count as u64, more], out, at);
    list_elements(listed.count, keys, payloads, out, first)
}

// One operation with its body: the call is made on the state, and its answer printed from `at` on.
pub fn step(
    operation: Operation,
    body: &[u8],
    h: Handle,
    nodes: &mut [u64],
    slots: &mut [u64],
    used: &mut [u64],
    keys: &mut [u64],
    payloads: &mut [u64],
    places: &mut [u64],
    listed_keys: &mut [u64],
    listed_payloads: &mut [u64],
    out: &mut [u8],
    at: usize,
) -> Next
    requires body_len { length body.now ≡ body_length operation }
    requires listed_keys_len_bound { (length listed_keys.old ≤ longest_list) × (length listed_payloads.old ≡ length listed_keys.old) }
    requires longest_answer_in_bounds { at + longest_answer ≤ length out.old }
    ensures at_after { stepped
        (state result.handle (mem nodes.new slots.new used.new) (scratch keys.new payloads.new places.new)
        listed_keys.new listed_payloads.new)
        (text out.new result.at)
        ≡ write_step (step_of operation body.now
        (state h (mem nodes.old slots.old used.old) (scratch keys.old payloads.old places.old)
        listed_keys.old listed_payloads.old))
        (text out.old at) }
    ensures at_bound { (result.at ≤ at + longest_answer) × (length out.new ≡ length out.old) }
{
    match operation {
        Operation::Insert => {
            let key = lines::key_at(body, 0);
            let payload = lines::payload_at(body, Key::BYTES);
            insert(
                h, key, payload, nodes, slots, used, keys, payloads, places, out, at,
            )
        }
        Operation::Delete => {
            let key = lines::key_at(body, 0);
            delete(h, key, nodes, slots, used, out, at)
        }
        Operation::Lookup => {
            let key = lines::key_at(body, 0);
            let end = lookup(h, key, nodes, slots, used, out, at);
            Next { handle: h, at: end }
        }
        Operation::Band => {
            let u = lines::key_at(body, 0);
            let v = lines::key_at(body, Key::BYTES);
            let end = band(
                h,
                u,
                v,
                nodes,
                slots,
                used,
                listed_keys,
                listed_payloads,
                out,
                at,
            );
            Next { handle: h, at: end }
        }
        Operation::Replace => {
            let key = lines::key_at(body, 0);
            let payload = lines::payload_at(body, Key::BYTES);
            replace(h, key, payload, nodes, slots, used, out, at)
        }
    }
}
