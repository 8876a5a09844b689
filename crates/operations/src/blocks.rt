// A block of the input: every operation that is whole in it, one after another.
ghost use Rattle.std.specs.Prelude.{true, List, [], ◌++◌, ◌≡◌, ℕ, ◌+◌, ◌*◌, ◌^◌, ◌<◌, ◌≤◌, length, take, drop};
ghost use Rattle.pool.specs.Memory.{mem};
ghost use Rattle.rebuild.specs.Rebuilding.{scratch};
ghost use Rattle.operations.specs.Blocks.{left_after, Rests};
ghost use Rattle.operations.specs.Sessions.{longest_list, session};
ghost use Rattle.operations.specs.Stepping.{state};

use crate::{Next, step};
use store::Handle;

// Why a block was left: its operations are used up, what is printed has to be written out first, or the session has ended.
#[derive(Clone, Copy, Debug, PartialEq, Eq)]
pub enum Pause {
    Input,
    Output,
    Ended,
}

// What a block leaves: the next handle, the bytes taken and printed, and why it was left.
#[derive(Clone, Copy, Debug, PartialEq, Eq)]
pub struct Ran {
    pub handle: Handle,
    pub taken: usize,
    pub printed: usize,
    pub pause: Pause,
}

// The operations of a block at an offset of the whole input; `last` says that no input comes after it.
pub fn run(
    input: &[u8],
    last: bool,
    offset: u64,
    h: Handle,
    nodes: &mut [u64],
    slots: &mut [u64],
    used: &mut [u64],
    keys: &mut [u64],
    payloads: &mut [u64],
    places: &mut [u64],
    listed_keys: &mut [u64],
    listed_payloads: &mut [u64],
    out: &mut [u8],
) -> Ran
    requires input_bound { offset + length input.now < 2 ^ 64 }
    requires listed_keys_len_bound { (length listed_keys.old ≤ longest_list) × (length listed_payloads.old ≡ length listed_keys.old) }
    ensures by_index { (more : List ℕ) → (last ≡ true → more ≡ []) → session offset (input.now ++ more)
        (state h (mem nodes.old slots.old used.old) (scratch keys.old payloads.old places.old)
        listed_keys.old listed_payloads.old)
        ≡ take result.printed out.new ++ left_after result.pause (offset + result.taken) (drop result.taken input.now ++ more)
        (state result.handle (mem nodes.new slots.new used.new) (scratch keys.new payloads.new places.new)
        listed_keys.new listed_payloads.new) }
    ensures rests { Rests result.pause last result.taken (length input.now) }
    ensures printed_in_bounds { (result.printed ≤ length out.old) × (result.taken ≤ length input.now) }
{
    let mut handle = h;
    let mut p = 0;
    let mut at = 0;
    // An operation's own length says how far a turn goes, so no range counts the turns.
    while p < input.len() {
        if out.len() - at < Next::LONGEST_ANSWER {
            return Ran {
                handle,
                taken: p,
                printed: at,
                pause: Pause::Output,
            };
        }
        let Some(kind) = lines::kind_of(input[p]) else {
            let end = lines::line(b'x', &[offset + p as u64], out, at);
            return Ran {
                handle,
                taken: p,
                printed: end,
                pause: Pause::Ended,
            };
        };
        let start = p + 1;
        if input.len() - start < kind.length {
            if last {
                let end = lines::line(b'x', &[offset + p as u64], out, at);
                return Ran {
                    handle,
                    taken: p,
                    printed: end,
                    pause: Pause::Ended,
                };
            }
            return Ran {
                handle,
                taken: p,
                printed: at,
                pause: Pause::Input,
            };
        }
        let end = start + kind.length;
        let next = step(
            kind.operation,
            &input[start..end],
            handle,
            nodes,
            slots,
            used,
            keys,
            payloads,
            places,
            listed_keys,
            listed_payloads,
            out,
            at,
        );
        handle = next.handle;
        at = next.at;
        p = end;
    }
    Ran {
        handle,
        taken: p,
        printed: at,
        pause: Pause::Input,
    }
}
