// The session program (document 01, "The session program"): operations from standard input, answers to standard output, in blocks.
#![tactic(auto)]

ghost use Rattle.std.specs.Prelude.{◌≡◌, ◌+◌, ◌-◌, ◌^◌, ◌<◌, ◌≤◌, length, replicate, take, drop};
ghost use Rattle.operations.specs.Blocks.{Rests};
ghost use Rattle.operations.specs.Runs.{RunsTo};
ghost use Rattle.operations.specs.Sessions.{longest_list, start};
ghost use Rattle.operations.specs.Stepping.{state};
ghost use Rattle.pool.specs.Memory.{mem};
ghost use Rattle.rebuild.specs.Rebuilding.{scratch};
ghost use Rattle.session.specs.Turns.{Refilled};

use operations::Next;
use operations::blocks::Pause;
use pool::Node;
use std::io::{Input, Print, Read};
use store::Handle;

// Where a session stands: the handle, how many bytes of the input lie before those held, how many are held, and whether no more come.
#[derive(Clone, Copy, Debug, PartialEq, Eq)]
pub struct Stage {
    pub handle: Handle,
    pub offset: u64,
    pub held: usize,
    pub last: bool,
}

impl Stage {
    pub const CAPACITY: usize = 512;

    pub const RECORDS: usize = 256;

    pub const SLOTS: usize = 2048;

    pub const MAP_WORDS: usize = (Stage::RECORDS + Stage::SLOTS + 63) / 64;

    // A proved loop has to end, and nothing says that an input does: after so many blocks, which only an endless pipe can have, the
    // program stops without a line.
    pub const TURNS: u64 = 140737488355328;
}

// What one turn leaves: where the session stands, how many bytes are to be written out, and why the block was left.
#[derive(Clone, Copy, Debug, PartialEq, Eq)]
pub struct Turn {
    pub stage: Stage,
    pub printed: usize,
    pub pause: Pause,
}

// The operations that are whole in the bytes held; what is left of them is moved to the front.
fn run_held(
    stage: Stage,
    input: &mut [u8],
    nodes: &mut [u64],
    slots: &mut [u64],
    used: &mut [u64],
    keys: &mut [u64],
    payloads: &mut [u64],
    places: &mut [u64],
    listed_keys: &mut [u64],
    listed_payloads: &mut [u64],
    out: &mut [u8],
) -> Turn
    requires held_in_bounds { (stage.held ≤ length input.old) × (stage.offset + stage.held < 2 ^ 64) }
    requires listed_keys_len_bound { (length listed_keys.old ≤ longest_list) × (length listed_payloads.old ≡ length listed_keys.old) }
    ensures runs_to { RunsTo stage.last stage.offset (take stage.held input.old)
        (state stage.handle (mem nodes.old slots.old used.old) (scratch keys.old payloads.old places.old)
        listed_keys.old listed_payloads.old)
        (take result.printed out.new) result.pause result.stage.offset (take result.stage.held input.new)
        (state result.stage.handle (mem nodes.new slots.new used.new) (scratch keys.new payloads.new places.new)
        listed_keys.new listed_payloads.new) }
    ensures rests { Rests result.pause result.stage.last 0 result.stage.held }
    ensures held_value { (result.stage.offset + result.stage.held ≡ stage.offset + stage.held) × (result.stage.last ≡ stage.last) }
    ensures printed_in_bounds { (result.printed ≤ length out.old) × (result.stage.held ≤ stage.held) }
{
    let held = stage.held;
    let ran = operations::blocks::run(
        &input[..held],
        stage.last,
        stage.offset,
        stage.handle,
        nodes,
        slots,
        used,
        keys,
        payloads,
        places,
        listed_keys,
        listed_payloads,
        out,
    );
    input.copy_within(ran.taken..held, 0);
    Turn {
        stage: Stage {
            handle: ran.handle,
            offset: stage.offset + ran.taken as u64,
            held: held - ran.taken,
            last: stage.last,
        },
        printed: ran.printed,
        pause: ran.pause,
    }
}

// Reads behind the bytes held; 0 at the end of the input, and where reading fails.
fn read_more(rt: &(impl Input + Print), input: &mut [u8], held: usize) -> usize
    requires { held ≤ length input.old }
    ensures input_unchanged { take held input.new ≡ take held input.old }
    ensures result_in_bounds { held + result ≤ length input.old }
{
    rt.reader().read(&mut input[held..]).unwrap_or(0)
}

// After a turn: where the session stands once more input was read, if any is to be read; None where it is over, at the session's end
// and where no more comes.
fn refill(rt: &(impl Input + Print), pause: Pause, stage: Stage, input: &mut [u8]) -> Option<Stage>
    requires { (stage.held ≤ length input.old) × (Rests pause stage.last 0 stage.held) }
    ensures { Refilled pause stage result input.old input.new }
{
    match pause {
        Pause::Ended => None,
        Pause::Output => Some(stage),
        Pause::Input => {
            if stage.last {
                return None;
            }
            let held = stage.held;
            let more = read_more(rt, input, held);
            Some(Stage {
                held: held + more,
                last: more == 0,
                ..stage
            })
        }
    }
}

// Turn by turn: what is printed is written out before more is read. It ends where writing fails.
fn talk(
    rt: &(impl Input + Print),
    h: Handle,
    nodes: &mut [u64],
    slots: &mut [u64],
    used: &mut [u64],
    keys: &mut [u64],
    payloads: &mut [u64],
    places: &mut [u64],
    listed_keys: &mut [u64],
    listed_payloads: &mut [u64],
    input: &mut [u8],
    out: &mut [u8],
)
    requires listed_payloads_value { state h (mem nodes.old slots.old used.old) (scratch keys.old payloads.old places.old) listed_keys.old listed_payloads.old ≡ start }
    requires input_len { (length input.old ≡ 65536) × (length out.old ≡ 65536) }
{
    let mut stage = Stage {
        handle: h,
        offset: 0,
        held: 0,
        last: false,
    };
    for _ in 0..Stage::TURNS {
        let turn = run_held(
            stage,
            input,
            nodes,
            slots,
            used,
            keys,
            payloads,
            places,
            listed_keys,
            listed_payloads,
            out,
        );
        if rt.write_all(&out[..turn.printed]).is_err() {
            return;
        }
        let Some(next) = refill(rt, turn.pause, turn.stage, input) else {
            return;
        };
        stage = next;
    }
}

// A function of its own, so that the elements of a list are named by one term in the proof of `main`.
fn zeros<const N: usize>() -> [u64; N]
    ensures { result ≡ replicate N 0 }
{
    [0; N]
}

fn main(rt: HostRuntime) {
    let mut nodes: [u64; Stage::RECORDS * Node::RECORD_WORDS] = zeros();
    let mut slots: [u64; Stage::SLOTS * Node::SLOT_WORDS] = zeros();
    let mut used = zeros::<{ Stage::MAP_WORDS }>();
    let loaded = store::load(Stage::CAPACITY, &[], &[], &mut nodes, &mut slots, &mut used);
    let Ok(h) = loaded else {
        return;
    };
    let mut keys = zeros::<{ Stage::CAPACITY }>();
    let mut payloads = zeros::<{ Stage::CAPACITY }>();
    let mut places = zeros::<{ Stage::CAPACITY }>();
    let mut listed_keys = zeros::<{ Next::LONGEST_LIST }>();
    let mut listed_payloads = zeros::<{ Next::LONGEST_LIST }>();
    let mut input = [0u8; 65536];
    let mut out = [0u8; 65536];
    talk(
        &rt,
        h,
        &mut nodes,
        &mut slots,
        &mut used,
        &mut keys,
        &mut payloads,
        &mut places,
        &mut listed_keys,
        &mut listed_payloads,
        &mut input,
        &mut out,
    );
}
