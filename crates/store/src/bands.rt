// Band: the elements with u <= key <= v in key order, counted first and then written, so that damage leaves the output untouched.
ghost use Rattle.std.specs.Prelude.{◌≡◌};
ghost use Rattle.pool.specs.Memory.{mem};
ghost use Rattle.store.specs.Bands.{band, band_of, listed};

use crate::Handle;
use laws::{Key, Refusal};
use listing::Listed;
use pool::Pools;
use walk::reading::Reading;
use walk::{Rules, Span};

// The elements with u <= key <= v, in key order, as many as fit.
#[tactic(auto, using(crate::proofs::BandWays::band_damaged), unfolding(crate::specs::Bands::band_items))]
pub fn band(
    h: Handle,
    u: u64,
    v: u64,
    nodes: &[u64],
    slots: &[u64],
    used: &[u64],
    keys: &mut [u64],
    payloads: &mut [u64],
) -> Result<Listed, Refusal>
    ensures { band (listed result) keys.new payloads.new
        ≡ band_of h u v (mem nodes.now slots.now used.now) keys.old payloads.old }
{
    let pools = Pools { nodes, slots, used };
    if !h.fits(pools) {
        return Err(Refusal::WrongSizes);
    }
    if keys.len() != payloads.len() {
        return Err(Refusal::WrongSizes);
    }
    if Key::BOUND <= u {
        return Err(Refusal::OutOfRange);
    }
    if Key::BOUND <= v {
        return Err(Refusal::OutOfRange);
    }
    if v < u {
        return Err(Refusal::Reversed);
    }
    let reading = Reading {
        pools,
        span: Span::Between(u, v),
        above: 0,
    };
    let rules = Rules {
        nodes: pools.records(),
        keys: 0,
        least: 0,
        rebuild: false,
        fresh: 0,
    };
    let listed = listing::count(&reading, h.root, rules, u, v, keys.len())?;
    let _end = listing::write(
        &reading,
        h.root,
        rules,
        u,
        v,
        listed.count,
        keys,
        payloads,
        0,
    );
    Ok(listed)
}
