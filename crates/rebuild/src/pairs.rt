// The two-key node of a conflict.
ghost use Rattle.std.specs.Prelude.{◌≡◌, [], ◌∷◌, ◌<◌, is_some, unwrap_or};
ghost use Rattle.build.specs.Building.{out, build};
ghost use Rattle.laws.specs.Keys.{key_bound};
ghost use Rattle.pool.specs.Memory.{mem};
ghost use Rattle.rebuild.specs.Judging.{Pooled};
ghost use Rattle.rebuild.specs.Pairs.{PairFits, pair_if, pair_gone};
ghost use Rattle.walk.specs.Walks.{longest_path};

use build::Hint;
use walk::Path;

// A node over two keys, the lower first.
fn build_two(
    a: u64,
    p: u64,
    b: u64,
    q: u64,
    nodes: &mut [u64],
    slots: &mut [u64],
    used: &mut [u64],
) -> Option<usize>
    requires pooled { Pooled (mem nodes.old slots.old used.old) }
    requires a_lt_b { (a < b) × (b < key_bound) }
    ensures { out result (mem nodes.new slots.new used.new)
        ≡ build longest_path (a ∷ b ∷ []) (p ∷ q ∷ []) (mem nodes.old slots.old used.old) }
{
    let keys = [a, b];
    let payloads = [p, q];
    let start = Hint { record: 0, slot: 0 };
    let g = build::build_node(&keys, &payloads, nodes, slots, used, start, Path::LONGEST);
    g.built
}

// The node over a key and another, after a conflict; without one nothing is stored.
pub fn build_pair(
    a: u64,
    p: u64,
    other: Option<u64>,
    q: u64,
    nodes: &mut [u64],
    slots: &mut [u64],
    used: &mut [u64],
) -> Option<usize>
    requires pooled { Pooled (mem nodes.old slots.old used.old) }
    requires pair_fits { PairFits (is_some other) a (unwrap_or other 0) }
    ensures { out result (mem nodes.new slots.new used.new)
        ≡ pair_if (is_some other) a p (unwrap_or other 0) q (mem nodes.old slots.old used.old) }
{
    let Some(b) = other else {
        return Some(0);
    };
    if a < b {
        return build_two(a, p, b, q, nodes, slots, used);
    }
    build_two(b, q, a, p, nodes, slots, used)
}

// It goes again.
pub fn drop_pair(conflict: bool, c: usize, nodes: &mut [u64], slots: &mut [u64], used: &mut [u64])
    requires { Pooled (mem nodes.old slots.old used.old) }
    ensures { mem nodes.new slots.new used.new
        ≡ pair_gone conflict c (mem nodes.old slots.old used.old) }
{
    if !conflict {
        return;
    }
    build::release::release(nodes, slots, used, c, 1);
}
