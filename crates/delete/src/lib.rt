// Delete: a key taken out.
#![tactic(auto)]

ghost use Rattle.std.specs.Prelude.{◌≡◌};
ghost use Rattle.delete.specs.Deleting.{delete_of};
ghost use Rattle.pool.specs.Memory.{mem};
ghost use Rattle.store.specs.Calls.{call, changed};

use laws::Refusal;
use store::{Changing, Handle};

// A key that is held is gone: its slot becomes NULL and the count falls; counters and nodes stay.
pub fn delete(h: Handle, key: u64, nodes: &[u64], slots: &mut [u64], used: &[u64]) -> Changing<()>
    ensures { call (changed result.answer) result.handle (mem nodes.now slots.new used.now)
        ≡ delete_of h key (mem nodes.now slots.old used.now) }
{
    match store::find(h, key, nodes, slots, used) {
        Ok(held) => {
            if h.count < 1 {
                return Changing::new(Err(Refusal::Damage), h);
            }
            pool::put_null(slots, held.slot);
            Changing::new(Ok(()), h.with_count(h.count - 1))
        }
        Err(refusal) => Changing::new(Err(refusal), h),
    }
}
