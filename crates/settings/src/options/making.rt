ghost use Rattle.std.specs.Prelude.{◌≡◌, ◌≤◌, IfOk};
ghost use Rattle.settings.specs.Rules.{scaled as scaling, target_of, ratio as quotient, within_share, set_up, resized as resizing, StaysSound};
ghost use Rattle.settings.specs.Standing.{limits, answered};
ghost use Rattle.settings.specs.Worked.{WorkedValues};

use super::{DEFAULT_HOT_ALLOCATION, MAX_CAPACITY, MAX_ITEMS, Settings};
use interface::refusal::Refusal;
use std::num::{nearest_u64_to_f64, saturating_f64_to_u64};

// Is this a number from 0 to 1?
fn is_share(allocation: f64) -> bool
    ensures { result ≡ within_share allocation }
{
    (0.0..=1.0).contains(&allocation)
}

// `n` times `share`, the fraction dropped.
fn scaled(n: u64, share: f64) -> u64
    ensures { result ≡ scaling n share }
{
    saturating_f64_to_u64(nearest_u64_to_f64(n) * share)
}

// The hot target of a capacity.
fn target(capacity: u64, share: f64) -> u64
    ensures { result ≡ target_of capacity share }
{
    // not `clamp`, whose tests the compiler doesn't take into a caller that knows the share
    scaled(capacity, share).max(capacity.min(1)).min(capacity)
}

fn ratio(part: u64, whole: u64) -> f64
    ensures { result ≡ quotient part whole }
{
    nearest_u64_to_f64(part) / nearest_u64_to_f64(whole)
}

impl Settings {
    // Settings for a capacity, a number of items to expect, and the two allocations. A capacity above
    // `MAX_CAPACITY` is refused, then more than `MAX_ITEMS` items, then an allocation that is not within
    // 0 to 1.
    #[tactic(auto, using(crate::proofs::Worked::worked))]
    pub fn new(
        capacity: u64,
        items: u64,
        hot_allocation: f64,
        ghost_allocation: f64,
    ) -> Result<Settings, Refusal>
        ensures value { answered result ≡ set_up capacity items hot_allocation ghost_allocation }
        ensures sound { IfOk result (λ s. StaysSound (limits s)) }
        ensures few { IfOk result (λ s. (limits s).bound ≤ items) }
        ensures worked { WorkedValues }
    {
        if capacity > MAX_CAPACITY {
            return Err(Refusal::CapacityTooLarge);
        }
        if items > MAX_ITEMS {
            return Err(Refusal::TooManyItems);
        }
        if !is_share(hot_allocation) || !is_share(ghost_allocation) {
            return Err(Refusal::AllocationOutOfRange);
        }
        let hot_target = target(capacity, hot_allocation);
        let ghost_bound = scaled(items, ghost_allocation);
        Ok(Settings {
            capacity,
            hot_target,
            ghost_bound,
        })
    }

    // The same settings at another capacity. A capacity above `MAX_CAPACITY` is refused, then one at which
    // the ghost bound would exceed that.
    pub fn resized(self, capacity: u64) -> Result<Settings, Refusal>
        ensures value { answered result ≡ resizing (limits self) capacity }
        ensures sound { IfOk result (λ s. StaysSound (limits s)) }
    {
        if capacity > MAX_CAPACITY {
            return Err(Refusal::CapacityTooLarge);
        }
        if self.capacity == 0 {
            let hot_target = target(capacity, DEFAULT_HOT_ALLOCATION);
            return Ok(Settings {
                capacity,
                hot_target,
                ghost_bound: self.ghost_bound,
            });
        }
        let ghost_bound = scaled(self.ghost_bound, ratio(capacity, self.capacity));
        if ghost_bound > MAX_CAPACITY {
            return Err(Refusal::GhostBoundTooLarge);
        }
        let hot_target = target(capacity, ratio(self.hot_target, self.capacity));
        Ok(Settings {
            capacity,
            hot_target,
            ghost_bound,
        })
    }
}
