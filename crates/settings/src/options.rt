ghost use Rattle.std.specs.Prelude.{◌^◌, ◌≤◌, min};

mod making;
mod reading;

// The share of the capacity that the hot residents may take, where nothing else is known.
pub const DEFAULT_HOT_ALLOCATION: f64 = 0.97;

// The ghosts that are kept for each item expected, where nothing else is known.
pub const DEFAULT_GHOST_ALLOCATION: f64 = 0.5;

// The largest capacity, and the largest ghost bound: 2^53.
pub const MAX_CAPACITY: u64 = 9007199254740992;

// The most items that can be expected.
pub const MAX_ITEMS: u64 = 1048576;

// What a cache is set to. Every value keeps the four facts below.
#[derive(Clone, Copy, PartialEq, Eq, Debug)]
pub struct Settings {
    capacity: u64,
    hot_target: u64,
    ghost_bound: u64,
    ghost reaches_one: { min 1 capacity ≤ hot_target },
    ghost within: { hot_target ≤ capacity },
    ghost exact: { capacity ≤ 2 ^ 53 },
    ghost bounded: { ghost_bound ≤ 2 ^ 53 },
}
