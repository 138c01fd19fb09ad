use crate::options::{
    DEFAULT_GHOST_ALLOCATION, DEFAULT_HOT_ALLOCATION, MAX_CAPACITY, MAX_ITEMS, Settings,
};
use interface::refusal::Refusal;
use std::test::Fail;

// Capacity, hot target and ghost bound.
fn limits(settings: Result<Settings, Refusal>) -> Result<(u64, u64, u64), Refusal> {
    settings.map(|s| (s.capacity(), s.hot_target(), s.ghost_bound()))
}

// The limits at the default allocations.
fn usual(capacity: u64, items: u64) -> Result<(u64, u64, u64), Refusal> {
    limits(Settings::new(
        capacity,
        items,
        DEFAULT_HOT_ALLOCATION,
        DEFAULT_GHOST_ALLOCATION,
    ))
}

#[test]
fn sets_up_at_the_edges(rt: HostRuntime) {
    assert_eq!(rt; usual(4, 4), Ok((4, 3, 2)));
    assert_eq!(rt; usual(0, 0), Ok((0, 0, 0)));
    assert_eq!(rt; usual(1, 1), Ok((1, 1, 0)));
    assert_eq!(rt;
        usual(MAX_CAPACITY, MAX_ITEMS),
        Ok((MAX_CAPACITY, 8736983277098762, 524288))
    );
    assert_eq!(rt;
        limits(Settings::new(MAX_CAPACITY, 3, 1.0, 1.0)),
        Ok((MAX_CAPACITY, MAX_CAPACITY, 3))
    );
    assert_eq!(rt; limits(Settings::new(9, 9, -0.0, -0.0)), Ok((9, 1, 0)));
}

#[test]
fn refuses_in_order(rt: HostRuntime) {
    let nan = 0.0 / 0.0;
    assert_eq!(rt;
        usual(MAX_CAPACITY + 1, MAX_ITEMS + 1),
        Err(Refusal::CapacityTooLarge)
    );
    assert_eq!(rt;
        limits(Settings::new(MAX_CAPACITY, MAX_ITEMS + 1, nan, nan)),
        Err(Refusal::TooManyItems)
    );
    assert_eq!(rt;
        limits(Settings::new(1, 1, nan, 0.5)),
        Err(Refusal::AllocationOutOfRange)
    );
    assert_eq!(rt;
        limits(Settings::new(1, 1, 0.5, nan)),
        Err(Refusal::AllocationOutOfRange)
    );
    assert_eq!(rt;
        limits(Settings::new(1, 1, 1.0000000000000002, 0.5)),
        Err(Refusal::AllocationOutOfRange)
    );
    assert_eq!(rt;
        limits(Settings::new(1, 1, 0.5, -5e-324)),
        Err(Refusal::AllocationOutOfRange)
    );
    assert_eq!(rt;
        limits(Settings::new(1, 1, 1.0 / 0.0, 0.5)),
        Err(Refusal::AllocationOutOfRange)
    );
}

#[test]
fn takes_new_capacities(rt: HostRuntime) -> Result<(), Fail> {
    let first = Settings::new(4, 4, 0.97, 0.5)?;
    let eight = first.resized(8)?;
    assert_eq!(rt; limits(Ok(eight)), Ok((8, 6, 4)));
    let none = eight.resized(0)?;
    assert_eq!(rt; limits(Ok(none)), Ok((0, 0, 0)));
    assert_eq!(rt; limits(none.resized(10)), Ok((10, 9, 0)));
    assert_eq!(rt; limits(none.resized(1)), Ok((1, 1, 0)));
    assert_eq!(rt;
        limits(first.resized(MAX_CAPACITY)),
        Ok((MAX_CAPACITY, 6755399441055744, 4503599627370496))
    );
    assert_eq!(rt;
        limits(first.resized(MAX_CAPACITY + 1)),
        Err(Refusal::CapacityTooLarge)
    );
    Ok(())
}

#[test]
fn refuses_too_many_ghosts(rt: HostRuntime) -> Result<(), Fail> {
    let small = Settings::new(1, 2, 0.97, 1.0)?;
    assert_eq!(rt;
        limits(small.resized(MAX_CAPACITY / 2)),
        Ok((MAX_CAPACITY / 2, MAX_CAPACITY / 2, MAX_CAPACITY))
    );
    assert_eq!(rt;
        limits(small.resized(MAX_CAPACITY / 2 + 1)),
        Err(Refusal::GhostBoundTooLarge)
    );
    assert_eq!(rt;
        limits(small.resized(MAX_CAPACITY + 1)),
        Err(Refusal::CapacityTooLarge)
    );
    // from capacity 0 the bound stays
    assert_eq!(rt;
        limits(Settings::new(0, 2, 0.97, 1.0)?.resized(MAX_CAPACITY)),
        Ok((MAX_CAPACITY, 8736983277098762, 2))
    );
    Ok(())
}
