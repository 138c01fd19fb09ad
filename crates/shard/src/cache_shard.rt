ghost use Rattle.std.specs.Prelude.{[]};
ghost use Rattle.shard.specs.Layout.{Sound};

use crate::layout::Layout;

// One shard. Every shard is sound: each used slot is in one place only, links agree both ways, and counts and weights are
// those of a recount. What a call leaves as it was (`SameTerms`, `NoMoreUsed`, `SameEntries`, `SameShape`,
// `SameLengths`, the length of a ring) stays a clause: it relates two values.
#[derive(Drop)]
pub struct CacheShard<'a, K: Copy, V: Copy> {
    pub layout: Layout<'a, K, V>,
    pub ghost sound: { ∥ Sound layout [] ∥₁ },
}
