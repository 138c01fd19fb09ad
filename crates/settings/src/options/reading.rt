ghost use Rattle.std.specs.Prelude.{◌≡◌};
ghost use Rattle.settings.specs.Standing.{limits};

use super::Settings;

impl Settings {
    // How much all residents may weigh.
    pub fn capacity(&self) -> u64
        ensures { result ≡ (limits self.now).capacity }
    {
        self.capacity
    }

    // How much the hot residents may weigh.
    pub fn hot_target(&self) -> u64
        ensures { result ≡ (limits self.now).target }
    {
        self.hot_target
    }

    // How many ghosts there may be.
    pub fn ghost_bound(&self) -> u64
        ensures { result ≡ (limits self.now).bound }
    {
        self.ghost_bound
    }
}
