// How many hot residents, cold residents and ghosts there are, and what the hot and the cold ones weigh.
#[derive(Clone, Copy, PartialEq, Eq, Debug)]
pub struct Tally {
    pub hot: u32,
    pub cold: u32,
    pub ghosts: u32,
    pub hot_weight: u64,
    pub cold_weight: u64,
}
