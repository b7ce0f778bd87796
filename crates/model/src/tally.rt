// What a reclaim comes to: how many cells it freed, and how many it kept.
#[derive(Clone, Copy, PartialEq, Eq, PartialOrd, Ord, Default, Hash, Debug)]
pub struct Tally {
    pub freed: u8,
    pub kept: u8,
}
