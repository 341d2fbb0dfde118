//! A loser of a log, as the log tells of it.

/// A transaction without an end, by the numbers of its records: the one that began it, its last one, and
/// the one that is next to be taken back, or that began it where nothing is left. `left` is how many
/// updates are left to be taken back.
#[derive(Clone, Copy, Debug)]
pub struct Loser {
    pub begin: u64,
    pub last: u64,
    pub next: u64,
    pub left: u32,
}
