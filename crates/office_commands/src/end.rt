// How a command ends.

/// How a command of the program ended, with the disk and the clock that it was given.
#[derive(Drop)]
pub struct End<D, C> {
    /// The exit code.
    pub status: u8,
    pub disk: D,
    pub clock: C,
}

/// The most bytes that the program's journal file has: 1 GiB. Own rule: an operator can read a journal of this size
/// at once.
pub const JOURNAL_LIMIT: u64 = 1_073_741_824;
