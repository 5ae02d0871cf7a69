// The counts of a load.

/// What came of generated commands.
#[derive(Clone, Copy, Debug, PartialEq, Eq)]
pub struct Tally {
    /// The commands made.
    pub made: u64,
    /// Those accepted.
    pub accepted: u64,
    /// Those refused.
    pub refused: u64,
    /// The acts that found nothing due.
    pub nothing: u64,
    /// The versions kept at the end, with delete markers.
    pub versions: u64,
    /// The unfinished uploads kept at the end.
    pub uploads: u64,
    /// The length of the journal file at the end, in bytes.
    pub journal: u64,
}
