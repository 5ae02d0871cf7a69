// The places of the table of bills.

/// Where the table of bills is.
#[derive(Drop)]
pub(crate) enum Place<H, O> {
    /// In a connection that was handed in.
    Handed(H),
    /// In a file of the keeper's own.
    Own(O),
}
