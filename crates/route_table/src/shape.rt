// The pieces of a pattern.

/// The shape of a piece of a path, after a slash. A pattern is a list of shapes.
#[derive(Clone, Copy, Debug, PartialEq, Eq)]
pub enum Shape<'p> {
    /// This word: ASCII, without a slash or a brace.
    Word(&'p str),
    /// A segment: one byte or more, and no slash.
    Segment,
    /// The whole remainder: one byte or more.
    Remainder,
}
