// Refusals that only the framing of a message decides.

/// Why a stream does not begin with a request. The message is the last of its session.
#[derive(Clone, Copy, Debug, PartialEq, Eq)]
pub enum FramingRefusal {
    /// The bytes cannot become a head, whatever follows, or the head has no single body length.
    BadHead,
    /// The body has more than 1,048,576 bytes.
    BodyTooLarge,
    /// The body has a transfer coding.
    ChunkedBody,
    /// No head ends within the first 8,192 bytes.
    HeadTooLarge,
    /// The stream ends inside a message.
    CutShort,
}
