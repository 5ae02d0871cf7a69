// A part of a key.

/// No part.
pub(crate) const NONE: u32 = 4_294_967_295;

/// What a part holds.
#[derive(Clone, Copy)]
pub(crate) enum What {
    /// A value; its number.
    Value(u32),
    /// A table that headers passed through.
    Implicit,
    /// A table that a dotted key made.
    Dotted,
    /// A table with a header.
    Header,
    /// An array of tables by headers; the part of its last element.
    Tables(u32),
    /// An element of such an array, or the root; the part of the element before it.
    Element(u32),
}

/// A part of a key.
#[derive(Clone, Copy)]
pub(crate) struct Part {
    /// The table that has the key; of an element its array.
    pub table: u32,
    /// The parts that a search looks at next: after a bit 0, and after a bit 1.
    pub low: u32,
    pub high: u32,
    pub what: What,
}

/// Where a key is, or the part and the side on which it would hang.
#[derive(Clone, Copy)]
pub(crate) enum Seat {
    Found(u32),
    Free(u32, bool),
}
