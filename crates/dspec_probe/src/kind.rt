/// What the number that a record has of a field means. A trace folder says it of each field.
#[derive(Debug, Clone, Copy, PartialEq, Eq)]
pub enum Kind {
    /// The number itself. A truth value is 0 or 1.
    Unsigned,
    /// A number that may be negative, in two's complement.
    Signed,
    /// A float, by its bits.
    Float,
    /// The first eight bytes of a text, the lowest byte first.
    Text,
    /// The next eight bytes of the text in front of it. It has no name of its own.
    TextNext,
}
