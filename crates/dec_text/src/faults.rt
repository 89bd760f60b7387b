//! What may be wrong with a number's text.

/// The first fault of a text, in this order.
#[derive(Clone, Copy, Debug, PartialEq, Eq)]
pub enum DecFault {
    /// There is no byte.
    Empty,
    /// The first byte is `+`, or is `-` where an unsigned number is wanted.
    Sign,
    /// Any other break of the form, or more than 24 bytes.
    Digit,
    /// A digit after the allowed places isn't 0.
    Places,
    /// The number is above the given maximum.
    TooLarge,
}
