//! What a processor's next step takes and sends.

/// What a next step takes and sends, as sets of ends: bit `i` for the end with index `i`, one value at
/// each.
#[derive(Clone, Copy, PartialEq, Eq)]
pub struct Needs {
    /// The inputs that it takes a value from.
    pub inputs: u16,
    /// The outputs that it sends a value to.
    pub outputs: u16,
}
