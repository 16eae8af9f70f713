//! What a cut of the power leaves of a disk in memory.

/// What becomes of the bytes that are pending when the power is cut.
#[derive(Clone, Copy, Debug, PartialEq, Eq)]
pub enum Picker {
    /// All of them stay as they were written.
    Keep,
    /// None stays: the bytes are those of the last sync.
    Drop,
    /// Each becomes this byte, and the content is as long as it can be.
    Fill(u8),
}
