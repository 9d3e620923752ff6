//! How a lock or a latch is held.

/// The mode of a row lock or of a page latch: shared ones stand beside each other, an exclusive one stands alone.
#[derive(Clone, Copy, Debug, PartialEq, Eq)]
pub enum Mode {
    Shared,
    Exclusive,
}
