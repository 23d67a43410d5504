//! Why a text isn't a basis.

/// Why a text isn't a basis. The items of a list are checked from the left, and the first error counts.
#[derive(Clone, Copy, PartialEq, Eq)]
pub enum BasisError {
    /// The text begins with a letter and isn't the name of a basis.
    UnknownName,
    /// An item isn't four characters `0` and `1`.
    BadOperator,
    /// The text or an item is empty.
    Empty,
    /// An item is equal to an earlier one.
    Repeated,
}
