//! A literal as it is listed, before its clause is written.

/// A literal as it is listed, before its clause is written.
#[derive(Clone, Copy)]
pub enum RawLit {
    /// A constant.
    Fixed(bool),
    /// The literal of a variable, numbered from 1, that is true where the variable has this value.
    Var(u32, bool),
}
