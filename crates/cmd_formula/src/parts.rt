//! Which part of a certificate is asked for.

/// A part of a certificate. Without a size it is one of the last size that has a section. Parts are numbered from 1 on;
/// a size has one, but by `fence` and `strong-fence` one for each listed fence.
#[derive(Clone, Copy)]
pub struct PartAsked {
    /// The size.
    pub size: Option<u32>,
    /// The part of the size.
    pub part: u32,
}
