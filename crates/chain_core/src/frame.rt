//! What the reader of a chain block has to know to check one line.

/// What the lines of a chain block are checked against: the number of the block's first line in the
/// text, from 1, the numbers of inputs and outputs, and the number of steps that the first line names.
#[derive(Clone, Copy)]
pub struct Frame {
    pub first_line: u32,
    pub n: u32,
    pub outputs: u32,
    pub steps: u32,
}
