//! Texts in pieces: wherever they are cut, the answer is that of the whole.
ghost use Rattle.line_reader.specs.Reader.{IsReader};
ghost use Rattle.line_reader.specs.Seen.{seen};

use line_reader::{LineStage, PieceReader};
use std::alloc::Global;

/// Feeds two pieces.
fn in_two<S: LineStage>(
    alloc: Global,
    prefix: &[u8],
    following: &[u8],
) -> Result<S::End, S::Fault> {
    let reader: PieceReader<S> = PieceReader::new(alloc);
    reader.feed(prefix)?.feed(following)?.finish()
}

/// Feeds each byte by itself.
fn by_bytes<S: LineStage>(reader: PieceReader<S>, text: &[u8]) -> Result<S::End, S::Fault>
    requires whole { IsReader S.whole (seen reader) }
{
    let mut reader = reader;
    let mut left = text;
    while !left.is_empty() {
        let (byte, rest) = left.split_at(1);
        reader = reader.feed(byte)?;
        left = rest;
    }
    reader.finish()
}

/// Whether a text has this answer cut in two at any position, and byte by byte.
pub(crate) fn comes_in_pieces<S: LineStage>(
    alloc: Global,
    text: &[u8],
    answer: &Result<S::End, S::Fault>,
) -> bool
where
    S::End: PartialEq,
    S::Fault: PartialEq,
{
    for at in 0..=text.len() {
        let (prefix, following) = text.split_at(at);
        if in_two::<S>(alloc, prefix, following) != *answer {
            return false;
        }
    }
    by_bytes::<S>(PieceReader::new(alloc), text) == *answer
}
