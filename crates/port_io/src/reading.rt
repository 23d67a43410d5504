//! Reading a source: one call, or to its end.
ghost use Rattle.std.specs.Prelude.{◌≡◌, ℕ, ◌<◌, ◌≤◌, List, [], Some, IfOk, OnOk, IsErrOf, is_some, length, vec_len};
ghost use Rattle.port_io.specs.Bytes.{Consumes, IsAtEnd, TakesBeyond, TakesPrefix};
ghost use Rattle.port_io.specs.Faults.{Rose};

use crate::outside::{Failed, Source};
use std::alloc::{AllocError, Global};

/// Why a source couldn't be read.
#[derive(Clone, Copy, PartialEq, Eq)]
pub enum ReadError {
    /// A call of the source failed.
    ReadFault,
    /// The source gave more bytes than are allowed.
    TooLong,
    /// Out of memory.
    Memory,
}

impl From<AllocError> for ReadError {
    ghost use Rattle.port_io.specs.declared.reading.ReadError.TheVariants.{Memory};

    ghost from_gives = { λ _ e. e ≡ Memory };

    fn from(_: AllocError) -> ReadError {
        ReadError::Memory
    }
}

/// The size of the buffer of a call: how many bytes `read_all` asks for at once.
pub const PIECE: usize = 4096;

/// Reads the next bytes of a source by one call into `buf`. The piece is empty if the input has ended. If the call
/// returns more than `room` bytes, they are lost, and the error is `TooLong`.
#[tactic(auto, using(crate::specs::TextLaws::taking))]
pub fn read_piece<'a, S: Source>(
    source: &mut S,
    buf: &'a mut [u8],
    room: usize,
) -> Result<&'a [u8], ReadError>
    requires some { 0 < length buf.old }
    ensures within { IfOk result (λ piece. length piece.now ≤ room) }
    ensures taken { IfOk result (λ piece. Consumes (S.left source.old) (S.left source.new) piece.now) }
    ensures end { IfOk result (λ piece. length piece.now ≡ 0 → IsAtEnd (S.left source.new)) }
    ensures too_long { IsErrOf result ReadError.TooLong → TakesBeyond room (S.left source.old) (S.left source.new) }
    ensures only_if_rose { IsErrOf result ReadError.ReadFault →
        Rose (S.faults source.old) (S.faults source.new) }
    ensures faultless { (IsErrOf result ReadError.ReadFault → ⊥) → S.faults source.new ≡ S.faults source.old }
    ensures prefix { TakesPrefix (S.left source.old) (S.left source.new) }
    ensures never_falls { S.faults source.old ≤ S.faults source.new }
{
    match source.read(buf) {
        Err(Failed) => Err(ReadError::ReadFault),
        Ok(count) if count > room => Err(ReadError::TooLong),
        Ok(count) => {
            let (piece, _) = buf.split_at(count);
            Ok(piece)
        }
    }
}

/// Reads all bytes to the end of the input, at most `limit`. After an error the bytes read so far are lost,
/// and the rest is left in the source.
#[tactic(auto, using(crate::specs::TextLaws::taking))]
pub fn read_all<S: Source>(
    alloc: Global,
    source: &mut S,
    limit: usize,
) -> Result<Vec<u8>, ReadError>
    ensures all { (input : List ℕ) → S.left source.old ≡ Some input →
        IfOk result (λ v. v.items ≡ input) }
    ensures to_the_end { (input : List ℕ) → S.left source.old ≡ Some input →
        OnOk result (S.left source.new ≡ Some []) }
    ensures within { IfOk result (λ v. vec_len v ≤ limit) }

    ensures too_long { (input : List ℕ) → S.left source.old ≡ Some input →
        IsErrOf result ReadError.TooLong → limit < length input }
    ensures only_if_rose { IsErrOf result ReadError.ReadFault →
        Rose (S.faults source.old) (S.faults source.new) }
    ensures faultless { (IsErrOf result ReadError.ReadFault → ⊥) → S.faults source.new ≡ S.faults source.old }

    ensures prefix { TakesPrefix (S.left source.old) (S.left source.new) }
    ensures known { is_some (S.left source.new) ≡ is_some (S.left source.old) }
    ensures never_falls { S.faults source.old ≤ S.faults source.new }
{
    let mut all = Vec::new(alloc);
    let mut buf = [0u8; PIECE];
    // Every iteration but the last reads at least one byte.
    for _turn in 0..=limit {
        let piece = read_piece(source, &mut buf, limit - all.len())?;
        if piece.is_empty() {
            return Ok(all);
        }
        all.extend_from_slice(piece)?;
    }
    unreachable!()
}
