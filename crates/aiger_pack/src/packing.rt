//! The binary form of a text, tested.

ghost use Rattle.std.specs.Prelude.{◌≡◌, true, false, IfOk};
ghost use Rattle.aiger_binary.specs.Ascii.{is_binary as is_binary_of, ascii_of, ascii_in};

use crate::bytes::binary_bytes;
use aiger_binary::{ascii_text, is_binary};
use aiger_sections::{plain_text, sections};
use aiger_text::{NetError, read_ascii};
use std::alloc::{AllocError, Global};

/// The most bytes of a text that is read.
const MOST_BYTES: usize = 2_147_483_647;

/// Bytes that may be the binary form of a text; None if it isn't an ASCII text.
fn guess(alloc: Global, text: &[u8]) -> Result<Option<Vec<u8>>, AllocError> {
    let plain = plain_text(alloc, text)?;
    if plain.len() > MOST_BYTES {
        return Ok(None);
    }
    match read_ascii(alloc, &plain) {
        Ok(file) => Ok(Some(binary_bytes(alloc, sections(alloc, text)?, &file)?)),
        Err(NetError::Memory) => Err(AllocError),
        Err(_) => Ok(None),
    }
}

/// Whether bytes are a binary text that stands for a text.
fn stands_for(alloc: Global, bytes: &[u8], text: &[u8]) -> Result<bool, AllocError>
    ensures { IfOk result (λ same. same ≡ true → ascii_of bytes.now ≡ text.now) }
{
    let back = ascii_text(alloc, bytes)?;
    Ok(back.as_slice() == text)
}

/// The binary form of a text in the ASCII form, or the text itself where it has none.
#[tactic(auto, using(crate::proofs::Standing::standing))]
fn packed(alloc: Global, text: &[u8]) -> Result<Vec<u8>, AllocError>
    requires { is_binary_of text.now ≡ false }
    ensures { IfOk result (λ b. ascii_in b.items ≡ ascii_in text.now) }
{
    let Some(bytes) = guess(alloc, text)? else {
        return Vec::from_slice(alloc, text);
    };
    let binary = is_binary(&bytes);
    let stands = stands_for(alloc, &bytes, text)?;
    if binary && stands {
        return Ok(bytes);
    }
    Vec::from_slice(alloc, text)
}

/// A text in the binary form that stands for the same ASCII text as this one. Where the text has no binary form, it is
/// a copy.
pub fn pack(alloc: Global, text: &[u8]) -> Result<Vec<u8>, AllocError>
    ensures { IfOk result (λ b. ascii_in b.items ≡ ascii_in text.now) }
{
    if is_binary(text) {
        Vec::from_slice(alloc, text)
    } else {
        packed(alloc, text)
    }
}
