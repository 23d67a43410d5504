//! Copying a text into a buffer of the caller.
ghost use Rattle.batsokemi_c.specs.Called.{IsPut};

/// Copies a text to the start of the buffer if it fits; otherwise the buffer is unchanged.
pub fn put(text: &[u8], buffer: &mut [u8])
    ensures { IsPut text.now buffer.old buffer.new }
{
    if text.len() > buffer.len() {
        return;
    }
    let (prefix, _) = buffer.split_at_mut(text.len());
    prefix.copy_from_slice(text);
}
