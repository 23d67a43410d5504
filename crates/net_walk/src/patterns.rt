//! Words of all assignments: bit r of word w stands for the assignment 64 w + r, in which input k has the value of
//! bit k.

/// The values of an input in one word of all assignments.
pub fn input_word(input: u32, word: u32) -> u64 {
    match input {
        0 => 0xaaaa_aaaa_aaaa_aaaa,
        1 => 0xcccc_cccc_cccc_cccc,
        2 => 0xf0f0_f0f0_f0f0_f0f0,
        3 => 0xff00_ff00_ff00_ff00,
        4 => 0xffff_0000_ffff_0000,
        5 => 0xffff_ffff_0000_0000,
        _ => {
            if word.wrapping_shr(input.saturating_sub(6)) & 1 == 1 {
                u64::MAX
            } else {
                0
            }
        }
    }
}

/// How many words all assignments of so many inputs take.
pub fn word_count(inputs: u32) -> u32 {
    1u32.wrapping_shl(inputs.max(6).saturating_sub(6).min(24))
}
