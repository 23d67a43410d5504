//! Values and files among the words after a command.

/// Whether a word is the name of an option.
pub(crate) fn is_option(word: &[u8]) -> bool {
    match word.split_first() {
        Some((first, rest)) => *first == b'-' && !rest.is_empty(),
        None => false,
    }
}

/// The value of an option among words; None if it isn't named.
pub(crate) fn value_of<'a>(name: &[u8], words: &'a [String]) -> Option<&'a [u8]> {
    let mut is_value = false;
    let mut is_wanted = false;
    for word in words {
        let bytes = word.as_bytes();
        if is_value && is_wanted {
            return Some(bytes);
        }
        if is_value {
            is_value = false;
        } else if bytes == b"--".as_slice() {
            return None;
        } else {
            is_value = is_option(bytes);
            is_wanted = bytes == name;
        }
    }
    None
}

/// Whether an option has a value.
pub(crate) fn has_value(name: &[u8], value: &[u8], words: &[String]) -> bool {
    match value_of(name, words) {
        Some(found) => found == value,
        None => false,
    }
}

/// The file at a place among the files of words, from 0; None if there are fewer.
pub(crate) fn file_at(place: usize, words: &[String]) -> Option<&[u8]> {
    let mut files: usize = 0;
    let mut are_files = false;
    let mut is_value = false;
    for word in words {
        let bytes = word.as_bytes();
        if is_value {
            is_value = false;
        } else if !are_files && bytes == b"--".as_slice() {
            are_files = true;
        } else if !are_files && is_option(bytes) {
            is_value = true;
        } else if files == place {
            return Some(bytes);
        } else {
            files = files.saturating_add(1);
        }
    }
    None
}

/// Whether a word spells bits: by `0` and `1`, or none by `-`.
pub(crate) fn is_bits(word: &[u8]) -> bool {
    if word == b"-".as_slice() {
        return true;
    }
    for byte in word {
        if *byte != b'0' && *byte != b'1' {
            return false;
        }
    }
    !word.is_empty()
}

/// Whether a word spells a number of bytes up to `most`, without a leading 0.
pub(crate) fn is_bytes(most: usize, word: &[u8]) -> bool {
    if let [] | [b'0', _, ..] = word {
        return false;
    }
    let mut count: usize = 0;
    for byte in word {
        if !byte.is_ascii_digit() {
            return false;
        }
        let digit = byte.saturating_sub(b'0');
        count = count.saturating_mul(10).saturating_add(usize::from(digit));
    }
    count <= most
}

/// Whether a word ends with a text.
pub(crate) fn ends_with(word: &[u8], end: &[u8]) -> bool {
    let mut left = word;
    for _ in 0..word.len() {
        if left == end {
            return true;
        }
        let Some((_, rest)) = left.split_first() else {
            break;
        };
        left = rest;
    }
    false
}
