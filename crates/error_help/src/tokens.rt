//! Words of a line between separators.

/// Which characters stand between words.
#[derive(Clone, Copy)]
pub(crate) enum Separators {
    /// Blanks, tabs and carriage returns.
    Blanks,
    /// These, and the characters of BENCH.
    Bench,
}

/// Whether a character stands between words.
pub(crate) fn is_separator(separators: Separators, byte: u8) -> bool {
    let is_blank = byte == b' ' || byte == b'\t' || byte == b'\r' || byte == b'\n';
    match separators {
        Separators::Blanks => is_blank,
        Separators::Bench => {
            is_blank || byte == b'(' || byte == b')' || byte == b',' || byte == b'='
        }
    }
}

/// How many bytes come before the first that is a separator, or before the first that is none.
fn count_while(separators: Separators, bytes: &[u8], are_separators: bool) -> usize {
    let mut count: usize = 0;
    for byte in bytes {
        if is_separator(separators, *byte) != are_separators {
            return count;
        }
        count = count.saturating_add(1);
    }
    count
}

/// The first word, and what comes after it; the word is empty if there is none.
pub(crate) fn next_token(separators: Separators, bytes: &[u8]) -> (&[u8], &[u8]) {
    let skipped = count_while(separators, bytes, true);
    let (_, word) = bytes.split_at(skipped.min(bytes.len()));
    let count = count_while(separators, word, false);
    word.split_at(count.min(word.len()))
}

/// A line without its comment.
pub(crate) fn without_comment(line: &[u8]) -> &[u8] {
    let mut count: usize = 0;
    for byte in line {
        if *byte == b'#' {
            break;
        }
        count = count.saturating_add(1);
    }
    let (kept, _) = line.split_at(count.min(line.len()));
    kept
}

/// Whether a line without its comment goes on in the next one.
pub(crate) fn goes_on(line: &[u8]) -> bool {
    let mut is_last = false;
    for byte in line {
        if *byte == b'\\' {
            is_last = true;
        } else if !is_separator(Separators::Blanks, *byte) {
            is_last = false;
        }
    }
    is_last
}
