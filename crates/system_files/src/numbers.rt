//! The numbers of the files that a program is started with.

use std::alloc::Global;
use std::fs;

/// The numbers that are asked for. A file that a program opens has a lower one, while few files are open.
const ASKED: u32 = 64;

/// Which of the numbers below 64 files had when the program was started, before it opened any file.
#[derive(Clone, Copy)]
pub struct OpenAtStart {
    bits: u64,
}

/// Whether a file of this number is open; true if memory runs out.
fn is_open(rt: &HostRuntime, alloc: Global, number: u32) -> bool {
    match format!(in alloc; "/proc/self/fd/{number}") {
        Ok(name) => fs::symlink_metadata(rt, name.as_str()).is_ok(),
        Err(_) => true,
    }
}

impl OpenAtStart {
    /// The numbers that are open now.
    pub fn new(rt: &HostRuntime) -> Self {
        let mut bits: u64 = 0;
        for number in 0..ASKED {
            if is_open(rt, rt.alloc(), number) {
                bits |= 1u64 << number;
            }
        }
        OpenAtStart { bits }
    }

    /// Whether a number was no file's.
    pub(crate) fn is_closed(self, number: u32) -> bool {
        number < ASKED && (self.bits >> number) & 1 == 0
    }
}
