//! What the names of files say by themselves.

use std::alloc::{AllocError, Global};

/// The most bytes of a name in its folder.
const MOST_OF_NAME: usize = 255;

/// The most bytes of a name in its folder without a checksum of at most 20 digits, and the point before it.
const MOST_OF_SHORTENED: usize = 234;

/// The most bytes of a character.
const MOST_OF_CHARACTER: usize = 4;

/// The names of the standard output.
const OUTPUT: &[&str] = &["/dev/stdout", "/dev/fd/1", "/proc/self/fd/1"];

/// The names of the standard error.
const ERRORS: &[&str] = &["/dev/stderr", "/dev/fd/2", "/proc/self/fd/2"];

/// A standard stream that is written.
#[derive(Clone, Copy)]
pub(crate) enum Stream {
    Output,
    Errors,
}

/// Whether a name is one of some names.
fn is_among(name: &str, names: &[&str]) -> bool {
    for other in names {
        if *other == name {
            return true;
        }
    }
    false
}

/// The standard stream that a name stands for.
pub(crate) fn stream_of(name: &str) -> Option<Stream> {
    if is_among(name, OUTPUT) {
        return Some(Stream::Output);
    }
    if is_among(name, ERRORS) {
        return Some(Stream::Errors);
    }
    None
}

/// An open file, whose place no other file takes.
#[derive(Clone, Copy)]
pub(crate) struct Descriptor {
    /// Whether it is open in this program.
    pub(crate) is_own: bool,
    /// Its number in the program in which it is open.
    pub(crate) number: u32,
}

/// The open file of a number.
fn numbered(is_own: bool, digits: &str) -> Option<Descriptor> {
    match digits.parse::<u32>() {
        Ok(number) => Some(Descriptor { is_own, number }),
        Err(_) => None,
    }
}

/// Whether a name in `/proc` is that of a program: of this one, or of another; None if it isn't one.
fn is_own_process(process: &str, id: u32) -> Option<bool> {
    if process == "self" || process == "thread-self" {
        return Some(true);
    }
    match process.parse::<u32>() {
        Ok(number) => Some(number == id),
        Err(_) => None,
    }
}

/// The open file that a name stands for by itself, in the program of a number: `/dev/fd/N`, or `/proc/PROGRAM/fd/N`.
pub(crate) fn descriptor_of(name: &str, id: u32) -> Option<Descriptor> {
    if let Some(digits) = name.strip_prefix("/dev/fd/") {
        return numbered(true, digits);
    }
    let Some(path) = name.strip_prefix("/proc/") else {
        return None;
    };
    let Some((process, place)) = path.split_once('/') else {
        return None;
    };
    match (is_own_process(process, id), place.strip_prefix("fd/")) {
        (Some(is_own), Some(digits)) => numbered(is_own, digits),
        _ => None,
    }
}

/// The path of a folder, with the `/` at its end, and a name in it.
#[derive(Clone, Copy)]
struct Place<'a> {
    folder: &'a str,
    name: &'a str,
}

/// How many bytes of a path come before the name in its folder.
fn folder_length(path: &[u8]) -> usize {
    let mut length: usize = 0;
    let mut at: usize = 0;
    for byte in path {
        at = at.saturating_add(1);
        if *byte == b'/' {
            length = at;
        }
    }
    length
}

/// The folder and the name of a path.
fn place_of(path: &str) -> Place<'_> {
    let length = folder_length(path.as_bytes());
    match (path.get(..length), path.get(length..)) {
        (Some(folder), Some(name)) => Place { folder, name },
        _ => Place {
            folder: "",
            name: path,
        },
    }
}

/// The beginning of a name, of at most so many bytes, which ends with a character.
fn beginning_of(name: &str, most: usize) -> &str {
    if name.len() <= most {
        return name;
    }
    for cut in 0..MOST_OF_CHARACTER {
        if let Some(beginning) = name.get(..most.saturating_sub(cut)) {
            return beginning;
        }
    }
    ""
}

/// A checksum of a name, by which long names with one beginning have drafts of different names.
fn checksum(name: &str) -> u64 {
    let mut sum: u64 = 14_695_981_039_346_656_037;
    for byte in name.as_bytes() {
        sum = (sum ^ u64::from(*byte)).wrapping_mul(1_099_511_628_211);
    }
    sum
}

/// The path of a draft beside a file: `NAME.part.PID`, or for a name that is too long for that
/// `BEGINNING.CHECKSUM.part.PID`, with its beginning and its checksum.
pub(crate) fn part_of(alloc: Global, whole: &str, id: u32) -> Result<String, AllocError> {
    let place = place_of(whole);
    let (folder, name) = (place.folder, place.name);
    let end = format!(in alloc; ".part.{id}")?;
    if name.len().saturating_add(end.len()) <= MOST_OF_NAME {
        return format!(in alloc; "{folder}{name}{end}");
    }
    let sum = checksum(name);
    let beginning = beginning_of(name, MOST_OF_SHORTENED.saturating_sub(end.len()));
    format!(in alloc; "{folder}{beginning}.{sum}{end}")
}

/// The path to which a link leads.
pub(crate) fn led_to(alloc: Global, link: &str, to: &str) -> Result<String, AllocError> {
    if to.as_bytes().starts_with(b"/") {
        return String::from_str(alloc, to);
    }
    let folder = place_of(link).folder;
    format!(in alloc; "{folder}{to}")
}
