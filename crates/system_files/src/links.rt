//! Links, followed to what they lead to, also where nothing is there yet.

use crate::names::led_to;
use std::alloc::Global;
use std::io::{Error, ErrorKind};
use std::{fs, io};

/// Out of memory, as an error of the system.
pub(crate) fn no_memory() -> Error {
    Error::from(ErrorKind::OutOfMemory)
}

/// The most links that lead from one to the next.
const MOST_LINKS: u32 = 40;

/// Whether reading a link failed since the path is none, or leads to nothing.
fn is_no_link(kind: ErrorKind) -> bool {
    kind == ErrorKind::InvalidInput || kind == ErrorKind::NotFound
}

/// The path to which a path leads, if that is a link.
fn next_of(rt: &HostRuntime, alloc: Global, path: &str) -> io::Result<Option<String>> {
    let to = match fs::read_link(rt, path) {
        Ok(to) => to,
        Err(error) if is_no_link(error.kind()) => return Ok(None),
        Err(error) => return Err(error),
    };
    match led_to(alloc, path, to.as_str()) {
        Ok(next) => Ok(Some(next)),
        Err(_) => Err(no_memory()),
    }
}

/// The path at the end of the links of a name that leads to no file yet.
pub(crate) fn end_of(rt: &HostRuntime, alloc: Global, name: &str) -> io::Result<String> {
    let Ok(mut path) = String::from_str(alloc, name) else {
        return Err(no_memory());
    };
    for _link in 0..MOST_LINKS {
        let Some(next) = next_of(rt, alloc, path.as_str())? else {
            return Ok(path);
        };
        path = next;
    }
    Ok(path)
}
