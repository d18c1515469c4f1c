//! The folder of a test, and what its files hold.

use ept_base::Source;
use std::alloc::{AllocError, Global};
use std::test::Fail;
use std::{env, fs};

/// Puts a test into an empty folder of its own.
pub(crate) fn enter(rt: &HostRuntime, name: &str) -> Result<(), Fail> {
    let folder = format!(in rt.alloc(); "out/tests/{name}")?;
    let _absent = fs::remove_dir_all(rt, folder.as_str());
    fs::create_dir_all(rt, folder.as_str())?;
    env::set_current_dir(rt, folder.as_str())?;
    Ok(())
}

/// Bytes in which no block of 64 KiB is like the next.
pub(crate) fn pattern(alloc: Global, length: u32) -> Result<Vec<u8>, AllocError> {
    let mut bytes = Vec::new(alloc);
    for i in 0..length {
        bytes.push((i % 251) as u8)?;
    }
    Ok(bytes)
}

/// Whether a source gives these bytes up to its end, by reads into this buffer.
pub(crate) fn gives<S: Source>(source: &mut S, bytes: &[u8], into: &mut [u8]) -> bool {
    let mut rest = bytes;
    for _ in 0..u64::MAX {
        match read_one(source, rest, into) {
            Some((0, _)) => return rest.is_empty(),
            Some((_, more)) => rest = more,
            None => return false,
        }
    }
    false
}

// How many bytes one read gives, and which of these are left. `None` if it fails or gives others.
fn read_one<'a, S: Source>(
    source: &mut S,
    rest: &'a [u8],
    into: &mut [u8],
) -> Option<(usize, &'a [u8])> {
    let count = source.read(into).ok()?;
    Some((count, rest.strip_prefix(&into[..count])?))
}
