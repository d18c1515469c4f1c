//! A folder of two points, on the machine's disk and in memory.

use ept_mem::MemStore;
use std::alloc::{AllocError, Global};
use std::{fs, io};

// The names of its files, and what they contain. The points are at 1 and at 3, of 0 to 7 on each axis.
static FILES: [(&str, &[u8]); 6] = [
    ("ept-work/done-2", b"\x01"),
    ("ept.json", b"{\"a\":1}"),
    (
        "ept-build.json",
        b"{\"scale\":2,\"offset\":[0,0,0],\"bounds\":[0,0,0,7,7,7],\"span\":2,\"minNodeSize\":0,\"maxDepth\":32,\"hierarchyStep\":0,\"srs\":{},\"input\":[{\"path\":\"a.las\",\"scale\":2,\"shift\":[0,0,0]}]}",
    ),
    (
        "ept-hierarchy/0-0-0-0.json",
        b"{\"0-0-0-0\":1,\"1-0-0-0\":1}",
    ),
    (
        "ept-data/0-0-0-0.bin",
        b"\x01\0\0\0\x01\0\0\0\x01\0\0\0\0\0\0\0\0\0\0\0\0\0\0\0\0\0\0\0\0\0\0\0\0\0\0\0\0\0\0\0\0\0\0\0\0\0\0\0\0\0\0\0\0",
    ),
    (
        "ept-data/1-0-0-0.bin",
        b"\x03\0\0\0\x03\0\0\0\x03\0\0\0\0\0\0\0\0\0\0\0\0\0\0\0\0\0\0\0\0\0\0\0\0\0\0\0\0\0\0\0\0\0\0\0\0\x01\0\0\0\0\0\0\0",
    ),
];

/// Makes a folder of these files and no others.
pub(crate) fn make_folder(rt: &HostRuntime, out: &str) -> io::Result<()> {
    let _absent = fs::remove_dir_all(rt, out);
    for folder in ["ept-work", "ept-hierarchy", "ept-data"] {
        fs::create_dir_all(rt, format!(in rt.alloc(); "{out}/{folder}")?.as_str())?;
    }
    for (name, bytes) in FILES {
        fs::write(rt, format!(in rt.alloc(); "{out}/{name}")?.as_str(), bytes)?;
    }
    Ok(())
}

/// A store in memory of the same files.
pub(crate) fn store_of(alloc: Global) -> Result<MemStore, AllocError> {
    let mut files = Vec::new(alloc);
    for (name, bytes) in FILES {
        files.push(file_of(alloc, name, bytes)?)?;
    }
    Ok(MemStore::new(alloc, files, Vec::new(alloc)))
}

fn file_of(alloc: Global, name: &str, bytes: &[u8]) -> Result<(String, Vec<u8>), AllocError> {
    Ok((
        String::from_str(alloc, name)?,
        Vec::from_slice(alloc, bytes)?,
    ))
}
