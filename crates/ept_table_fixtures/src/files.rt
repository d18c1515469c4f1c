//! Files of points in memory.

use ept_mem::MemShelf;
use std::alloc::{AllocError, Global};

// Writes bytes at a place of a file.
fn put(file: &mut [u8], at: usize, bytes: &[u8]) {
    for (to, from) in file.iter_mut().skip(at).zip(bytes) {
        *to = *from;
    }
}

/// A LAS 1.2 file of point format 0 with points at these places. All else of the points is zero.
pub fn las(alloc: Global, places: &[[i32; 3]]) -> Result<Vec<u8>, AllocError> {
    let mut file = vec![in alloc; 0u8; 227]?;
    let bytes = file.as_mut_slice();
    put(bytes, 0, b"LASF");
    put(bytes, 24, &[1, 2]);
    put(bytes, 94, &[227]);
    put(bytes, 96, &[227]);
    put(bytes, 105, &[20]);
    put(bytes, 107, &(places.len() as u64).to_le_bytes()[..4]);
    for place in places {
        for coordinate in place {
            file.extend_from_slice(&coordinate.to_le_bytes())?;
        }
        file.extend_from_slice(&[0; 8])?;
    }
    Ok(file)
}

/// A shelf with one file, `a.las`, of points at these places.
pub fn shelf_of(alloc: Global, places: &[[i32; 3]]) -> Result<MemShelf, AllocError> {
    let mut files = Vec::new(alloc);
    files.push((String::from_str(alloc, "a.las")?, las(alloc, places)?))?;
    Ok(MemShelf::new(alloc, files, Vec::new(alloc), Vec::new(alloc)))
}
