//! Connections over a link in memory, served from the folder.

use crate::escaped::push_escaped;
use crate::folder::Folder;
use crate::queries::push_damaged;
use crate::row::{RowError, cut, numbers};
use crate::turns::pieces_of;
use ept_conn::{End, serve_link};
use ept_mem::{MemLink, MemStore};
use std::alloc::Global;

/// `serve SIZE STORE LINK BYTES`: how the connection ends, and the bytes that it was sent. STORE and LINK list the
/// calls that fail.
pub(crate) fn serve(
    alloc: Global,
    folder: &Folder,
    text: &str,
    answer: &mut String,
) -> Result<(), RowError> {
    let (size, text) = cut(text)?;
    let (store, text) = cut(text)?;
    let (link, text) = cut(text)?;
    let mut store = folder.store(store)?;
    let pieces = pieces_of(alloc, size, text)?;
    let mut link = MemLink::new(alloc, pieces, numbers(alloc, link)?);
    serve_over(alloc, &mut link, &mut store, answer)
}

fn serve_over(
    alloc: Global,
    link: &mut MemLink,
    store: &mut MemStore,
    answer: &mut String,
) -> Result<(), RowError> {
    let end = serve_link(alloc, link, store);
    push_end(answer, &end)?;
    answer.push(' ')?;
    push_escaped(answer, link.written())?;
    Ok(())
}

/// Writes how a connection ended.
pub(crate) fn push_end(answer: &mut String, end: &End) -> Result<(), RowError> {
    match end {
        End::Closed => answer.push_str("Closed")?,
        End::LinkFault => answer.push_str("LinkFault")?,
        End::StoreFault => answer.push_str("StoreFault")?,
        End::Damaged { file } => push_damaged(answer, file)?,
        End::Memory => return Err(RowError::Memory),
    }
    Ok(())
}
