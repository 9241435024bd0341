//! Files that are read whole.
use dg_bytes::Bytes;
use std::fs::{self, OpenFile};
use std::io::{self, Read};
use std::rt::Files;

/// The bytes of an open file, at most `limit` of them: as many as it was long when it was asked, and all that come of one that
/// has no length, as a pipe has none. Room is made once, and the end of a file that has a length is not read for.
fn read_open<R: Files + AllocGlobal>(
    rt: &R,
    file: R::File,
    length: u64,
    limit: u64,
) -> io::Result<Bytes> {
    let most = match length {
        0 => limit,
        _ => length.min(limit),
    };
    let room = length.min(limit).saturating_add(1);
    let mut bytes = Vec::with_capacity(rt.alloc(), room as usize)?;
    file.take(most).read_to_end(&mut bytes)?;
    Ok(Bytes::from_vec(bytes))
}

/// The bytes of a file, at most `limit` of them.
pub(crate) fn read_file<R: Files + AllocGlobal>(
    rt: &R,
    path: &str,
    limit: u64,
) -> io::Result<Bytes> {
    let file = fs::open(rt, path)?;
    let length = file.metadata()?.len();
    read_open(rt, file, length, limit)
}

/// The bytes of a file that has so many, or nothing where it has more or fewer.
pub(crate) fn read_as_long<R: Files + AllocGlobal>(
    rt: &R,
    path: &str,
    length: u64,
) -> io::Result<Option<Bytes>> {
    let file = fs::open(rt, path)?;
    if file.metadata()?.len() != length {
        return Ok(None);
    }
    Ok(Some(read_open(rt, file, length, length)?))
}
