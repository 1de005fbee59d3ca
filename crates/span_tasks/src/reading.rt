//! Reads the bytes of an opened file.
ghost use Rattle.std.specs.Prelude.{◌≡◌, ◌↔◌, ◌+◌, ◌<◌, ◌≤◌, length, vec_len, IfOk, IsTrue};
ghost use Rattle.span_tasks.specs.{AreBegun, BeginOtherwise, Reading.Brings};

use span_runs::{Reason, SourceFault};
use std::alloc::Global;
use std::io::{self, ErrorKind, Read};

const CHUNK: usize = 65_536;

fn chunk_of(alloc: Global, size: usize) -> Result<Vec<u8>, SourceFault>
    ensures { IfOk result (λ chunk. vec_len chunk ≡ size) }
{
    match vec![in alloc; 0u8; size] {
        Ok(chunk) => Ok(chunk),
        Err(_) => Err(SourceFault::Memory),
    }
}

/// What the error says of a file.
pub(crate) fn reason_of(error: &io::Error) -> Reason {
    match error.kind() {
        ErrorKind::NotFound => Reason::Missing,
        ErrorKind::PermissionDenied => Reason::Denied,
        ErrorKind::IsADirectory => Reason::Folder,
        _ => Reason::Other,
    }
}

fn read_some<R: Read>(
    reader: &mut R,
    chunk: &mut [u8],
    bytes: &mut Vec<u8>,
) -> Result<usize, SourceFault>
    requires { 0 < length chunk.old }
    ensures brought { IfOk result
        (Brings (R.remaining reader.old) (R.remaining reader.new) bytes.old.items bytes.new.items) }
    ensures within { IfOk result (λ count. count ≤ length chunk.old) }
    ensures count { IfOk result (λ count. vec_len bytes.new ≡ vec_len bytes.old + count) }
{
    let count = match reader.read(chunk) {
        Ok(count) => count,
        Err(error) => return Err(SourceFault::NotOpened(reason_of(&error))),
    };
    match bytes.extend_from_slice(&chunk[..count]) {
        Ok(()) => Ok(count),
        Err(_) => Err(SourceFault::Memory),
    }
}

/// How much is read: no more than so many bytes. Of bytes that begin with another than this one, if there is one, some are enough.
#[derive(Clone, Copy)]
pub(crate) struct Extent {
    pub(crate) most: usize,
    pub(crate) first: Option<u8>,
}

/// Whether there is a byte that is wanted first, and these begin with another.
pub(crate) fn begins_otherwise(bytes: &[u8], first: Option<u8>) -> bool
    ensures { IsTrue result ↔ BeginOtherwise first bytes.now }
{
    let (Some(first), Some(byte)) = (first, bytes.first()) else {
        return false;
    };
    *byte != first
}

/// The bytes up to the end, as far as they are wanted. There is room for `likely` from the start; 0 where it isn't known how many
/// there are. A read that fails or is interrupted is not tried again.
pub(crate) fn read_up_to<R: Read>(
    alloc: Global,
    reader: &mut R,
    likely: usize,
    extent: Extent,
) -> Result<Vec<u8>, SourceFault>
    ensures begun { IfOk result (λ bytes.
        AreBegun extent.first extent.most (R.remaining reader.old) bytes.items) }
    ensures within { IfOk result (λ bytes. vec_len bytes ≤ extent.most) }
{
    let Extent { most, first } = extent;
    let mut chunk = chunk_of(alloc, CHUNK)?;
    let Ok(mut bytes) = Vec::with_capacity(alloc, likely.min(most)) else {
        return Err(SourceFault::Memory);
    };
    while bytes.len() < most {
        let room = CHUNK.min(most - bytes.len());
        if read_some(reader, &mut chunk[..room], &mut bytes)? == 0 {
            return Ok(bytes);
        }
        if begins_otherwise(&bytes, first) {
            return Ok(bytes);
        }
    }
    Ok(bytes)
}
