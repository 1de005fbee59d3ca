//! Names as frames of a line.
ghost use Rattle.std.specs.Prelude.{◌≡◌, ◌++◌, map, OnOk};
ghost use Rattle.span_report.specs.Stacks.Frames.{frame, frame_byte, owner_frame};

use span_event::Text;
use std::alloc::{AllocError, Global};

/// Appends a name as a frame of a line: `-` where it is empty.
#[tactic(auto, unfolding(crate::specs::Stacks::Frames::frame))]
pub fn put_frame(out: &mut Vec<u8>, name: &Text) -> Result<(), AllocError>
    ensures { OnOk result (out.new.items ≡ out.old.items ++ frame name.now) }
{
    let bytes = name.as_str().as_bytes();
    if bytes.is_empty() {
        out.push(b'-')?;
        return Ok(());
    }
    put_bytes(out, bytes)
}

fn put_bytes(out: &mut Vec<u8>, bytes: &[u8]) -> Result<(), AllocError>
    ensures { OnOk result (out.new.items ≡ out.old.items ++ map frame_byte bytes.now) }
{
    for byte in bytes {
        out.push(frame_byte(*byte))?;
    }
    Ok(())
}

fn frame_byte(byte: u8) -> u8
    ensures { result ≡ frame_byte byte }
{
    match byte {
        b';' => b':',
        0..32 => b' ',
        _ => byte,
    }
}

// The name of a process or a thread, or its number where it has none.
#[tactic(auto, unfolding(crate::specs::Stacks::Frames::owner_frame))]
pub(crate) fn put_owner(
    alloc: Global,
    out: &mut Vec<u8>,
    number: i64,
    name: &Option<Text>,
) -> Result<(), AllocError>
    ensures { OnOk result (out.new.items ≡ out.old.items ++ owner_frame number name.now) }
{
    match name {
        Some(name) => put_frame(out, name),
        None => out.extend_from_slice(format!(in alloc; "{number}")?.as_bytes()),
    }
}
