//! A line that is printed again.
ghost use Rattle.std.specs.Prelude.{◌≡◌, ◌↔◌, ◌++◌, ◌∷◌, [], IsTrue};

use json::Scratch;
use std::alloc::Global;

/// The memory that a line needs to be read and printed again. One is kept from line to line.
#[derive(Drop)]
pub(crate) struct LineRoom {
    pub(crate) scratch: Scratch,
    pub(crate) printed: Vec<u8>,
}

impl LineRoom {
    pub(crate) fn new(alloc: Global) -> LineRoom {
        LineRoom {
            scratch: Scratch::new(alloc),
            printed: Vec::new(alloc),
        }
    }
}

/// Whether what was printed is the line, with its end.
pub(crate) fn is_line(printed: &[u8], line: &str) -> bool
    ensures { IsTrue result ↔ line.now ++ 10 ∷ [] ≡ printed.now }
{
    match printed.split_last() {
        Some((last, content)) => *last == b'\n' && is_same(content, line.as_bytes()),
        None => false,
    }
}

fn is_same(one: &[u8], other: &[u8]) -> bool
    ensures { IsTrue result ↔ one.now ≡ other.now }
{
    one == other
}
