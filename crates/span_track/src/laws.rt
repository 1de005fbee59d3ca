//! The definitions as plain programs, and the facts that hold of every list of spans.
ghost use Rattle.std.specs.Prelude.{◌≡◌, nat_eq};
ghost use Rattle.span_track.specs.{self_of, busy_time};

use crate::thread::ThreadTrack;
use span_closed_spans::walk;
pub use span_self_time::laws::self_law;

/// The self times of the spans of one name, in ticks, found by walking through each of these spans.
pub fn self_plain(track: &ThreadTrack, name: u32) -> u64
    ensures { result ≡ self_of nat_eq name track.now.closed }
{
    walk::self_of(track.spans(), name)
}

/// The busy time, in ticks, found by walking through the time from the first span to the last.
pub fn busy_plain(track: &ThreadTrack) -> u64
    ensures { result ≡ busy_time track.now.closed }
{
    walk::busy_time(track.spans())
}
