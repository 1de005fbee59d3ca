//! What the calls of a track give that no ledger makes, and how large an event is.
mod placed;

use placed::Placed;
use span_journal::Entry;
use span_ledger::{Args, Item};
use span_self_time::Segment;
use span_track::laws::{busy_plain, self_plain};
use span_track::{ThreadTrack, TrackFault, Wanted};
use std::alloc::{AllocGlobal, Global};
use std::mem::size_of;
use std::process::Abort;
use std::test::Fail;

// An event costs as many bytes as these, in a file's list of items and then in the journal.
#[test]
fn events_take_little_room(rt: HostRuntime) -> Result<(), Fail> {
    let (item, entry) = (size_of::<Item>(), size_of::<Entry>());
    println!(rt; "an item has {item} bytes, an entry {entry}")?;
    assert!(rt; item <= 128);
    assert!(rt; entry <= 184);
    Ok(())
}

// Whole spans: the name, the start and the length of each; and the segments of a track that was told them: the start, the end, the
// name and the place of each.
struct Divided {
    spans: &'static [(u32, i64, u64)],
    segments: &'static [(i64, i64, u32, u32)],
}

const LONGEST: u64 = 9_007_199_254_740_991;

const DIVIDED: [Divided; 5] = [
    // A child that came first.
    Divided {
        spans: &[(2, 2, 3), (3, 0, 10)],
        segments: &[(0, 2, 3, 1), (2, 5, 2, 0), (5, 10, 3, 1)],
    },
    // A span that takes from two.
    Divided {
        spans: &[(0, 0, 10), (1, 20, 10), (2, 5, 20)],
        segments: &[(0, 5, 0, 0), (5, 20, 2, 2), (20, 30, 1, 1)],
    },
    // Spans that cross.
    Divided {
        spans: &[(3, 0, 10), (4, 5, 10)],
        segments: &[(0, 5, 3, 0), (5, 15, 4, 1)],
    },
    // Equal spans and an empty one.
    Divided {
        spans: &[(0, 0, 4), (1, 0, 4), (5, 9, 0)],
        segments: &[(0, 4, 1, 1)],
    },
    // The longest span twice.
    Divided {
        spans: &[(7, 0, LONGEST), (7, 0, LONGEST)],
        segments: &[(0, LONGEST as i64, 7, 1)],
    },
];

fn complete_all(
    rt: &impl Abort,
    placed: &mut Placed,
    spans: &[(u32, i64, u64)],
) -> Result<(), TrackFault> {
    for (name, start, length) in spans {
        assert!(rt; 0 <= *start && *start <= LONGEST as i64 && *length <= LONGEST);
        placed.complete(rt, *name, *start, *length)?;
    }
    Ok(())
}

// The track has just these segments, and its running times are those that plain walks find.
fn expect_segments(rt: &impl Abort, track: &ThreadTrack, segments: &[(i64, i64, u32, u32)]) {
    assert_eq!(rt; track.segment_count(), segments.len() as u64);
    for (i, (start, until, name, at)) in segments.iter().enumerate() {
        let expected = Segment {
            start: *start,
            until: *until,
            name: *name,
            at: *at,
        };
        assert_eq!(rt; track.segment(i as u64), Some(&expected), "segment {i}");
    }
    assert_eq!(rt; track.segment(segments.len() as u64), None);
    for name in 0..8u32 {
        assert_eq!(rt; self_plain(track, name), track.self_of(name), "name {name}");
    }
    assert_eq!(rt; busy_plain(track), track.busy());
}

fn expect_divided(rt: &(impl Abort + AllocGlobal), divided: &Divided) -> Result<(), Fail> {
    let mut placed = Placed::new(rt.alloc());
    let told = complete_all(rt, &mut placed, divided.spans);
    if told.is_ok() {
        expect_segments(rt, placed.track(), divided.segments);
    }
    drop(placed);
    Ok(told?)
}

#[test]
fn segments_belong_to_one_span(rt: HostRuntime) -> Result<(), Fail> {
    for divided in &DIVIDED {
        expect_divided(&rt, divided)?;
    }
    Ok(())
}

// A track on which a span of name 0 began at 0.
fn begun(alloc: Global) -> Result<ThreadTrack, TrackFault> {
    let mut track = ThreadTrack::new(alloc);
    match track.begin_span(0, 0, 0, &Args::empty(alloc)) {
        Ok(_) => Ok(track),
        Err(fault) => {
            drop(track);
            Err(fault)
        }
    }
}

// Ends that want another name or none, and then one that wants the name.
fn end_all(rt: &(impl Abort + AllocGlobal), track: &mut ThreadTrack) -> Result<(), TrackFault> {
    let args = &Args::empty(rt.alloc());
    assert_eq!(rt; track.begin_refusal(-1), Some(22));
    assert_eq!(rt; track.begin_refusal(0), None);
    for (ts, wanted, number) in [
        (-1, Wanted::Name(1), 22),
        (5, Wanted::Name(1), 27),
        (5, Wanted::NoName, 27),
    ] {
        let refused = track.end_span(ts, wanted, args);
        assert!(rt; matches!(refused, Err(TrackFault::Refused(code)) if code == number));
        assert_eq!(rt; track.depth(), 1);
    }
    let span = track.end_span(5, Wanted::Name(0), args)?;
    assert!(rt; span.name == 0 && span.start == 0 && span.until == 5);
    assert_eq!(rt; track.end_refusal(6, Wanted::Any), Some(21));
    Ok(())
}

#[test]
fn an_end_wants_a_name(rt: HostRuntime) -> Result<(), Fail> {
    let mut track = begun(rt.alloc())?;
    let ended = end_all(&rt, &mut track);
    drop(track);
    Ok(ended?)
}
