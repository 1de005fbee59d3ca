//! Gives the spans of a trace, read from standard input, to the track of one thread, whatever threads they are on, and prints
//! what they come to: a program to be timed. To standard error go the nanoseconds that the track took to keep the events, and
//! then to give its busy time and the self time of each name; reading isn't among them.
#![tactic(auto)]

mod step;
mod tracking;

use span_read::read_items;
use span_track::ThreadTrack;
use std::io::{self, Read};
use std::time::Instant;
use step::{Step, steps_of};
use tracking::track_of;

// The self times of the first `names` names together: the busy time, where all spans have one of them.
fn own_times(track: &ThreadTrack, names: u32) -> u64 {
    let mut sum = 0u64;
    for name in 0..names {
        sum = sum.saturating_add(track.self_of(name));
    }
    sum
}

// What the track comes to, and how long it took to keep the events and to give that.
fn show(rt: &HostRuntime, track: &ThreadTrack, names: u32, keeping: u128) -> io::Result<()> {
    let start = Instant::now(rt)?;
    let busy = track.busy();
    let own = own_times(track, names);
    let giving = start.elapsed(rt)?.as_nanos();
    eprintln!(rt; "{keeping} {giving}")?;
    let (closed, open) = (track.closed_count(), track.depth());
    println!(rt; "closed {closed} open {open} busy {busy} own {own}")
}

fn keep(rt: &HostRuntime, steps: &[Step], names: u32) -> io::Result<()> {
    let start = Instant::now(rt)?;
    match track_of(rt.alloc(), steps) {
        Ok(track) => {
            let keeping = start.elapsed(rt)?.as_nanos();
            let shown = show(rt, &track, names, keeping);
            drop(track);
            shown
        }
        Err(fault) => println!(rt; "{fault:?}"),
    }
}

fn main(rt: HostRuntime) -> io::Result<()> {
    let alloc = rt.alloc();
    let mut bytes = Vec::new(alloc);
    rt.stdin().read_to_end(&mut bytes)?;
    match read_items(alloc, &bytes) {
        Ok(items) => {
            let (steps, names) = steps_of(alloc, items)?;
            let shown = keep(&rt, &steps, names);
            drop(steps);
            shown
        }
        Err(error) => println!(rt; "{error}"),
    }
}
