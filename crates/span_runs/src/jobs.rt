//! Places of a list that several jobs share.
ghost use Rattle.std.specs.{Prelude.{◌<◌, ◌≤◌, length}, Thread.IsSync};
ghost use Rattle.span_runs.specs.Jobs.{Divided, TakesUpTo};

use crate::cuts::cut;
use std::sync::atomic::{AtomicU64, Ordering};
use std::thread::{Threads, join_mut};

/// In how many jobs at once files are gathered, and whether each puts what it gathers in order before that is joined, which pays where all
/// is wanted in order. Nothing but time depends on either.
#[derive(Clone, Copy)]
pub struct Jobs {
    pub most: u32,
    pub sort: bool,
}

/// A place at which a job stopped, which the others look at.
#[derive(Drop)]
pub struct Stopped {
    place: AtomicU64,
}

impl Stopped {
    /// No job has stopped.
    pub fn nowhere() -> Stopped {
        Stopped {
            place: AtomicU64::new(u64::MAX),
        }
    }

    /// A job has stopped here.
    pub fn at(&self, place: u64) {
        self.place.store(place, Ordering::SeqCst);
    }

    /// Whether a job has stopped before this place.
    pub fn is_before(&self, place: u64) -> bool {
        self.place.load(Ordering::SeqCst) < place
    }
}

// Some places of a list, which has these sizes, and how many jobs share them.
#[derive(Clone, Copy)]
struct Part<'a> {
    sizes: &'a [u64],
    from: usize,
    to: usize,
    jobs: u32,
}

/// Divides the places of a list, under which there are thought to be so many bytes, among so many jobs: each takes some, one after
/// another, and what comes of two neighbouring parts is joined. Nothing but time depends on the sizes and on how many jobs there are.
pub fn in_jobs<
    X: Send,
    F: Fn(usize, usize) -> X + Sync,
    J: Fn(X, X) -> X + Sync,
    R: Threads + Sync,
>(rt: &R, sizes: &[u64], jobs: u32, take: &F, joined: &J) -> X
    requires take { TakesUpTo (F.pre take.now) (length sizes.now) }
    requires joined { J.IsAlwaysCallable joined.now }
    ensures { Divided (F.post take.now) (J.post joined.now) 0 (length sizes.now) result }
{
    let all = Part {
        sizes,
        from: 0,
        to: sizes.len(),
        jobs,
    };
    take_part(rt, all, take, joined)
}

// Takes these places, in two parts where there are jobs for both.
#[cycle(jobs)]
fn take_part<X: Send, F: Fn(usize, usize) -> X + Sync, J: Fn(X, X) -> X + Sync, R: Threads + Sync>(
    rt: &R,
    part: Part,
    take: &F,
    joined: &J,
) -> X
    requires part { (part.from ≤ part.to) × (part.to ≤ length part.sizes.now) }
    requires take { TakesUpTo (F.pre take.now) (length part.sizes.now) }
    requires joined { J.IsAlwaysCallable joined.now }
    ensures { Divided (F.post take.now) (J.post joined.now) part.entry.from part.entry.to result }
{
    if part.jobs < 2 || part.to - part.from < 2 {
        return take(part.from, part.to);
    }
    let half = part.jobs / 2;
    let middle = part.from + cut(&part.sizes[part.from..part.to], half, part.jobs);
    let front = Part {
        sizes: part.sizes,
        from: part.from,
        to: middle,
        jobs: half,
    };
    let back = Part {
        sizes: part.sizes,
        from: middle,
        to: part.to,
        jobs: part.jobs - half,
    };
    let (first, second) = take_both(rt, front, back, take, joined);
    joined(first, second)
}

// Takes two parts at once.
#[cycle(jobs)]
fn take_both<X: Send, F: Fn(usize, usize) -> X + Sync, J: Fn(X, X) -> X + Sync, R: Threads + Sync>(
    rt: &R,
    front: Part,
    back: Part,
    take: &F,
    joined: &J,
) -> (X, X)
    requires front { (front.from ≤ front.to) × (front.to ≤ length front.sizes.now) }
    requires back { (back.from ≤ back.to) × (back.to ≤ length back.sizes.now) }
    requires jobs { (0 < front.jobs) × (0 < back.jobs) }
    requires take_front { TakesUpTo (F.pre take.now) (length front.sizes.now) }
    requires take_back { TakesUpTo (F.pre take.now) (length back.sizes.now) }
    requires joined { J.IsAlwaysCallable joined.now }
    ensures front { Divided (F.post take.now) (J.post joined.now) front.entry.from front.entry.to result.0 }
    ensures back { Divided (F.post take.now) (J.post joined.now) back.entry.from back.entry.to result.1 }
{
    join_mut(
        rt,
        &mut || -> X
            requires sync { IsSync R.row × IsSync F.row × IsSync J.row }
            requires part { (front.from ≤ front.to) × (front.to ≤ length front.sizes.now) }
            requires take { TakesUpTo (F.pre take.now) (length front.sizes.now) }
            requires joined { J.IsAlwaysCallable joined.now }
            ensures { Divided (F.post take.entry.now) (J.post joined.entry.now)
                front.entry.from front.entry.to result }
        { take_part(rt, front, take, joined) },
        &mut || -> X
            requires sync { IsSync R.row × IsSync F.row × IsSync J.row }
            requires part { (back.from ≤ back.to) × (back.to ≤ length back.sizes.now) }
            requires take { TakesUpTo (F.pre take.now) (length back.sizes.now) }
            requires joined { J.IsAlwaysCallable joined.now }
            ensures { Divided (F.post take.entry.now) (J.post joined.entry.now)
                back.entry.from back.entry.to result }
        { take_part(rt, back, take, joined) },
    )
}
