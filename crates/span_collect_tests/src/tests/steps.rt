//! A gate that holds the callers of a collection to an order of their steps. There are two files of two items each, and two queries. A
//! worker's steps are its reading and each of its items, those of the asking thread, which is the last caller, its queries.
use span_collect::Gate;
use std::sync::atomic::{AtomicBool, AtomicU32, Ordering};
use std::thread;

/// For each caller and each of its steps, to how many of its steps each caller must have come before this one goes on.
pub type Order = [[[u32; 3]; 3]; 3];

/// Nobody waits.
pub const FREE: Order = [[[0; 3]; 3]; 3];

const TURNS: u32 = 50_000_000;

#[derive(Drop)]
pub struct Steps<'a> {
    order: &'a Order,
    first: AtomicU32,
    second: AtomicU32,
    asking: AtomicU32,
    // Whether a caller waited in vain, or came to a step that isn't its next.
    wrong: AtomicBool,
}

impl<'a> Steps<'a> {
    pub fn new(order: &'a Order) -> Steps<'a> {
        Steps {
            order,
            first: AtomicU32::new(0),
            second: AtomicU32::new(0),
            asking: AtomicU32::new(0),
            wrong: AtomicBool::new(false),
        }
    }

    // The steps that a caller came to.
    fn count_of(&self, caller: u32) -> Option<&AtomicU32> {
        match caller {
            0 => Some(&self.first),
            1 => Some(&self.second),
            2 => Some(&self.asking),
            _ => None,
        }
    }

    fn counts(&self) -> [u32; 3] {
        [&self.first, &self.second, &self.asking].map(|count| count.load(Ordering::SeqCst))
    }

    /// Whether each caller came to these many steps, one after the other.
    pub fn are(&self, counts: [u32; 3]) -> bool {
        self.counts() == counts && !self.wrong.load(Ordering::SeqCst)
    }

    fn have_come(&self, needs: &[u32; 3]) -> bool {
        let counts = self.counts();
        counts.iter().zip(needs).all(|(count, need)| need <= count)
    }

    fn wait_for(&self, needs: &[u32; 3]) {
        for _ in 0..TURNS {
            if self.have_come(needs) {
                return;
            }
            thread::yield_now();
        }
        self.wrong.store(true, Ordering::SeqCst);
    }

    fn come_to(&self, caller: u32, step: u32) {
        let (count, order) = (self.count_of(caller), self.order);
        let orders = order.get(caller as usize);
        let needs = orders.and_then(|steps| steps.get(step as usize));
        let (Some(count), Some(needs)) = (count, needs) else {
            self.wrong.store(true, Ordering::SeqCst);
            return;
        };
        if count.load(Ordering::SeqCst) != step {
            self.wrong.store(true, Ordering::SeqCst);
        }
        count.store(step.wrapping_add(1), Ordering::SeqCst);
        self.wait_for(needs);
    }
}

impl<'a> Gate for Steps<'a> {
    fn read(&self, worker: u32) {
        self.come_to(worker, 0);
    }

    fn pass(&self, worker: u32, call: u32) {
        let read = if worker < 2 { 1 } else { 0 };
        self.come_to(worker, call.wrapping_add(read));
    }
}
