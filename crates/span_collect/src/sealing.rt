//! The seals that close what is open once all files are told.
ghost use Rattle.std.specs.Prelude.{◌≡◌, ◌<◌, ◌^◌, All, IfOk, IfSome};
ghost use Rattle.span_collect.specs.{IsGoodOp, IsLawful, Seals.{AddsSeals, SealsAfter, seal_for, seals_of}};

use span_journal::{Cause, Op, ThreadRow};
use span_ledger::Ledger;
use std::alloc::{AllocError, Global};
use std::marker::Model;

/// The number under which seals stand in the journal, which is that of the queries.
const CALLER: u32 = 0;

/// How far the seals came: they are told in order until one is refused.
#[derive(Clone, Copy, Debug, PartialEq, Eq)]
pub struct Sealing {
    /// How many stand in the journal.
    pub done: u32,
    /// Why the next one was not taken, 31 Memory or 32 Full; 31 also where memory for the list of seals was refused, and none was
    /// told. None where all were taken.
    pub cause: Option<Cause>,
}

// The seal of one thread, in a fifth of the memory of the operation, which also has room for an event: there may be millions.
#[derive(Drop)]
struct ThreadSeal {
    pid: i64,
    tid: i64,
    ts: i64,
}

impl Model for ThreadSeal {
    ghost use Rattle.span_collect.specs.{Op, Seal};

    ghost Value = { Op };

    ghost view = { λ s. Seal s.pid s.tid s.ts };
}

impl ThreadSeal {
    fn to_op(&self) -> Op
        ensures { result ≡ self.now }
    {
        Op::Seal {
            pid: self.pid,
            tid: self.tid,
            ts: self.ts,
        }
    }
}

// Where it is wanted, seals each thread that has an open span.
pub(crate) fn seal_open_spans(alloc: Global, wanted: bool, ledger: &mut Ledger) -> Sealing
    requires { ledger.old.limit < 2 ^ 32 }
    ensures sealed { SealsAfter wanted ledger.old.strict ledger.old.limit ledger.old.journal
        ledger.new.journal result }
    ensures lawful { IsLawful ledger.old → IsLawful ledger.new }
    ensures limit { ledger.new.limit ≡ ledger.old.limit }
    ensures strict { ledger.new.strict ≡ ledger.old.strict }
{
    if !wanted {
        return Sealing {
            done: 0,
            cause: None,
        };
    }
    match seals_of(alloc, ledger) {
        Ok(seals) => tell_all(ledger, seals),
        Err(_) => Sealing {
            done: 0,
            cause: Some(Cause::Memory),
        },
    }
}

// The seals of the ledger's journal.
fn seals_of(alloc: Global, ledger: &Ledger) -> Result<Vec<ThreadSeal>, AllocError>
    ensures seals { IfOk result (λ seals. seals.items ≡ seals_of ledger.now.journal) }
    ensures good { IfOk result (λ seals. All IsGoodOp seals.items) }
{
    let mut seals = Vec::new(alloc);
    for row in &ledger.threads(alloc)? {
        if let Some(seal) = seal_for(ledger, row) {
            seals.push(seal)?;
        }
    }
    Ok(seals)
}

// The seal of a thread, if it has an open span.
fn seal_for(ledger: &Ledger, row: &ThreadRow) -> Option<ThreadSeal>
    ensures seal { result ≡ seal_for ledger.now.journal row.now }
    ensures good { IfSome result IsGoodOp }
{
    if row.unclosed == 0 {
        return None;
    }
    match ledger.latest(row.pid, row.tid) {
        Some(ts) => Some(ThreadSeal {
            pid: row.pid,
            tid: row.tid,
            ts,
        }),
        None => None,
    }
}

// Tells the ledger these seals in order, until one is refused.
fn tell_all(ledger: &mut Ledger, seals: Vec<ThreadSeal>) -> Sealing
    requires small { ledger.old.limit < 2 ^ 32 }
    requires good { All IsGoodOp seals.items }
    ensures sealed { AddsSeals seals.items ledger.old.strict ledger.old.limit ledger.old.journal
        ledger.new.journal result }
    ensures lawful { IsLawful ledger.old → IsLawful ledger.new }
    ensures limit { ledger.new.limit ≡ ledger.old.limit }
    ensures strict { ledger.new.strict ≡ ledger.old.strict }
{
    let mut done: u32 = 0;
    for seal in seals {
        if let Err(back) = ledger.apply(CALLER, seal.to_op()) {
            return Sealing {
                done,
                cause: Some(back.cause),
            };
        }
        done += 1;
    }
    Sealing { done, cause: None }
}
