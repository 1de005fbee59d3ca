//! A ledger, and the lines that are performed on it.
ghost use Rattle.span_journal.specs.Legal.{IsGoodOp};

use crate::lines::{Fault, count_of, items_of, whole_of, word_of};
use crate::queries::query_of;
use crate::shown::{show_entries, show_rows, show_rows_by_process, show_thread};
use span_event::Unit;
use span_ledger::{Answer, Back, Cause, Ledger, Op};
use std::alloc::Global;

// How many entries a ledger may hold if no line says it.
const LIMIT: u32 = 1_000_000;
// What a thread can have seen lies between these times.
const EARLIEST: i64 = -4_611_686_018_427_387_903;

const LATEST: i64 = 9_223_372_036_854_775_806;

#[derive(Drop)]
pub(crate) struct Session {
    ledger: Ledger,
    unit: Unit,
}

impl Session {
    pub(crate) fn new(alloc: Global) -> Session {
        Session {
            ledger: Ledger::new(alloc, LIMIT, false),
            unit: Unit::Microseconds,
        }
    }

    /// Performs a line; nothing if it is empty or a comment.
    pub(crate) fn perform(&mut self, rt: &HostRuntime, line: &str) -> Result<(), Fault> {
        let (word, rest) = word_of(line);
        let (limit, strict) = (self.ledger.limit(), self.ledger.strict());
        match word {
            "" | "#" => Ok(()),
            "limit" => self.begin(rt.alloc(), count_of(rest)?.0, strict),
            "strict" => self.begin(rt.alloc(), limit, true),
            "nanoseconds" => {
                self.unit = Unit::Nanoseconds;
                Ok(())
            }
            "reserve" => Ok(self.ledger.reserve(count_of(rest)?.0)?),
            "tell" => self.tell(rt, rest),
            "seal" => self.seal(rt, rest),
            "ask" => self.ask(rt, rest),
            _ => self.show(rt, word, rest),
        }
    }

    // A ledger that takes the place of an empty one.
    fn begin(&mut self, alloc: Global, limit: u32, strict: bool) -> Result<(), Fault> {
        if !self.ledger.is_empty() {
            return Err(Fault::Line("this is for the first lines"));
        }
        self.ledger = Ledger::new(alloc, limit, strict);
        Ok(())
    }

    fn tell(&mut self, rt: &HostRuntime, text: &str) -> Result<(), Fault> {
        let (caller, text) = count_of(text)?;
        for item in items_of(rt.alloc(), self.unit, text)?.into_list() {
            apply(rt, &mut self.ledger, caller, Op::One(item))?;
        }
        Ok(())
    }

    fn seal(&mut self, rt: &HostRuntime, text: &str) -> Result<(), Fault> {
        let (caller, text) = count_of(text)?;
        let (pid, text) = whole_of(text)?;
        let (tid, text) = whole_of(text)?;
        let (ts, _) = whole_of(text)?;
        if ts < EARLIEST || LATEST < ts {
            return Err(Fault::Line("no thread can have seen this time"));
        }
        apply(rt, &mut self.ledger, caller, Op::Seal { pid, tid, ts })
    }

    fn ask(&mut self, rt: &HostRuntime, text: &str) -> Result<(), Fault> {
        let (caller, text) = count_of(text)?;
        let (word, text) = word_of(text);
        let query = query_of(rt.alloc(), self.unit, word, text)?;
        apply(rt, &mut self.ledger, caller, Op::Ask(query))
    }

    fn show(&self, rt: &HostRuntime, word: &str, text: &str) -> Result<(), Fault> {
        match word {
            "rows" => show_rows(rt, &self.ledger),
            "processes" => show_rows_by_process(rt, &self.ledger),
            "entries" => show_entries(rt, &self.ledger),
            "thread" => {
                let (pid, text) = whole_of(text)?;
                let (tid, _) = whole_of(text)?;
                show_thread(rt, &self.ledger, pid, tid)
            }
            _ => Err(Fault::Line("no line begins so")),
        }
    }
}

// Tells the ledger an operation, and prints its answer or what came back.
fn apply(rt: &HostRuntime, ledger: &mut Ledger, caller: u32, op: Op) -> Result<(), Fault>
    requires { IsGoodOp op }
{
    let printed = match apply_at_last(ledger, caller, op) {
        Ok(answer) => {
            let printed = println!(rt; "{answer:?}");
            drop(answer);
            printed
        }
        Err(back) => {
            let Back { op, cause } = back;
            let printed = println!(rt; "not taken, {}: {op:?}", cause.code());
            drop(op);
            printed
        }
    };
    Ok(printed?)
}

// An operation that was refused for want of memory came back and changed nothing: it is told once more.
fn apply_at_last(ledger: &mut Ledger, caller: u32, op: Op) -> Result<Answer, Back>
    requires { IsGoodOp op }
{
    match ledger.apply(caller, op) {
        Ok(answer) => Ok(answer),
        Err(back) => {
            if back.cause == Cause::Memory {
                ledger.apply(caller, back.op)
            } else {
                Err(back)
            }
        }
    }
}
