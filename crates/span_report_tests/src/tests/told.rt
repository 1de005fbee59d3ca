//! Ledgers that are told the elements of a text.
ghost use Rattle.span_journal.specs.Legal.{IsGoodOp};

use span_journal::Op;
use span_ledger::Ledger;
use span_read::read_items;
use std::alloc::Global;

// Whether the ledger takes the operation. (Who lets go of an answer by a call of its own has one way to go on.)
fn takes(ledger: &mut Ledger, op: Op) -> bool
    requires { IsGoodOp op }
{
    match ledger.apply(1, op) {
        Ok(answer) => {
            drop(answer);
            true
        }
        Err(back) => {
            drop(back);
            false
        }
    }
}

fn takes_all(alloc: Global, ledger: &mut Ledger, text: &str) -> bool {
    let Ok(items) = read_items(alloc, text.as_bytes()) else {
        return false;
    };
    for item in items.into_list() {
        if !takes(ledger, Op::One(item)) {
            return false;
        }
    }
    true
}

/// A ledger that took each element of the text. None where it is no trace, or memory was refused.
pub(super) fn told(alloc: Global, text: &str) -> Option<Ledger> {
    let mut ledger = Ledger::new(alloc, 100, false);
    if takes_all(alloc, &mut ledger, text) {
        Some(ledger)
    } else {
        drop(ledger);
        None
    }
}
