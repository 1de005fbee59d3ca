//! The words of faults, by their numbers.
ghost use Rattle.std.specs.Prelude.{◌≡◌, option_copied, string_bytes, IfOk};
ghost use Rattle.span_collect.specs.Words.{numbered, word_of_number};

use span_event::Fault;
use std::alloc::{AllocError, Global};

/// The word of a fault's number; None for every number that no fault has.
pub fn fault_word(code: u16) -> Option<&'static str>
    ensures { option_copied result ≡ word_of_number code }
{
    let fault = Fault::of_code(code)?;
    Some(fault.word())
}

/// The number, and its word where it has one.
#[tactic(auto, unfolding(crate::specs::Words::numbered))]
pub fn numbered_text(alloc: Global, code: u16) -> Result<String, AllocError>
    ensures { IfOk result (λ s. string_bytes s ≡ numbered code) }
{
    match fault_word(code) {
        Some(word) => format!(in alloc; "{code} {word}"),
        None => format!(in alloc; "{code}"),
    }
}
