//! What a table sums, and the numbers of its rows, as the command line names them.
ghost use Rattle.std.specs.{List.list_all, Prelude.{◌≡◌, IfOk, map}};
ghost use Rattle.span_request.specs.{has_number, Lists.{Finds, names_in}, Numbers.{AreCalled, AreNumbersGiven, AreNumbersNamed, are_numbers_of, are_of_one_kind, by_of, goes_by, numbers_go_with, of_named, of_of}};

use crate::lists::{has_twice, names_in};
use span_options::Options;
use span_table::{Number, Of, has_number};
use span_table_text::AskedNumbers;
use std::alloc::{AllocError, Global};

/// Said of a number that what is summed doesn't have.
pub(crate) const BY_RULE: &str =
    "the sums of '--by' are self, total, count, longest, outer, and with '--of async' total, closed, open, points, longest";

/// Said of a list with a number that what is summed doesn't have, with one twice, or with something that is no number.
pub(crate) const NUMBERS_RULE: &str =
    "the numbers of '--numbers <LIST>' are self, total, count, longest, outer, and with '--of async' total, closed, open, points, longest";

/// Said of a word that is nothing to be summed.
pub(crate) const OF_RULE: &str = "the values of '--of <spans|async>' are spans, async";

/// What is summed; spans, where nothing is said. None where the word is not known.
pub(crate) fn of_of(options: &Options) -> Option<Of>
    ensures { result ≡ of_of options.now }
{
    match &options.of {
        Some(word) => of_named(word.as_str()),
        None => Some(Of::Spans),
    }
}

fn of_named(word: &str) -> Option<Of>
    ensures { result ≡ of_named word.now }
{
    match word {
        "spans" => Some(Of::Spans),
        "async" => Some(Of::Async),
        _ => None,
    }
}

/// The number that is named for rows to go by, if there is one that is known.
pub(crate) fn by_of(options: &Options) -> Option<Number>
    ensures { result ≡ by_of options.now }
{
    match &options.by {
        Some(word) => Number::named(word.as_str()),
        None => None,
    }
}

/// The numbers that the options list, which are none where there is no list. None where what they list are no numbers, or not each once.
pub(crate) fn numbers_asked(
    alloc: Global,
    options: &Options,
) -> Result<Option<Vec<Number>>, AllocError>
    ensures { IfOk result (Finds (AreNumbersGiven options.now.numbers)) }
{
    match &options.numbers {
        Some(list) => numbers_of(alloc, list.as_str()),
        None => Ok(Some(Vec::new(alloc))),
    }
}

fn numbers_of(alloc: Global, text: &str) -> Result<Option<Vec<Number>>, AllocError>
    ensures { IfOk result (Finds (AreNumbersNamed (names_in text.now))) }
{
    let names = names_in(alloc, text)?;
    if has_twice(&names) {
        return Ok(None);
    }
    numbers_named(alloc, &names)
}

// Each of these is a number.
fn numbers_named(alloc: Global, names: &[&str]) -> Result<Option<Vec<Number>>, AllocError>
    ensures { IfOk result (Finds (AreCalled (map (λ name. name.now) names.now))) }
{
    let mut numbers = Vec::new(alloc);
    for name in names {
        let Some(number) = Number::named(name) else {
            return Ok(None);
        };
        numbers.push(number)?;
    }
    Ok(Some(numbers))
}

/// Whether rows that have these numbers can go by this one. Where none is named, they go by one of their own.
pub(crate) fn goes_by(numbers: &[Number], by: Option<Number>) -> bool
    ensures { result ≡ goes_by numbers.now by }
{
    match by {
        Some(number) => has_number(numbers, number),
        None => true,
    }
}

/// Whether what is summed has all of the numbers.
pub(crate) fn are_numbers_of(of: Of, numbers: &[Number]) -> bool
    ensures { result ≡ are_numbers_of of numbers.now }
{
    are_among(numbers, of.all())
}

/// Whether something that is summed has all of them.
pub(crate) fn are_of_one_kind(numbers: &[Number]) -> bool
    ensures { result ≡ are_of_one_kind numbers.now }
{
    are_numbers_of(Of::Spans, numbers) | are_numbers_of(Of::Async, numbers)
}

/// Whether a table that has these numbers has all that are shown of it.
pub fn numbers_go_with(asked: &AskedNumbers, of: Of, own: &[Number]) -> bool
    ensures { result ≡ numbers_go_with asked.now of own.now }
{
    let named = asked.named.as_slice();
    if named.is_empty() {
        // All of its own are shown, and the number that rows are to go by.
        return goes_by(own, asked.by);
    }
    are_among(named, own)
}

fn are_among(numbers: &[Number], all: &[Number]) -> bool
    ensures { result ≡ list_all (has_number all.now) numbers.now }
{
    numbers.iter().all(|number| has_number(all, *number))
}
