//! What the words of a command line come to: options, or a text that is said instead.
ghost use Rattle.std.specs.Prelude.{◌≡◌, IfOk, map};
ghost use Rattle.clap.specs.Words.{kind_of};
ghost use Rattle.span_options.specs.Parsing.{ParsesTo, SaysOf};

use crate::command::{DEFAULT_LIMIT, command_of};
use crate::options::{Options, options_given};
use clap::error::{Error, ErrorKind};
use span_event::Text;
use std::alloc::{AllocError, Global};

/// What the words of a command line come to.
#[derive(Drop)]
pub enum Parsed {
    Options(Options),
    /// Help or the version is asked for: this text.
    Show(String),
    /// The words give no options, as this text says.
    Refuse(String),
}

/// What the words give; they leave out the program's own name.
pub fn options_of(alloc: Global, words: &[Text]) -> Result<Parsed, AllocError>
    ensures { IfOk result (ParsesTo words.now) }
{
    let limit_help = limit_help(alloc)?;
    let words = strings(alloc, words)?;
    let mut command = command_of(alloc, limit_help.as_str())?;
    match command.try_get_matches_from_mut(words.as_slice()) {
        Ok(matches) => Ok(Parsed::Options(options_given(alloc, &matches)?)),
        Err(error) => said(alloc, words.as_slice(), &error),
    }
}

/// The text that refuses words by a rule of which the command knows nothing.
pub fn refusal(alloc: Global, rule: &str) -> Result<String, AllocError> {
    let limit_help = limit_help(alloc)?;
    let mut command = command_of(alloc, limit_help.as_str())?;
    let error = command.error(ErrorKind::ArgumentConflict, rule)?;
    text_of(alloc, &error)
}

fn limit_help(alloc: Global) -> Result<String, AllocError> {
    format!(in alloc;
        "The most entries of the journal, 1 to 4294967295\n[default: {DEFAULT_LIMIT}; with --large 4294967295]"
    )
}

fn strings<'a>(alloc: Global, words: &'a [Text]) -> Result<Vec<&'a str>, AllocError>
    ensures { IfOk result (λ all. map (λ word. word.now) all.items ≡ words.now) }
{
    let mut all = Vec::new(alloc);
    for word in words {
        all.push(word.as_str())?;
    }
    Ok(all)
}

// What is said where the words give no options.
fn said(alloc: Global, words: &[&str], error: &Error) -> Result<Parsed, AllocError>
    ensures { IfOk result (SaysOf (kind_of error.now)) }
{
    match error.kind() {
        ErrorKind::OutOfMemory => Err(AllocError),
        ErrorKind::DisplayHelp | ErrorKind::DisplayVersion => {
            Ok(Parsed::Show(text_of(alloc, error)?))
        }
        ErrorKind::UnknownArgument => Ok(Parsed::Refuse(unknown(alloc, words, error)?)),
        _ => Ok(Parsed::Refuse(text_of(alloc, error)?)),
    }
}

// What is said of a word that looks like an option: where it is a number below zero, that.
fn unknown(alloc: Global, words: &[&str], error: &Error) -> Result<String, AllocError> {
    match negative(words) {
        Some((option, number)) => {
            let rule = format!(in alloc;
                "invalid value '{number}' for '{option} <N>': it is below 1"
            )?;
            refusal(alloc, rule.as_str())
        }
        None => text_of(alloc, error),
    }
}

// An option whose value would be a number below zero, and this number.
fn negative<'a>(words: &[&'a str]) -> Option<(&'a str, &'a str)> {
    let mut option = "";
    for word in words {
        if matches!(option, "--limit" | "--top" | "--jobs") && is_negative(word) {
            return Some((option, word));
        }
        option = word;
    }
    None
}

fn is_negative(word: &str) -> bool {
    match word.as_bytes() {
        [b'-', digit, ..] => digit.is_ascii_digit(),
        _ => false,
    }
}

fn text_of(alloc: Global, error: &Error) -> Result<String, AllocError> {
    format!(in alloc; "{error}")
}
