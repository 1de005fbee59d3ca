//! The files that a command line names.
ghost use Rattle.std.specs.{List.list_any, Prelude.{◌≡◌, ◌==◌, ◌++◌, ◌∷◌, List, ℕ, None, Some, IfErr, IfOk, OnOk}};
ghost use Rattle.span_runs.specs.{Listing.{kept, names_from}, Names.{AreListed, AreNamed, NamedBy, SaysOfList, SaysOfNames, is_standard, name_of as the_name, names_in, names_of as the_names, separator_of}, Source.SourceBytes, Stops.OfStop};

use crate::files::unread;
use crate::source::{Name, Source, SourceFault};
use crate::stop::Halt;
use span_event::{Fault, Text};
use span_faults::{Reason, no_names};
use std::alloc::{AllocError, Global};

// The most bytes that a list may have.
const MOST_LISTED: u64 = 1_073_741_824;

/// The files that a command line names: these, and then those of a list, where there is one. `-` is standard input, also in a list.
#[derive(Drop)]
pub struct Named {
    pub given: Vec<Text>,
    /// The file of the list.
    pub list: Option<Text>,
}

// Why a list gives no names.
#[derive(Clone, Copy)]
enum ListFault {
    Memory,
    NotText,
}

/// What is to be read: the files that are named, or standard input where nothing is. Of a list each line is a name, or where it holds
/// a NUL what stands between such; an empty one is none. A list must be UTF-8 text, and where there is one there must be a name.
pub fn names_of<S: Source>(alloc: Global, named: Named, source: &S) -> Result<Vec<Name>, Halt>
    ensures names { IfOk result (λ names. AreNamed (S.bytes source.now) named names.items) }
    ensures stop { IfErr result (OfStop (SaysOfNames (S.bytes source.now) named)) }
{
    let Named { given, list } = named;
    match list {
        None => match given_names(alloc, given) {
            Ok(names) => Ok(names),
            Err(_) => Err(Halt::Memory),
        },
        Some(list) => listed_names(alloc, given, list, source),
    }
}

fn given_names(alloc: Global, given: Vec<Text>) -> Result<Vec<Name>, AllocError>
    ensures { IfOk result (λ names. (source : SourceBytes)
        → NamedBy source given.items None names.items) }
{
    if given.is_empty() {
        let mut names = Vec::new(alloc);
        names.push(Name::Standard)?;
        return Ok(names);
    }
    names_of_words(alloc, given)
}

/// What these words stand for.
pub fn names_of_words(alloc: Global, words: Vec<Text>) -> Result<Vec<Name>, AllocError>
    ensures { IfOk result (λ names. names.items ≡ the_names words.items) }
{
    let mut names = Vec::with_capacity(alloc, words.len())?;
    for word in words {
        names.push(name_of_word(word))?;
    }
    Ok(names)
}

// What a word stands for.
fn name_of_word(word: Text) -> Name
    ensures { result ≡ the_name word }
{
    if is_standard(&word) {
        return Name::Standard;
    }
    Name::File(word)
}

/// Whether a word stands for standard input.
pub fn is_standard(word: &Text) -> bool
    ensures { result ≡ is_standard word.now }
{
    word.as_str() == "-"
}

// The files that are named, and those of a list behind them.
fn listed_names<S: Source>(
    alloc: Global,
    given: Vec<Text>,
    list: Text,
    source: &S,
) -> Result<Vec<Name>, Halt>
    ensures names { IfOk result
        (λ names. AreListed (S.bytes source.now) list given.items names.items) }
    ensures stop { IfErr result
        (OfStop (SaysOfList (S.bytes source.now) given.items (Some list))) }
{
    let file = name_of_word(list.try_clone(alloc)?);
    let bytes = match source.read(&file, MOST_LISTED + 1) {
        Ok(bytes) => bytes,
        Err(fault) => return Err(unread(alloc, &Name::File(list), fault)),
    };
    if bytes.len() as u64 > MOST_LISTED {
        let fault = SourceFault::NotOpened(Reason::TooLong);
        return Err(unread(alloc, &Name::File(list), fault));
    }
    let names = match with_names(alloc, given, &bytes) {
        Ok(names) => names,
        Err(ListFault::Memory) => return Err(Halt::Memory),
        Err(ListFault::NotText) => {
            let fault = SourceFault::NotOpened(Reason::NotText);
            return Err(unread(alloc, &Name::File(list), fault));
        }
    };
    if names.is_empty() {
        return Err(Halt::of_run(alloc, Fault::FileCount.code()).with_hint(no_names(alloc)));
    }
    match names_of_words(alloc, names) {
        Ok(names) => Ok(names),
        Err(_) => Err(Halt::Memory),
    }
}

fn with_names(alloc: Global, given: Vec<Text>, bytes: &[u8]) -> Result<Vec<Text>, ListFault>
    ensures { IfOk result (λ names. names.items ≡ given.items ++ names_in bytes.now) }
{
    let separator = separator_of(bytes);
    let mut names = given;
    let mut begun = Vec::new(alloc);
    for byte in bytes {
        take_byte(alloc, &mut names, &mut begun, *byte, separator)?;
    }
    add_name(alloc, &mut names, &begun)?;
    Ok(names)
}

fn separator_of(bytes: &[u8]) -> u8
    ensures { result ≡ separator_of bytes.now }
{
    if has_nul(bytes) { 0 } else { b'\n' }
}

fn has_nul(bytes: &[u8]) -> bool
    ensures { result ≡ list_any (λ byte. byte == 0) bytes.now }
{
    bytes.iter().any(|byte| *byte == 0)
}

// One more byte of a list, of which the names so far are read and the next is begun.
fn take_byte(
    alloc: Global,
    names: &mut Vec<Text>,
    begun: &mut Vec<u8>,
    byte: u8,
    separator: u8,
) -> Result<(), ListFault>
    ensures { OnOk result ((rest : List ℕ)
        → names.new.items ++ names_from separator begun.new.items rest
        ≡ names.old.items ++ names_from separator begun.old.items (byte ∷ rest)) }
{
    if byte == separator {
        add_name(alloc, names, begun)?;
        begun.clear();
        return Ok(());
    }
    match begun.push(byte) {
        Ok(()) => Ok(()),
        Err(_) => Err(ListFault::Memory),
    }
}

// Adds a name, unless it is empty.
fn add_name(alloc: Global, names: &mut Vec<Text>, bytes: &[u8]) -> Result<(), ListFault>
    ensures { OnOk result (names.new.items ≡ names.old.items ++ kept bytes.now) }
{
    if bytes.is_empty() {
        return Ok(());
    }
    let name = name_of(alloc, bytes)?;
    match names.push(name) {
        Ok(()) => Ok(()),
        Err(_) => Err(ListFault::Memory),
    }
}

fn name_of(alloc: Global, bytes: &[u8]) -> Result<Text, ListFault>
    ensures { IfOk result (λ name. name ≡ bytes.now) }
{
    let Ok(text) = str::from_utf8(bytes) else {
        return Err(ListFault::NotText);
    };
    match Text::of(alloc, text) {
        Ok(name) => Ok(name),
        Err(_) => Err(ListFault::Memory),
    }
}
