//! The files that names stand for, where folders are among them.
ghost use Rattle.std.specs.Prelude.{◌≡◌, ◌++◌, ◌∷◌, [], map, option_map, vec_items, IfErr, IfOk, OnOk, string_bytes};
ghost use Rattle.span_runs.specs.declared.source.Name.TheVariants.{File};
ghost use Rattle.span_runs.specs.{FileCount, fault_line, number_of, Folders.{AreFilesOf, HasBelow, Puts, StopsAt, StopsAtName, StopsListing, beginning, ends_in_slash}, Stops.OfStop};

use crate::files::unread;
use crate::source::{FolderFault, Name, Source, SourceFault};
use crate::stop::Halt;
use span_event::{Fault, Text};
use span_faults::{Hint, hint_line};
use std::alloc::{AllocError, Global};

/// The files that names stand for, in their order; and how many bytes of each path the column of files leaves out.
#[derive(Drop)]
pub struct Listed {
    pub names: Vec<Name>,
    pub cut: usize,
}

/// The files that these names stand for: of a folder those below it whose names end so. The first folder that has none, or can't be
/// looked through, decides. Where one folder is named, and nothing else, the column of files has the paths below it.
pub fn files_of<S: Source>(
    alloc: Global,
    source: &S,
    names: &[Name],
    ending: &'static str,
) -> Result<Listed, Halt>
    ensures listed { IfOk result (AreFilesOf (S.folders source.now) ending.now names.now) }
    ensures stop { IfErr result
        (OfStop (StopsListing (S.folders source.now) ending.now names.now)) }
{
    let mut files = Vec::new(alloc);
    let mut cut = 0;
    for name in names {
        cut = match put_files(alloc, source, &mut files, name, ending) {
            Ok(cut) => cut,
            Err(halt) => return Err(halt),
        };
    }
    if names.len() > 1 {
        cut = 0;
    }
    Ok(Listed { names: files, cut })
}

// Puts the files that this name stands for behind others. Gives how much a column would leave out if no other were named.
fn put_files<S: Source>(
    alloc: Global,
    source: &S,
    files: &mut Vec<Name>,
    name: &Name,
    ending: &'static str,
) -> Result<usize, Halt>
    ensures puts { IfOk result (Puts (S.folders source.now) ending.now name.now
        files.old.items files.new.items) }
    ensures stop { IfErr result
        (OfStop (StopsAtName (S.folders source.now) ending.now name.now)) }
{
    let Name::File(path) = name else {
        push(files, Name::Standard)?;
        return Ok(0);
    };
    let found = match below(alloc, source, path, ending) {
        Ok(found) => found,
        Err(halt) => return Err(halt),
    };
    let Some(below) = found else {
        push(files, Name::File(path.try_clone(alloc)?))?;
        return Ok(0);
    };
    if below.is_empty() {
        return Err(no_files(alloc, path, ending));
    }
    let beginning = beginning_of(alloc, path)?;
    put_below(alloc, files, &beginning, &below)?;
    Ok(beginning.len())
}

// There is no file below a folder whose name ends so.
fn no_files(alloc: Global, folder: &Text, ending: &'static str) -> Halt
    ensures { OfStop (λ lines. lines ≡ fault_line folder.now (number_of FileCount)) result }
{
    let hint = hint_line(alloc, folder, Hint::NoFiles { ending });
    match folder.try_clone(alloc) {
        Ok(path) => Halt::of_name(alloc, &Name::File(path), Fault::FileCount.code()).with_hint(
            hint,
        ),
        Err(_) => Halt::Memory,
    }
}

// Puts the files of these paths below a folder behind others.
fn put_below(
    alloc: Global,
    files: &mut Vec<Name>,
    beginning: &String,
    below: &[Text],
) -> Result<(), AllocError>
    ensures { OnOk result (files.new.items ≡ files.old.items
        ++ map (λ path. File (string_bytes beginning.now ++ path)) below.now) }
{
    for path in below {
        push(files, Name::File(joined(alloc, beginning, path)?))?;
    }
    Ok(())
}

fn push(files: &mut Vec<Name>, name: Name) -> Result<(), AllocError>
    ensures { OnOk result (files.new.items ≡ files.old.items ++ name ∷ []) }
{
    files.push(name)?;
    Ok(())
}

// The files below a folder, or nothing where it is none.
fn below<S: Source>(
    alloc: Global,
    source: &S,
    path: &Text,
    ending: &'static str,
) -> Result<Option<Vec<Text>>, Halt>
    ensures found { IfOk result (λ found.
        HasBelow (S.folders source.now ending.now path.now) (option_map vec_items found)) }
    ensures stop { IfErr result
        (OfStop (StopsAt (S.folders source.now ending.now path.now) path.now)) }
{
    match source.files_below(path, ending) {
        Ok(found) => Ok(found),
        Err(FolderFault::Memory) => Err(Halt::Memory),
        Err(FolderFault::NotRead { path, reason }) => {
            let fault = SourceFault::NotOpened(reason);
            Err(unread(alloc, &Name::File(path), fault))
        }
    }
}

// A folder as paths begin with it.
fn beginning_of(alloc: Global, folder: &Text) -> Result<String, AllocError>
    ensures { IfOk result (λ text. string_bytes text ≡ beginning folder.now) }
{
    let mut beginning = String::from_str(alloc, folder.as_str())?;
    if !ends_in_slash(folder.as_str()) {
        beginning.push_str("/")?;
    }
    Ok(beginning)
}

fn ends_in_slash(path: &str) -> bool
    ensures { result ≡ ends_in_slash path.now }
{
    match path.as_bytes().last() {
        Some(byte) => *byte == b'/',
        None => false,
    }
}

fn joined(alloc: Global, beginning: &String, path: &Text) -> Result<Text, AllocError>
    ensures { IfOk result (λ joined. joined ≡ string_bytes beginning.now ++ path.now) }
{
    let mut joined = String::from_str(alloc, beginning.as_str())?;
    joined.push_str(path.as_str())?;
    Text::of(alloc, joined.as_str())
}
