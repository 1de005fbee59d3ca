//! What the words give each option.
ghost use Rattle.std.specs.Prelude.{◌≡◌, IfOk, map};
ghost use Rattle.clap.specs.Words.{first_of, found_of, rows_of};
ghost use Rattle.span_options.specs.Given.{IsGiven, is_on, number_of, texts_of};

use clap::ArgMatches;
use span_event::Text;
use std::alloc::{AllocError, Global};

/// What the words give each option, as the manual has them. One without a value is given, or not; one that may be given several times
/// has its texts in their order; of another, the last text or number counts.
#[derive(Drop)]
pub struct Options {
    pub large: bool,
    pub limit: Option<u32>,
    pub nanoseconds: bool,
    pub seal: bool,
    pub strict: bool,
    pub top: Option<u32>,
    pub by: Option<Text>,
    pub numbers: Option<Text>,
    pub of: Option<Text>,
    pub base: Vec<Text>,
    pub json: bool,
    pub apart: bool,
    pub repeats: bool,
    pub jobs: Option<u32>,
    pub add: bool,
    pub group_by: Option<Text>,
    pub conditions: Vec<Text>,
    pub merge_templates: bool,
    pub only: Vec<Text>,
    pub skip: Vec<Text>,
    pub refused: bool,
    pub folded: bool,
    pub page: bool,
    pub files_from: Option<Text>,
    pub files: Vec<Text>,
}

pub(crate) fn options_given(alloc: Global, matches: &ArgMatches<'_>) -> Result<Options, AllocError>
    ensures { IfOk result (IsGiven (rows_of (found_of matches.now))) }
{
    Ok(Options {
        large: is_on(matches, "large"),
        limit: number_of(matches, "limit"),
        nanoseconds: is_on(matches, "nanoseconds"),
        seal: is_on(matches, "seal"),
        strict: is_on(matches, "strict"),
        top: number_of(matches, "top"),
        by: text_of(alloc, matches, "by")?,
        numbers: text_of(alloc, matches, "numbers")?,
        of: text_of(alloc, matches, "of")?,
        base: texts_of(alloc, matches, "base")?,
        json: is_on(matches, "json"),
        apart: is_on(matches, "apart"),
        repeats: is_on(matches, "repeats"),
        jobs: number_of(matches, "jobs"),
        add: is_on(matches, "add"),
        group_by: text_of(alloc, matches, "group-by")?,
        conditions: texts_of(alloc, matches, "where")?,
        merge_templates: is_on(matches, "merge-templates"),
        only: texts_of(alloc, matches, "only")?,
        skip: texts_of(alloc, matches, "skip")?,
        refused: is_on(matches, "refused"),
        folded: is_on(matches, "folded"),
        page: is_on(matches, "page"),
        files_from: text_of(alloc, matches, "files-from")?,
        files: texts_of(alloc, matches, "files")?,
    })
}

fn is_on(matches: &ArgMatches<'_>, name: &str) -> bool
    ensures { result ≡ is_on name.now (rows_of (found_of matches.now)) }
{
    match matches.get_str(name) {
        Some(value) => value == "true",
        None => false,
    }
}

fn number_of(matches: &ArgMatches<'_>, name: &str) -> Option<u32>
    ensures { result ≡ number_of name.now (rows_of (found_of matches.now)) }
{
    matches.get_one::<u32>(name)
}

fn text_of(alloc: Global, matches: &ArgMatches<'_>, name: &str) -> Result<Option<Text>, AllocError>
    ensures { IfOk result (λ text. text ≡ first_of name.now (rows_of (found_of matches.now))) }
{
    match matches.get_str(name) {
        Some(value) => Ok(Some(Text::of(alloc, value)?)),
        None => Ok(None),
    }
}

fn texts_of(alloc: Global, matches: &ArgMatches<'_>, name: &str) -> Result<Vec<Text>, AllocError>
    ensures { IfOk result (λ texts. texts.items ≡ texts_of name.now (rows_of (found_of matches.now))) }
{
    match matches.get_strs(name) {
        Some(values) => copied(alloc, values),
        None => Ok(Vec::new(alloc)),
    }
}

fn copied(alloc: Global, values: &[&str]) -> Result<Vec<Text>, AllocError>
    ensures { IfOk result (λ texts. texts.items ≡ map (λ value. value.now) values.now) }
{
    let mut texts = Vec::new(alloc);
    for value in values {
        texts.push(Text::of(alloc, value)?)?;
    }
    Ok(texts)
}
