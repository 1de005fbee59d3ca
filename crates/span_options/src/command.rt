//! The command: its options, in the order of the help.
ghost use Rattle.std.specs.Prelude.{◌≡◌, IfOk, codes, map};
ghost use Rattle.clap.specs.Words.{app_of, rule_of};
ghost use Rattle.span_options.specs.Command.{command, list, number, option, others, rest, settings, switch, tables, texts};

use crate::help::{
    ABOUT, ADD_HELP, AFTER, APART_HELP, BASE_HELP, BY_HELP, FILE_HELP, FILES_FROM_HELP,
    FOLDED_HELP, GROUP_BY_HELP, JOBS_HELP, JSON_HELP, LARGE_HELP, MERGE_TEMPLATES_HELP,
    NANOSECONDS_HELP, NUMBERS_HELP, OF_HELP, ONLY_HELP, PAGE_HELP, REFUSED_HELP, REPEATS_HELP,
    SEAL_HELP, SKIP_HELP, STRICT_HELP, TOP_HELP, WHERE_HELP,
};
use clap::builder::ValueParser;
use clap::{Arg, ArgAction, Command};
use std::alloc::{AllocError, Global};

/// The most entries of the journal, where the command line does not say, nor that files may be large.
pub const DEFAULT_LIMIT: u32 = 16_777_216;

pub(crate) fn command_of<'a>(alloc: Global, limit_help: &'a str) -> Result<Command<'a>, AllocError>
    ensures { IfOk result (λ made. app_of made ≡ command) }
{
    Command::new(alloc, "tracebook")
        .version("1")
        .no_binary_name(true)
        .next_line_help(true)
        .about(ABOUT)
        .after_help(AFTER)
        .args(settings(alloc, limit_help)?)?
        .args(tables(alloc)?)?
        .args(others(alloc)?)
}

fn settings<'a>(alloc: Global, limit_help: &'a str) -> Result<Vec<Arg<'a>>, AllocError>
    ensures { IfOk result (λ made. map rule_of made.items ≡ settings) }
{
    Ok(vec![in alloc;
        switch(alloc, "large", LARGE_HELP),
        number(alloc, "limit", u32::MAX, limit_help),
        switch(alloc, "nanoseconds", NANOSECONDS_HELP),
        switch(alloc, "seal", SEAL_HELP),
        switch(alloc, "strict", STRICT_HELP),
    ]?)
}

fn tables(alloc: Global) -> Result<Vec<Arg<'static>>, AllocError>
    ensures { IfOk result (λ made. map rule_of made.items ≡ tables) }
{
    Ok(vec![in alloc;
        number(alloc, "top", u32::MAX, TOP_HELP),
        option(alloc, "by", "SUM", BY_HELP),
        option(alloc, "numbers", "LIST", NUMBERS_HELP),
        option(alloc, "of", "spans|async", OF_HELP),
        list(alloc, "base", "FILE", BASE_HELP),
        switch(alloc, "json", JSON_HELP),
        switch(alloc, "apart", APART_HELP),
        switch(alloc, "repeats", REPEATS_HELP),
        number(alloc, "jobs", 64, JOBS_HELP),
        switch(alloc, "add", ADD_HELP),
        option(alloc, "group-by", "COLUMNS", GROUP_BY_HELP),
        list(alloc, "where", "CONDITION", WHERE_HELP),
        switch(alloc, "merge-templates", MERGE_TEMPLATES_HELP),
        texts(alloc, "only", ONLY_HELP),
        texts(alloc, "skip", SKIP_HELP),
    ]?)
}

fn others(alloc: Global) -> Result<Vec<Arg<'static>>, AllocError>
    ensures { IfOk result (λ made. map rule_of made.items ≡ others) }
{
    Ok(vec![in alloc;
        switch(alloc, "refused", REFUSED_HELP),
        switch(alloc, "folded", FOLDED_HELP),
        switch(alloc, "page", PAGE_HELP),
        option(alloc, "files-from", "FILE", FILES_FROM_HELP),
        files(alloc),
    ]?)
}

// An option without a value.
fn switch<'a>(alloc: Global, name: &'a str, help: &'a str) -> Arg<'a>
    ensures { rule_of result ≡ switch name.entry.now }
{
    Arg::new(alloc, name)
        .long(name)
        .action(ArgAction::SetTrue)
        .help(help)
}

// An option with a value.
fn option<'a>(alloc: Global, name: &'a str, value: &'a str, help: &'a str) -> Arg<'a>
    ensures { rule_of result ≡ option name.entry.now }
{
    Arg::new(alloc, name)
        .long(name)
        .value_name(value)
        .action(ArgAction::Set)
        .help(help)
}

// An option that may be given several times.
fn list<'a>(alloc: Global, name: &'a str, value: &'a str, help: &'a str) -> Arg<'a>
    ensures { rule_of result ≡ list name.entry.now }
{
    option(alloc, name, value, help).action(ArgAction::Append)
}

fn texts<'a>(alloc: Global, name: &'a str, help: &'a str) -> Arg<'a>
    ensures { rule_of result ≡ texts name.entry.now }
{
    list(alloc, name, "TEXT", help).value_parser(ValueParser::NonEmptyString)
}

fn number<'a>(alloc: Global, name: &'a str, most: u32, help: &'a str) -> Arg<'a>
    ensures { rule_of result ≡ number name.entry.now most }
{
    option(alloc, name, "N", help).value_parser(clap::value_parser!(u32).range(1..=i64::from(most)))
}

fn files(alloc: Global) -> Arg<'static>
    ensures { rule_of result ≡ rest (codes "files") }
{
    Arg::new(alloc, "files")
        .value_name("FILE")
        .num_args(0..)
        .action(ArgAction::Append)
        .help(FILE_HELP)
}
