//! What the words of a command line ask for.
ghost use Rattle.std.specs.Prelude.{◌≡◌, IfOk, MatchResult};
ghost use Rattle.span_request.specs.{Laws.default_settings, Request.{AreUnsound, Asks, AsksFor, IsOf}, Tasks.{IsOptions, IsPageView, IsTask, IsText, IsView, comparison_form, format_asked, items_of, repeats_form, settings_of, table_form, warns_of}};

use crate::columns::asked_labels;
use crate::numbers::by_of;
use crate::rules::{broken_rule, takes_apart, unsuited_rule};
use crate::summed::{Summed, summed_by};
use crate::tasks::{Changes, Items, Repetitions, Request, TableText, Tabulation, Task};
use crate::texts::{audience_of, most_rows, prints_table};
use crate::views::{ComparisonForm, PageView, RepeatsForm, TableForm, TableOptions, View};
use span_collect::Settings;
use span_event::{Text, Unit};
use span_narrowing::Narrowing;
use span_options::{DEFAULT_LIMIT, Options, Parsed, options_of, refusal};
use span_read::Format;
use span_runs::{Named, names_of_words};
use span_table_text::{AskedNumbers, Shown};
use std::alloc::{AllocError, Global};

/// The settings where the command line does not say.
pub fn default_settings() -> Settings
    ensures { result ≡ default_settings }
{
    Settings {
        format: Format::of(Unit::Microseconds),
        limit: DEFAULT_LIMIT,
        seal: false,
        strict: false,
        alone: true,
    }
}

/// What the words ask for; they leave out the program's own name.
pub fn request_of(alloc: Global, words: Vec<Text>) -> Result<Request, AllocError>
    ensures { IfOk result (AsksFor words.items) }
{
    match options_of(alloc, words.as_slice())? {
        Parsed::Options(options) => request_by(alloc, options),
        Parsed::Show(text) => Ok(Request::Show(text)),
        Parsed::Refuse(text) => Ok(Request::Refuse(text)),
    }
}

fn request_by(alloc: Global, options: Options) -> Result<Request, AllocError>
    ensures { IfOk result (IsOf options) }
{
    match asked(alloc, &options)? {
        Ok(task) => {
            let files = Named {
                given: options.files,
                list: options.files_from,
            };
            Ok(Request::Run { task, files })
        }
        Err(rule) => Ok(Request::Refuse(refusal(alloc, rule)?)),
    }
}

// What the options ask for, or what is said of the rule that they break.
fn asked(alloc: Global, options: &Options) -> Result<Result<Task, &'static str>, AllocError>
    ensures { IfOk result (λ task. MatchResult task (Asks options.now) (λ rule. AreUnsound options.now)) }
{
    if let Some(rule) = broken_rule(options) {
        return Ok(Err(rule));
    }
    let summed = match summed_by(alloc, options)? {
        Ok(summed) => summed,
        Err(rule) => return Ok(Err(rule)),
    };
    if let Some(rule) = unsuited_rule(options, &summed) {
        return Ok(Err(rule));
    }
    Ok(Ok(task_of(alloc, options, summed)?))
}

fn task_of(alloc: Global, options: &Options, summed: Summed) -> Result<Task, AllocError>
    ensures { IfOk result (IsTask options.now summed) }
{
    let settings = settings_of(options);
    let jobs = options.jobs;
    if options.page & options.apart {
        let view = page_view(alloc, options, summed)?;
        return Ok(Task::Pages {
            settings,
            jobs,
            view,
        });
    }
    if options.folded & options.apart {
        let labels = asked_labels(alloc, options, &summed.columns)?;
        return Ok(Task::Stacks {
            settings,
            jobs,
            labels,
        });
    }
    if !prints_table(options) {
        let view = view_of(alloc, options, summed)?;
        return Ok(Task::Collect { settings, view });
    }
    Ok(Task::Tabulate(Tabulation {
        items: items_of(options),
        jobs,
        options: table_options(alloc, options, summed)?,
        text: text_of(alloc, options)?,
    }))
}

fn settings_of(options: &Options) -> Settings
    ensures { result ≡ settings_of options.now }
{
    let unit = if options.nanoseconds {
        Unit::Nanoseconds
    } else {
        Unit::Microseconds
    };
    let most = if options.large {
        u32::MAX
    } else {
        DEFAULT_LIMIT
    };
    Settings {
        format: format_asked(options, unit),
        limit: options.limit.unwrap_or(most),
        seal: options.seal,
        strict: options.strict,
        alone: !takes_apart(options),
    }
}

fn format_asked(options: &Options, unit: Unit) -> Format
    ensures { result ≡ format_asked options.now unit }
{
    if options.large {
        Format::large(unit)
    } else {
        Format::of(unit)
    }
}

fn items_of(options: &Options) -> Items
    ensures { result ≡ items_of options.now }
{
    if options.add {
        return Items::Printed;
    }
    if takes_apart(options) {
        return Items::Apart(settings_of(options));
    }
    Items::Together(settings_of(options))
}

// What is printed instead of the report.
fn view_of(alloc: Global, options: &Options, summed: Summed) -> Result<View, AllocError>
    ensures { IfOk result (IsView options.now summed) }
{
    if options.refused {
        return Ok(View::Refusals);
    }
    if options.folded {
        return Ok(View::Folded(asked_labels(alloc, options, &summed.columns)?));
    }
    if options.page {
        return Ok(View::Page(page_view(alloc, options, summed)?));
    }
    let warns = warns_of(options);
    Ok(View::Report { warns })
}

// Whether warnings follow a report: an option other than a limit, seals and strict names is given.
fn warns_of(options: &Options) -> bool
    ensures { result ≡ warns_of options.now }
{
    options.nanoseconds || options.large || options.files_from.is_some()
}

fn page_view(alloc: Global, options: &Options, summed: Summed) -> Result<PageView, AllocError>
    ensures { IfOk result (IsPageView options.now summed) }
{
    let labels = asked_labels(alloc, options, &summed.columns)?;
    let options = table_options(alloc, options, summed)?;
    Ok(PageView { options, labels })
}

fn table_options(
    alloc: Global,
    options: &Options,
    summed: Summed,
) -> Result<TableOptions, AllocError>
    ensures { IfOk result (IsOptions options.now summed) }
{
    let numbers = AskedNumbers {
        audience: audience_of(options),
        named: summed.numbers,
        by: by_of(options),
    };
    let narrowing = Narrowing {
        conditions: summed.conditions,
        merges: options.merge_templates,
    };
    let shown = Shown {
        only: copies(alloc, &options.only)?,
        skip: copies(alloc, &options.skip)?,
    };
    Ok(TableOptions {
        of: summed.of,
        columns: summed.columns,
        numbers,
        narrowing,
        shown,
    })
}

fn text_of(alloc: Global, options: &Options) -> Result<TableText, AllocError>
    ensures { IfOk result (IsText options.now) }
{
    if options.base.is_empty() {
        return Ok(TableText::Table(table_form(options)));
    }
    let base = names_of_words(alloc, copies(alloc, &options.base)?)?;
    if options.repeats {
        let form = repeats_form(options);
        return Ok(TableText::Repetitions(Repetitions { form, base }));
    }
    let form = comparison_form(options);
    Ok(TableText::Changes(Changes { form, base }))
}

fn table_form(options: &Options) -> TableForm
    ensures { result ≡ table_form options.now }
{
    match most_rows(options) {
        Some(most) => TableForm::Ranking { most },
        None => TableForm::Json,
    }
}

fn comparison_form(options: &Options) -> ComparisonForm
    ensures { result ≡ comparison_form options.now }
{
    if options.json {
        return ComparisonForm::Json;
    }
    ComparisonForm::Text { most: options.top }
}

fn repeats_form(options: &Options) -> RepeatsForm
    ensures { result ≡ repeats_form options.now }
{
    if options.json {
        RepeatsForm::Json
    } else {
        RepeatsForm::Text { most: options.top }
    }
}

fn copies(alloc: Global, texts: &[Text]) -> Result<Vec<Text>, AllocError>
    ensures { IfOk result (λ copied. copied.items ≡ texts.now) }
{
    let mut copied = Vec::new(alloc);
    for text in texts {
        copied.push(text.try_clone(alloc)?)?;
    }
    Ok(copied)
}
