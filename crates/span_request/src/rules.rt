//! Which options of the command line go together, and which columns and numbers go with them.
ghost use Rattle.std.specs.{List.list_any, Prelude.{◌≡◌, ◌<◌, ◌^◌, ◌||◌, filter, is_some, length}};
ghost use Rattle.span_request.specs.Rules.{are_several, excluded, idle, is_broken, means_standard, standard_uses, takes_apart, unsuited, untested};
ghost use Rattle.span_request.specs.{is_standard};

use crate::columns::{LABEL_RULE, are_of_spans, file_rule_of, go_with, have_file, others_rule_of};
use crate::conditions::{
    conditions_file_rule_of, conditions_go_with, conditions_have_file, conditions_others_rule_of,
};
use crate::numbers::{BY_RULE, NUMBERS_RULE, are_numbers_of, are_of_one_kind, by_of, goes_by};
use crate::summed::Summed;
use crate::texts::{has_table, is_any, most_rows, prints_table, texts};
use span_event::Text;
use span_options::Options;
use span_runs::is_standard;

// Whether the rule is broken, and what is said then.
#[derive(Clone, Copy)]
struct Rule(bool, &'static str);

/// What is said of options that exclude one another, and of those that have no effect on the text that is asked for.
pub(crate) fn broken_rule(options: &Options) -> Option<&'static str>
    ensures { is_some result ≡ (is_broken (excluded options.now) || is_broken (idle options.now)) }
{
    match excluded_rule(options) {
        Some(rule) => Some(rule),
        None => idle_rule(options),
    }
}

// The first of these rules that is broken.
fn first_broken(rules: &[Rule]) -> Option<&'static str>
    ensures { is_some result ≡ list_any (λ rule. rule.0) rules.now }
{
    for rule in rules {
        if rule.0 {
            return Some(rule.1);
        }
    }
    None
}

fn excluded_rule(options: &Options) -> Option<&'static str>
    ensures { is_some result ≡ is_broken (excluded options.now) }
{
    let Options {
        json,
        repeats,
        add,
        ..
    } = *options;
    let top = options.top.is_some();
    first_broken(&[
        Rule(are_several(&texts(options)), TEXTS_RULE),
        Rule(standard_uses(options) > 1, STANDARD_RULE),
        Rule(
            json & top,
            "the argument '--json' cannot be used with '--top <N>'",
        ),
        Rule(
            json & options.refused,
            "the argument '--json' cannot be used with '--refused'",
        ),
        Rule(
            json & options.folded,
            "the argument '--json' cannot be used with '--folded'",
        ),
        Rule(
            json & options.page,
            "the argument '--json' cannot be used with '--page'",
        ),
        Rule(
            repeats & options.apart,
            "the argument '--repeats' cannot be used with '--apart'",
        ),
        Rule(
            repeats & options.numbers.is_some(),
            "the argument '--repeats' cannot be used with '--numbers <LIST>'",
        ),
        Rule(
            add & options.large,
            "the argument '--add' cannot be used with '--large'",
        ),
        Rule(
            add & options.limit.is_some(),
            "the argument '--add' cannot be used with '--limit <N>'",
        ),
        Rule(
            add & options.nanoseconds,
            "the argument '--add' cannot be used with '--nanoseconds'",
        ),
        Rule(
            add & options.seal,
            "the argument '--add' cannot be used with '--seal'",
        ),
        Rule(
            add & options.strict,
            "the argument '--add' cannot be used with '--strict'",
        ),
        Rule(
            add & options.of.is_some(),
            "the argument '--add' cannot be used with '--of <spans|async>'",
        ),
        Rule(
            add & options.apart,
            "the argument '--add' cannot be used with '--apart'",
        ),
        Rule(
            add & options.jobs.is_some(),
            "the argument '--add' cannot be used with '--jobs <N>'",
        ),
    ])
}

const TEXTS_RULE: &str =
    "only one of the arguments '--top <N>', '--refused', '--folded', '--page' and '--base <FILE>' can be used, but '--top <N>' beside '--base <FILE>'";

const STANDARD_RULE: &str =
    "standard input can be read only once: as a FILE '-', as '--files-from -', or where no FILE is named";

// How often standard input is named, or meant.
fn standard_uses(options: &Options) -> u128
    ensures { result ≡ standard_uses options.now }
{
    let named = standard_words(&options.files) + standard_words(&options.base);
    if means_standard(options) {
        return named + 1;
    }
    named
}

// Whether the list is standard input, or there is none and no FILE.
fn means_standard(options: &Options) -> bool
    ensures { result ≡ means_standard options.now }
{
    match &options.files_from {
        Some(list) => is_standard(list),
        None => options.files.is_empty(),
    }
}

fn standard_words(words: &[Text]) -> u128
    ensures count { result ≡ length (filter is_standard words.now) }
    ensures few { result < 2 ^ 64 }
{
    let mut count = 0;
    for word in words {
        if is_standard(word) {
            count += 1;
        }
    }
    count
}

fn are_several(given: &[bool]) -> bool
    ensures { result ≡ are_several given.now }
{
    match given {
        [] => false,
        [first, more @ ..] => (*first & is_any(more)) | are_several(more),
    }
}

fn idle_rule(options: &Options) -> Option<&'static str>
    ensures { is_some result ≡ is_broken (idle options.now) }
{
    let table = prints_table(options);
    let base = !options.base.is_empty();
    first_broken(&[
        Rule(
            options.by.is_some() & !(most_rows(options).is_some() | base),
            "the argument '--by <SUM>' goes with '--top <N>' and '--base <FILE>' alone",
        ),
        Rule(
            options.numbers.is_some() & !has_table(options),
            "the argument '--numbers <LIST>' goes with '--top <N>', '--json', '--base <FILE>' and '--page' alone",
        ),
        Rule(
            options.of.is_some() & !table,
            "the argument '--of <spans|async>' goes with '--top <N>', '--json' and '--base <FILE>' alone",
        ),
        Rule(
            options.group_by.is_some() & !(has_table(options) | options.folded),
            "the argument '--group-by <COLUMNS>' goes with '--top <N>', '--json', '--base <FILE>', '--folded' and '--page' alone",
        ),
        Rule(
            !options.conditions.is_empty() & !table,
            "the argument '--where <CONDITION>' goes with '--top <N>', '--json' and '--base <FILE>' alone",
        ),
        Rule(
            options.merge_templates & !(has_table(options) | options.folded),
            "the argument '--merge-templates' goes with '--top <N>', '--json', '--base <FILE>', '--folded' and '--page' alone",
        ),
        Rule(
            !options.only.is_empty() & !has_table(options),
            "the argument '--only <TEXT>' goes with '--top <N>', '--json', '--base <FILE>' and '--page' alone",
        ),
        Rule(
            !options.skip.is_empty() & !has_table(options),
            "the argument '--skip <TEXT>' goes with '--top <N>', '--json', '--base <FILE>' and '--page' alone",
        ),
        Rule(
            options.add & !table,
            "the argument '--add' goes with '--top <N>', '--json' and '--base <FILE>' alone",
        ),
        Rule(
            options.apart & !(has_table(options) | options.folded),
            "the argument '--apart' goes with '--top <N>', '--json', '--base <FILE>', '--folded' and '--page' alone",
        ),
        Rule(
            options.repeats & !base,
            "the argument '--repeats' goes with '--base <FILE>' alone",
        ),
        Rule(
            options.jobs.is_some() & !takes_apart(options),
            "the argument '--jobs <N>' goes with '--apart' and '--repeats' alone",
        ),
    ])
}

/// What is said of columns or numbers that what is summed doesn't have, or the text that is asked for.
pub(crate) fn unsuited_rule(options: &Options, summed: &Summed) -> Option<&'static str>
    ensures { is_some result
        ≡ (is_broken (unsuited options.now summed.now) || is_broken (untested options.now summed.now)) }
{
    let (of, columns, numbers) = (summed.of, &summed.columns, &summed.numbers);
    let by = by_of(options);
    let rule = first_broken(&[
        Rule(options.by.is_some() & by.is_none(), BY_RULE),
        Rule(!options.add & !go_with(of, columns), others_rule_of(of)),
        Rule(
            have_file(columns) & !(takes_apart(options) | options.add),
            file_rule_of(of),
        ),
        Rule(options.folded & !are_of_spans(columns), LABEL_RULE),
        Rule(!options.add & !goes_by(of.all(), by), BY_RULE),
        Rule(!options.add & !are_numbers_of(of, numbers), NUMBERS_RULE),
        Rule(options.add & !are_of_one_kind(numbers), NUMBERS_RULE),
        Rule(
            options.numbers.is_some() & !goes_by(numbers, by),
            "the number of '--by' is to be among those of '--numbers <LIST>'",
        ),
        Rule(
            options.json & options.by.is_some() & !options.repeats,
            "the argument '--json' cannot be used with '--by <SUM>'",
        ),
    ]);
    match rule {
        Some(rule) => Some(rule),
        None => untested_rule(options, summed),
    }
}

// What is said of columns of conditions that what is summed doesn't have.
fn untested_rule(options: &Options, summed: &Summed) -> Option<&'static str>
    ensures { is_some result ≡ is_broken (untested options.now summed.now) }
{
    let (of, conditions) = (summed.of, &summed.conditions);
    first_broken(&[
        Rule(
            !options.add & !conditions_go_with(of, conditions),
            conditions_others_rule_of(of),
        ),
        Rule(
            conditions_have_file(conditions) & !(takes_apart(options) | options.add),
            conditions_file_rule_of(of),
        ),
    ])
}

/// Whether each file is a run of its own.
pub(crate) fn takes_apart(options: &Options) -> bool
    ensures { result ≡ takes_apart options.now }
{
    options.apart | options.repeats
}
