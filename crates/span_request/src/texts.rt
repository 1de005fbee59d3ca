//! Which text the options ask for.
ghost use Rattle.std.specs.Prelude.{◌≡◌};
ghost use Rattle.span_request.specs.Texts.{audience_of, has_table, is_any, leaves_text, most_rows, prints_table, shapes, texts};

use span_options::Options;
use span_table::Audience;

// The rows of a ranking that is meant though none is named.
const USUAL_ROWS: u32 = 20;

/// Which texts are asked for instead of the report.
pub(crate) fn texts(options: &Options) -> [bool; 5]
    ensures { result ≡ texts options.now }
{
    [
        options.top.is_some() & options.base.is_empty(),
        options.refused,
        options.folded,
        options.page,
        !options.base.is_empty(),
    ]
}

// Which options say how a table is made.
fn shapes(options: &Options) -> [bool; 10]
    ensures { result ≡ shapes options.now }
{
    [
        options.by.is_some(),
        options.numbers.is_some(),
        options.of.is_some(),
        options.group_by.is_some(),
        !options.conditions.is_empty(),
        options.merge_templates,
        !options.only.is_empty(),
        !options.skip.is_empty(),
        options.apart,
        options.add,
    ]
}

/// Whether one of them is given.
pub(crate) fn is_any(given: &[bool]) -> bool
    ensures { result ≡ is_any given.now }
{
    given.iter().any(|given| *given)
}

fn leaves_text(options: &Options) -> bool
    ensures { result ≡ leaves_text options.now }
{
    is_any(&shapes(options)) & !(options.json | is_any(&texts(options)))
}

/// The most rows of a ranking, if one is printed: as many as are asked for, or the usual number where a table is wanted and no text is
/// named.
pub(crate) fn most_rows(options: &Options) -> Option<u32>
    ensures { result ≡ most_rows options.now }
{
    if leaves_text(options) {
        return Some(USUAL_ROWS);
    }
    options.top
}

/// Whether a table is printed.
pub(crate) fn prints_table(options: &Options) -> bool
    ensures { result ≡ prints_table options.now }
{
    most_rows(options).is_some() | options.json | !options.base.is_empty()
}

/// Whether a table is printed, or shown on a page.
pub(crate) fn has_table(options: &Options) -> bool
    ensures { result ≡ has_table options.now }
{
    prints_table(options) | options.page
}

/// Whom its table is for: a page shows that for other programs.
pub(crate) fn audience_of(options: &Options) -> Audience
    ensures { result ≡ audience_of options.now }
{
    if options.json | options.page {
        Audience::Programs
    } else {
        Audience::People
    }
}
