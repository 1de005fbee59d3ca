//! The texts of the help.

// Lines are broken here, since the library breaks none: each is to end within 80 columns.
pub(crate) const LARGE_HELP: &str =
    r#"Read files of up to 4 GiB, with any number of elements, and not just
of 64 MiB and 4194304; a run takes some four times as much memory as
its files"#;

pub(crate) const NANOSECONDS_HELP: &str =
    r#"Read times with fractions of microseconds, each as the nearest
whole nanosecond; all times that are printed are then nanoseconds"#;

pub(crate) const SEAL_HELP: &str =
    r#"Close the spans that are still open at the end, each at the latest
time that its thread has seen; for a trace that was cut off, not
where a missing end is an error to look for"#;

pub(crate) const STRICT_HELP: &str =
    r#"Refuse (27) an end that names another span than the one it would
close, which then stays open; for a trace that may have lost begins"#;

pub(crate) const TOP_HELP: &str =
    r#"Print the first N rows of a table of all spans instead of the report;
without --group-by a row is a process, a thread and a name. Where an
option asks for a table and none for a text, it is --top 20"#;

pub(crate) const BY_HELP: &str =
    r#"The number that --top goes by, or whose change --base goes by: self,
total, count, longest or outer of spans; total, closed, open, points
or longest of async spans
[default: the first of --numbers, else self; of async spans total]"#;

pub(crate) const NUMBERS_HELP: &str =
    r#"Which numbers are shown, parted by commas: self, total, count,
longest, outer; with --of async total, closed, open, points, longest.
longest is the length of the longest span; outer is total without
spans that lie within one of their name. With --add keep just these
numbers of the tables; with --top, --json, --base and --page
[default: self, total, count; with --of async total, closed, open,
points; with --json or --page count, total, self, and closed, total,
open, points; with --add those of the tables]"#;

pub(crate) const OF_HELP: &str =
    r#"What a table sums: the spans of threads, or async spans, whose columns
are cat, scope, id, name, and with --apart or --repeats file; without
--group-by these are summed by cat and name
[default: spans] [possible values: spans, async]"#;

pub(crate) const GROUP_BY_HELP: &str =
    r#"Sum the spans of a table by these columns, 1 to 8 of them: pid, tid,
process, thread, name, args.KEY (an argument of the span), parent.name
and parent.args.KEY (of the span that it lies within), and with
--apart or --repeats file; with --add keep just these columns of the
tables; with --top, --json, --base and --page. With --folded, and in
the graphs of --page, name and args.KEY say what a frame is called"#;

pub(crate) const WHERE_HELP: &str =
    r#"Sum only spans whose value in a column is TEXT (COLUMN=TEXT), is not
(COLUMN!=TEXT), contains it (COLUMN~TEXT) or does not (COLUMN!~TEXT);
any column that --group-by may name, shown or not; a missing value is
the empty text; repeat it for several conditions, which are all to
hold; with --top, --json and --base"#;

pub(crate) const MERGE_TEMPLATES_HELP: &str =
    r#"Leave out what stands between the < and > of templates in names and
arguments, so that std::map<int, foo<bar>>::at is std::map<$>::at,
before --where, --only and --skip; with --top, --json, --base,
--folded and --page"#;

pub(crate) const APART_HELP: &str =
    r#"Take each FILE as a run of its own, whatever processes they share, and
add their tables, or their folded stacks; any number of files; with
--top, --json, --base, --folded and --page"#;

pub(crate) const REPEATS_HELP: &str =
    r#"Take each FILE, and each --base FILE, as one repetition, a run of its
own or with --add the table of one, and print the rows of which one
side is wholly above the other, with median, least and greatest; 1 to
64 on each side; with --base"#;

pub(crate) const ADD_HELP: &str =
    r#"Take each FILE as a table that --json printed, without --base, and add
them; any number of files; with --top, --json and --base. Tables say
themselves what they sum"#;

pub(crate) const JOBS_HELP: &str = r#"How many files are read and collected at once with --apart or
--repeats, 1 to 64
[default: the processors that the system grants]"#;

pub(crate) const FILE_HELP: &str =
    r#"A trace, or with --add a table; a folder stands for the files below it
whose names end in .json, or with --add in .jsonl; without a FILE, or
where it is -, standard input is read"#;

pub(crate) const FILES_FROM_HELP: &str =
    r#"Read names of further files from FILE, one a line, or parted by NULs
where it holds one; - is standard input"#;

pub(crate) const ONLY_HELP: &str =
    r#"Show only rows that have this text in a string of their columns;
repeat it for rows that have several texts"#;

pub(crate) const SKIP_HELP: &str =
    r#"Leave out rows that have this text in a string of their columns;
repeat it for several texts"#;

pub(crate) const JSON_HELP: &str =
    r#"Print the rows of a table for other programs, as JSON Lines; with
--base the rows that changed"#;

pub(crate) const REFUSED_HELP: &str =
    r#"Print why elements were refused instead of the report: for each
file and fault how many, and which was the first"#;

pub(crate) const FOLDED_HELP: &str =
    r#"Print the stacks of each thread instead of the report, for viewers
of flame graphs, each with its time in microseconds, or with
--nanoseconds in nanoseconds"#;

pub(crate) const PAGE_HELP: &str =
    r#"Print a page for a browser instead of the report, with its numbers
as tables and a flame graph of each thread"#;

pub(crate) const BASE_HELP: &str =
    r#"Print what changed since a run of FILE instead of the report; repeat
it for several files"#;

pub(crate) const ABOUT: &str =
    r#"Reports where the time went in trace event files of Chrome, clang, node and
other tools: for each thread and span name the number of spans, their total time
and their self time."#;

pub(crate) const AFTER: &str =
    r#"All times are whole microseconds, as Chrome, clang, node and cmake write them.
An event with a fraction, as in Go's build traces, is refused and counted;
begins and ends may then pair wrongly. --nanoseconds reads such times.

Several files have one report, whichever worker comes first, if no two of them
have a process in common, nor the key of an async span or flow whose id is not
local to a process.

Status:
  0  every file was read, and the report is on standard output
  1  a file is not a trace, which standard error says; the report of the others
     is on standard output
  2  usage error, a file could not be read or added, out of memory, or the limit
     was reached: there is no report

Examples:
  tracebook --top 20 --skip 'Total ' build.json
shows the names that took the most self time, each with its process and thread,
without clang's own sums.
  tracebook --by total --group-by name,args.detail build.json
shows which headers (Source), templates and functions took clang the most time.
  tracebook --apart --json --group-by name,args.detail a/*.json > a.jsonl
  tracebook --add --top 20 a.jsonl b.jsonl
adds what two machines summed."#;
