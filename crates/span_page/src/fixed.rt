//! The fixed texts before and behind a page's data. Made by `page/join` of the sources beside it.

pub(crate) const BEFORE: &str = r#"<!DOCTYPE html>
<html lang="en">
<head>
<meta charset="utf-8">
<meta http-equiv="Content-Security-Policy" content="default-src 'none'; script-src 'sha256-XgQe1DxWKbXPxZie0Lguxq4g2iQq90rsgPuiWmCAlpc='; style-src 'sha256-NEwf2LvAj4k+0ewAZqHw0ciUOPUZDFTrfVipzsqD2W4='; base-uri 'none'; form-action 'none'">
<meta name="viewport" content="width=device-width, initial-scale=1">
<meta name="color-scheme" content="light dark">
<title>tracebook</title>
<style>
:root {
  color-scheme: light dark;
  --text: #1c2024; --quiet: #596169; --paper: #ffffff; --ground: #e6e9ec; --line: #d3d8dd;
  --bar-color: #f3c9a0; --link: #0b57a4; --warning: #fff3d6; --warning-line: #b76e00; --lightness: 80%; --focus: #0a3f8f;
}
@media (prefers-color-scheme: dark) {
  :root {
    --text: #e7eaee; --quiet: #a3acb6; --paper: #15181c; --ground: #30363d; --line: #3a4149;
    --bar-color: #6b4420; --link: #8fc1ff; --warning: #3a2c10; --warning-line: #e0a03a; --lightness: 25%; --focus: #ffffff;
  }
}
html { scroll-padding-top: 4rem; }
html:has(#calls:not([hidden])) { scroll-padding-bottom: 35vh; }
* { box-sizing: border-box; }
body { margin: 0 auto; max-width: 1500px; padding: 0 1.25rem 3rem; background: var(--paper); color: var(--text);
  font: 14px/1.45 system-ui, "Segoe UI", "Liberation Sans", "DejaVu Sans", sans-serif; }
header { display: flex; flex-wrap: wrap; align-items: baseline; gap: 0 1.5rem; padding-top: 1rem; }
h1 { font-size: 1.3rem; margin: 0; }
h2 { font-size: 1.1rem; margin: 0; white-space: nowrap; }
.title { display: flex; flex-wrap: wrap; align-items: baseline; gap: 0 1rem; margin: 1rem 0 0.25rem; }
.title p { flex: 1; min-width: min(30rem, 100%); }
p { margin: 0.25rem 0; }
#counts { display: flex; flex-wrap: wrap; gap: 0 1.1rem; color: var(--quiet); }
#counts > * { min-width: 0; overflow-wrap: anywhere; }
#files[open] { flex: 0 0 100%; }
#files ul { margin: 0.25rem 0; padding-left: 1.2rem; columns: 24rem; overflow-wrap: anywhere; }
#counts b { color: var(--text); font-variant-numeric: tabular-nums; }
.warning { margin: 0.75rem 0; padding: 0.5rem 0.9rem; background: var(--warning); border-left: 4px solid var(--warning-line); }
.warning li { overflow-wrap: anywhere; }
.warning ul { margin: 0.25rem 0; padding-left: 1.2rem; }
/* On a wide screen what narrows is one line, since that covers what is scrolled to. */
#narrowing { position: sticky; top: 0; z-index: 2; display: flex; align-items: baseline; gap: 0.4rem 1.2rem;
  padding: 0.6rem 0; background: var(--paper); border-bottom: 1px solid var(--line); }
#narrowing label:not([hidden]) { display: flex; align-items: baseline; gap: 0.3rem; min-width: 0; }
#narrowing input, #narrowing select { min-width: 0; }
#file { max-width: 16rem; }
input, select, button { font: inherit; color: inherit; background: var(--paper); border: 1px solid var(--line); border-radius: 4px;
  padding: 0.15rem 0.5rem; }
input { width: 21rem; max-width: 100%; }
select { max-width: 22rem; }
button { cursor: pointer; }
button:disabled { cursor: default; color: var(--quiet); }
:focus-visible { outline: 2px solid var(--focus); outline-offset: 1px; }
.status, .hint, .quiet { color: var(--quiet); }
.status:empty { display: none; }
.wide { overflow-x: auto; margin: 0.25rem 0; }
table { border-collapse: collapse; width: 100%; }
th, td { padding: 0.15rem 0.7rem; text-align: left; vertical-align: top; border-bottom: 1px solid var(--line); white-space: nowrap;
  line-height: 1.35; }
th { padding: 0.1rem 0.2rem; }
th button { border: 0; width: 100%; font-weight: 600; text-align: inherit; }
th[aria-sort="descending"] button::after { content: " \25BE"; }
th[aria-sort="ascending"] button::after { content: " \25B4"; }
.number { text-align: right; font-variant-numeric: tabular-nums; }
td.number { min-width: 5.5rem; }
td.barred { min-width: 11rem; }
.barred { background: linear-gradient(var(--bar-color), var(--bar-color)) left / var(--bar) 100% no-repeat; }
td { max-width: 22rem; overflow: hidden; text-overflow: ellipsis; }
/* Names are divided where they say so alone; in narrow columns they aren't. */
bdi { white-space: nowrap; }
wbr, .long { white-space: normal; }
.long { display: inline-block; max-width: 100%; vertical-align: top; overflow-wrap: anywhere; }
td:not(.name, .detail) wbr { display: none; }
td.name { width: 99%; min-width: 18rem; max-width: 40rem; white-space: normal; overflow-wrap: anywhere; }
td.name:has(+ td.detail) { width: 20%; min-width: 8rem; }
td.detail { width: 60%; min-width: 14rem; max-width: 40rem; white-space: normal; overflow-wrap: anywhere; }
#names tbody tr { cursor: pointer; }
tr[aria-current] { background-color: var(--ground); }
button.name { border: 0; padding: 0; line-height: inherit; vertical-align: top; background: none; text-align: left; color: var(--link); }
button.name:hover { text-decoration: underline; }
details, .left-out { margin: 0.35rem 0; }
summary { padding: 0.2rem 0.3rem; cursor: pointer; overflow-wrap: anywhere; }
#whole > details, #whole > .left-out, #graphs > details, #graphs > .left-out, #others > details { border: 1px solid var(--line); border-radius: 6px; padding: 0.2rem 0.6rem; }
.busy { display: inline-block; min-width: 17rem; margin-right: 0.8rem; padding: 0 0.4rem; font-variant-numeric: tabular-nums; }
.graph { padding: 0.3rem 0 0.4rem; }
.steps { display: flex; gap: 0.5rem; align-items: start; }
.steps button { white-space: nowrap; }
.told { flex: 1; min-width: 0; min-height: 4rem; margin: 0; font-variant-numeric: tabular-nums; }
.label, .label > * { display: block; overflow-wrap: anywhere; }
.told .label { max-height: 2.6rem; overflow-y: auto; }
.stage { position: relative; }
.tip { position: absolute; z-index: 1; width: max-content; max-width: min(34rem, 100%); padding: 0.3rem 0.6rem; pointer-events: none;
  background: var(--paper); border: 1px solid var(--quiet); border-radius: 4px; font-variant-numeric: tabular-nums; }
.view { overflow-x: hidden; overflow-y: auto; }
.spacer { position: relative; }
canvas { position: sticky; top: 0; display: block; width: 100%; }
/* What a row calls stays in sight, below what is scrolled to. */
#calls { position: sticky; bottom: 0; z-index: 1; max-height: 35vh; overflow-y: auto; margin: 1rem -0.6rem 0; padding: 0 0.6rem 0.3rem;
  background: var(--paper); border: 1px solid var(--quiet); border-radius: 6px 6px 0 0; }
#calls .title { position: sticky; top: 0; z-index: 1; margin: 0; padding: 0.4rem 0; background: var(--paper); }
#calls-of { overflow-wrap: anywhere; }
#calls-lists:not([hidden]) { display: grid; grid-template-columns: 1fr 1fr; gap: 0 2rem; }
#calls-lists > * { min-width: 0; }
#calls td.name { min-width: 10rem; }
#calls td.barred { min-width: 8rem; }
.unseen { position: absolute; width: 1px; height: 1px; overflow: hidden; clip-path: inset(50%); white-space: nowrap; }
/* On a narrow screen a row stands as a few lines: its name, the number that has a bar, and the others, each behind its title. */
@media screen and (max-width: 60rem) {
  html { scroll-padding-top: 0.5rem; }
  body { padding: 0 0.9rem 3rem; }
  #narrowing { position: static; flex-wrap: wrap; }
  label, input, select { max-width: 100%; }
  table, thead, tbody, th, td { display: block; }
  tr { display: flex; flex-wrap: wrap; gap: 0 1rem; padding: 0.35rem 0; border-bottom: 1px solid var(--line); }
  th, td, td.name, td.name:has(+ td.detail), td.detail, td.number, td.barred { width: auto; min-width: 0; max-width: 100%; padding: 0; border: 0; text-align: left;
    white-space: normal; overflow-wrap: anywhere; }
  td.name, td.detail, td.barred, #calls td.name, #calls td.barred { flex: 0 0 100%; min-width: 0; }
  td:not(.name, .detail) wbr { display: inline; }
  #calls-lists:not([hidden]) { display: block; }
  td:empty { display: none; }
  td:not(.name)::before { content: attr(data-title) " "; color: var(--quiet); }
  td.barred::before { color: inherit; }
  .busy { min-width: 0; }
  .steps { flex-wrap: wrap; }
  .told { flex: 0 0 100%; overflow-wrap: anywhere; }
}
/* In print all of a table is seen, so names are wrapped, and there is nothing to press. */
@media print {
  body { max-width: none; padding: 0; font-size: 12px; }
  #narrowing { position: static; flex-wrap: wrap; }
  .wide { overflow: visible; }
  th, td { padding: 0.1rem 0.4rem; white-space: normal; }
  td { min-width: 4.5rem; max-width: none; overflow-wrap: anywhere; }
  td.name, td.detail, td.name:has(+ td.detail) { width: auto; min-width: 7rem; max-width: none; }
  td.number, td.barred { min-width: 0; white-space: nowrap; }
  td:not(.name, .detail) wbr { display: inline; }
  #calls { position: static; max-height: none; overflow: visible; margin: 1rem 0 0; padding: 0; border: 0; }
  #calls-lists:not([hidden]) { display: block; }
  /* Three times, whose titles have a unit behind a comma, may be wider than paper. */
  tr:has([data-title*=","] ~ [data-title*=","] ~ [data-title*=","]) td[data-title*=","] { min-width: 4.5rem; white-space: normal; }
  th button { padding: 0; }
  tr { break-inside: avoid; }
  .barred { print-color-adjust: exact; }
  .told .label { max-height: none; }
  canvas { height: auto !important; }
  .more, p.hint, .tip, .steps button, #calls-close { display: none; }
}
</style>
</head>
<body>
<header>
<h1>tracebook</h1>
<p id="counts"></p>
<details id="files" hidden><summary>Names of the files</summary></details>
</header>
<main aria-busy="true">
<noscript><p class="warning">This page shows its numbers with a script, and scripts are off.</p></noscript>
<section id="warnings" aria-label="Warnings" hidden></section>
<div id="narrowing" role="search">
<label>Words <input id="words" type="search" maxlength="2000" spellcheck="false" autocomplete="off" aria-keyshortcuts="/" placeholder="to find, or -word to leave out; key: /"></label>
<label hidden>File <select id="file"></select></label>
<label class="of-runs">Process <select id="process"></select></label>
<label class="of-runs">Thread <select id="thread"></select></label>
</div>
<section aria-labelledby="names-title">
<div class="title"><h2 id="names-title">Spans</h2>
<p class="hint"><span id="times"></span> A click on a column sorts<span class="of-runs">; a click on a row shows its callers and callees, and its frames in a flame graph</span>. The address shows the view again.
<span id="over-files" hidden>Rows are of all files together; with the column file (--group-by) each file has its own.</span></p></div>
<div id="names"></div>
</section>
<section aria-labelledby="graphs-title">
<div class="title"><h2 id="graphs-title">Flame graphs</h2>
<p class="hint" id="of-graphs"><label>Order
<select id="order"><option value="widest">widest first</option><option value="name">by name</option></select></label>
A click or Enter zooms into a frame, Ctrl and the wheel at the pointer; Escape or Backspace goes back, 0 leaves the zoom, arrow keys move.</p></div>
<p id="left-out" class="warning" hidden></p>
<div id="whole"></div>
<div id="graphs"></div>
<p id="graphs-shown" class="status" role="status"></p>
<button id="more-graphs" class="more" type="button" hidden>Show more threads</button>
</section>
<p id="unstacked" class="hint" hidden>What follows stands in no stack, so it has no callers and callees.</p>
<div id="others"></div>
<section id="calls" aria-labelledby="calls-title" hidden>
<div class="title"><h2 id="calls-title" tabindex="-1">Callers and callees</h2><p id="calls-of"></p><button id="calls-close" type="button">Close</button></div>
<div id="calls-notes"></div>
<div id="calls-lists"></div>
</section>
</main>
<script type="application/json" id="data">"#;

pub(crate) const BEHIND: &str = r#"</script>
<script type="module">
// Reads the text of a report and that of refusals, and writes numbers and names for people. Times and counts are BigInts, since
// they may need more digits than a number has.

/** Where the JSON text ends that begins at a place of a line. */
function endOfText(line, start) {
  const quote = line.indexOf('"', start + 1);
  if (line[quote - 1] !== "\\") return quote + 1;
  let at = start + 1;
  while (line[at] !== '"') at += line[at] === "\\" ? 2 : 1;
  return at + 1;
}

/** Where the word ends that begins at a place of a line. Blanks within a JSON text are its own. */
function endOfWord(line, start) {
  let at = start;
  while (at < line.length && line[at] !== " ") at = line[at] === '"' ? endOfText(line, at) : at + 1;
  return at;
}

function wordsOf(line) {
  const words = [];
  let at = 0;
  while (at < line.length) {
    const end = endOfWord(line, at);
    if (end > at) words.push(line.slice(at, end));
    at = end + 1;
  }
  return words;
}

/** The name of a process or thread, or null where it has none. */
function nameOf(word) {
  return word === "-" ? null : JSON.parse(word);
}

const NO_ID = "-";

/** An id as it is shown: a local one with its process. */
function idOf(word) {
  const quote = word.indexOf('"');
  if (quote < 0) return NO_ID;
  const text = shown(JSON.parse(word.slice(quote)));
  return quote === 0 ? text : `${text} (process ${word.slice(0, quote - 1)})`;
}

/** A name, or null, and the number with the name, as it stands in tables and choices. */
function namesOf(number, name) {
  return { name, label: name === null ? number : `${shown(name)} (${number})` };
}

// The units in which runs count time: their words, their nanoseconds, and what a time in a trace has to be.
const MICROSECONDS = { word: "microsecond", sign: "\u00b5s", length: 1000n, read: "a whole number of microseconds" };
const NANOSECONDS = { word: "nanosecond", sign: "ns", length: 1n, read: "a number" };

/** How each line of a report is read, by its first word; a line stands under the file, the process and the thread that were read last. */
const READERS = {
  unit: (report) => { report.unit = NANOSECONDS; },
  process: (report, [, number, name]) => report.processes.push({
    number, at: report.processes.length, ...namesOf(number, nameOf(name)), file: report.file }),
  thread: (report, [, , number, name, , open, , busy]) => report.threads.push({
    number, at: report.threads.length, ...namesOf(number, nameOf(name)),
    file: report.file, process: report.processes.at(-1), open: BigInt(open), busy: BigInt(busy) }),
  instant: (report, [, reach, count, name]) => report.instants.push({
    file: report.file, process: report.processes.at(-1), thread: report.threads.at(-1),
    name: JSON.parse(name), reach: REACHES[reach], count: BigInt(count) }),
  counter: (report, [, , name, id, series, , samples, , least, , greatest, , last]) => report.counters.push({
    file: report.file, process: report.processes.at(-1), name: JSON.parse(name), id: idOf(id), series: JSON.parse(series),
    samples: BigInt(samples), least: BigInt(least), greatest: BigInt(greatest), last: BigInt(last) }),
  async: (report, [, category, scope, id, name, , closed, , total, , open, , points]) => report.asyncs.push({
    file: report.file, category: JSON.parse(category), scope: JSON.parse(scope), id: idOf(id), name: JSON.parse(name),
    closed: BigInt(closed), total: BigInt(total), open: BigInt(open), points: BigInt(points) }),
  flow: (report, [, category, name, id, , ended, , total, , open]) => report.flows.push({
    file: report.file, category: JSON.parse(category), name: JSON.parse(name), id: idOf(id),
    ended: BigInt(ended), total: BigInt(total), open: BigInt(open) }),
};

const REACHES = { g: "global", p: "process", t: "thread" };

/** Puts what the text of a report says to what was read before it. Its counts and the spans are left out: these stand in the table. */
function readReport(report, text) {
  for (const line of text.split("\n").filter((one) => !one.startsWith("span "))) {
    const words = wordsOf(line);
    READERS[words[0]]?.(report, words);
  }
}

/** The lines that say why events of a file were refused. */
function readRefusals(text) {
  const lines = text.split("\n").map(wordsOf).filter(([word]) => word === "refused");
  return lines.map(([, count, code, word, , first, file]) => ({
    count: BigInt(count), code, word, first: BigInt(first), file: JSON.parse(file) }));
}

/** A number with its digits in groups of three. */
function grouped(number) {
  return number.toString().replace(/\B(?=(\d{3})+$)/g, ",");
}

// Longer units, the longest first, with their nanoseconds.
const UNITS = [["d", 86400000000000n], ["h", 3600000000000n], ["min", 60000000000n], ["s", 1000000000n], ["ms", 1000000n], ["\u00b5s", 1000n]];

/** A time in the unit of the page, and beside it three digits in the longer one that suits it. */
function timeText(time) {
  const exact = `${grouped(time)} ${unit.sign}`;
  const own = time * unit.length;
  const [sign, length] = UNITS.find(([, least]) => least > unit.length && own >= least) ?? [];
  if (sign === undefined) return exact;
  const places = own >= 100n * length ? 0 : own >= 10n * length ? 1 : 2;
  const rounded = (2n * own * 10n ** BigInt(places) + length) / (2n * length);
  const digits = rounded.toString();
  const whole = grouped(digits.slice(0, digits.length - places));
  return `${exact} (${whole}${places > 0 ? "." : ""}${digits.slice(digits.length - places)} ${sign})`;
}

/** How many hundredths a part is of a whole, to one place. */
function shareText(part, whole) {
  if (whole === 0n) return "";
  const tenths = (2000n * part + whole) / (2n * whole);
  return part > 0n && tenths === 0n ? "< 0.1 %" : `${grouped(tenths / 10n)}.${tenths % 10n} %`;
}

function add(numbers) {
  return numbers.reduce((sum, number) => sum + number, 0n);
}

function greatest(numbers) {
  return numbers.reduce((most, number) => (number > most ? number : most), 0n);
}

/** A part of a whole as a fraction, for what is drawn. */
function fraction(part, whole) {
  return whole === 0n ? 0 : Number(part) / Number(whole);
}

const UNSEEN = /[\u0000-\u001f\u007f-\u009f\u00ad\u061c\u180e\u200b\u200e\u200f\u2028-\u202e\u2060-\u206f\ufeff\ufff9-\ufffb]/g;

/** A name with what would not be seen, or would turn the text around it, as escapes. */
function shown(name) {
  return name === "" ? '""' : name.replace(UNSEEN, (letter) => "\\u" + letter.charCodeAt(0).toString(16).padStart(4, "0"));
}

/** A text with an ellipsis for its middle where it is longer; no letter of two code units is divided. */
function cut(text, most) {
  if (text.length <= most) return text;
  const end = Math.floor((most - 1) / 2);
  const first = text.slice(0, most - 1 - end).replace(/[\ud800-\udbff]$/, "");
  return `${first}\u2026${text.slice(text.length - end).replace(/^[\udc00-\udfff]/, "")}`;
}

/** A name as it is shown, cut to so many letters. It is cut before too, so that no long name is looked through each time it is drawn. */
function brief(name, most) {
  return cut(shown(cut(name, most)), most);
}

// Reads the runs of a page into one report. There is one run, of one file or of several that were collected together; or each file is a
// run of its own, and then all that is read of a run knows its file. A page of very many such files has none of their runs.

/** The file that a fault line is of, and how it ended. */
function faultOf(line) {
  const start = line.indexOf('"');
  const end = endOfText(line, start);
  return { name: JSON.parse(line.slice(start, end)), end: line.slice(end).replace(/^: /, "") };
}

/** The files of a run in their order, each with how it ended, or null where it was read whole: then it has no fault line. */
function filesOfRun({ files, faults }) {
  const lines = faults.split("\n").slice(0, -1).map(faultOf);
  return files.map((name) => ({ name, end: lines[0]?.name === name ? lines.shift().end : null }));
}

/** The files of all runs in their order. */
function filesOf(runs) {
  return runs.flatMap(filesOfRun).map(({ name, end }, at) => ({ name, label: name, at, end }));
}

/** What was traced in all runs, one after another. */
function readRuns(runs) {
  const files = filesOf(runs);
  const report = { files, processes: [], threads: [], instants: [], counters: [], asyncs: [], flows: [], file: null, unit: MICROSECONDS };
  runs.forEach((run, at) => {
    report.file = run.files.length === 1 ? files[at] : null;
    if (report.file !== null) report.file.hasSpans = /^span /m.test(run.report);
    readReport(report, run.report);
  });
  return report;
}

// Reads the table of closed spans, which is JSON Lines: its columns and numbers, and rows with a key, whose values stand in the order of
// the columns, and with these numbers. A key says of which threads a row can be; the frames of a row are those of these threads that have
// its label.

// The numbers of a table whose head names none, as they are shown.
const USUAL_NUMBERS = ["self", "total", "count"];

// Values, each with its kind, which is its place among the kinds as they are ordered, what orders it among those of its kind, and the word
// that stands for it in a label.
const KINDS = { missing: 0, null: 1, false: 2, true: 3, whole: 4, text: 5, other: 6 };
const NOTHING = { kind: KINDS.missing, order: 0, word: null };

/** What a column of a place has of a thread. */
const PLACES = {
  pid: (thread) => thread.process.number,
  tid: (thread) => thread.number,
  process: (thread) => thread.process.name,
  thread: (thread) => thread.name,
  file: (thread) => thread.file?.inTable ?? null,
};

const isPlace = (column) => Object.hasOwn(PLACES, column);
const isOfLabel = (column) => column === "name" || column.startsWith("args.");
// The names and arguments of parents are no part of a label, since frames are labelled by what their own spans have.
const isOfParent = (column) => column.startsWith("parent.");
const isOfWords = (column) => column === "file" || isOfLabel(column) || isOfParent(column);

const textValue = (word) => ({ kind: KINDS.text, order: word, word });

/** The value of a JSON text. */
function valueOf(text) {
  if (text.startsWith('"')) return textValue(JSON.parse(text));
  if (/^-?\d/.test(text)) return { kind: KINDS.whole, order: BigInt(text), word: text };
  return text === "{}" ? { kind: KINDS.other, order: 0, word: "..." } : { kind: KINDS[text], order: 0, word: text };
}

function compareValues(one, other) {
  return compare(one.kind, other.kind) || compare(one.order, other.order);
}

/** The members of the object on a line, with their JSON texts. The last of them are numbers. */
function membersOf(line) {
  const members = new Map();
  for (let at = 1; at < line.length;) {
    const colon = endOfText(line, at);
    const comma = line[colon + 1] === '"' ? endOfText(line, colon + 1) : line.indexOf(",", colon);
    const end = comma < 0 ? line.length - 1 : comma;
    members.set(JSON.parse(line.slice(at, colon)), line.slice(colon + 1, end));
    at = end + 1;
  }
  return members;
}

/** Lists of the items with a key, for each. */
function byKey(items, keyOf) {
  const lists = new Map();
  for (const item of items) {
    const key = keyOf(item);
    if (!lists.has(key)) lists.set(key, []);
    lists.get(key).push(item);
  }
  return lists;
}

/** The threads for each list of what these columns have of them, with their busy time. */
function placesOf(columns, threads) {
  const keyOf = (thread) => JSON.stringify(columns.map((column) => PLACES[column](thread)));
  return new Map([...byKey(threads, keyOf)].map(([key, own]) => [key, { threads: own, has: new Set(own), busy: busyTimeOf(own) }]));
}

/** Puts to each file the name that the table has it by: its own, or its path below the folder that all files are of. */
function nameInTable(files, names) {
  const own = files.filter(({ hasSpans }) => hasSpans).map(({ name }) => name);
  const cuts = [0, ...[...(own[0] ?? "").matchAll(/\//g)].map(({ index }) => index + 1)];
  const isOfNames = (cut) => names.isSubsetOf(new Set(own.map((name) => name.slice(cut))));
  const cut = cuts.find(isOfNames) ?? 0;
  for (const file of files) file.inTable = file.name.slice(cut);
}

function busyTimeOf(threads) {
  return add(threads.map(({ busy }) => busy));
}

const NOWHERE = { threads: [], has: new Set(), busy: 0n };

class SpanTable {
  /** The table of a text, of the spans of what was traced. */
  constructor(text, { files, threads }) {
    const [head, ...lines] = text.split("\n").slice(0, -1);
    const counts = JSON.parse(head);
    const { columns, numbers = USUAL_NUMBERS } = counts;
    const indexesOf = (isAsked) => columns.flatMap((column, at) => (isAsked(column) ? [at] : []));
    this.inPlace = indexesOf(isPlace);
    this.inLabel = indexesOf(isOfLabel);
    this.inWords = indexesOf(isOfWords);
    this.labelTitle = this.inLabel.map((at) => columns[at]).join(" ") || "label";
    // Values are known by their texts, since most stand in many rows.
    Object.assign(this, { columns, numbers, counts, values: new Map(), labelled: null, shorts: new Map() });
    this.unit = counts.unit === NANOSECONDS.sign ? NANOSECONDS : MICROSECONDS;
    this.rows = lines.map((line) => this.rowOf(membersOf(line)));
    const fileAt = columns.indexOf("file");
    if (fileAt >= 0) nameInTable(files, new Set(this.rows.map(({ values }) => values[fileAt].word)));
    this.places = placesOf(columns.filter(isPlace), threads);
    for (const row of this.rows) row.place = this.placeOf(row);
  }

  /** A row: the values of its key, its numbers, its label, which is null where no column is of labels, and the words that are looked through
   * for it. */
  rowOf(members) {
    const values = this.columns.map((column) => this.valueOf(members.get(column)));
    const textOf = (indexes) => indexes.map((at) => values[at].word).filter((word) => word !== null).join(" ");
    const numbers = this.numbers.map((name) => BigInt(members.get(name)));
    const label = this.inLabel.length > 0 ? textOf(this.inLabel) : null;
    return { values, numbers, place: NOWHERE, label, words: textOf(this.inWords) };
  }

  /** What gives a row's number of this name, which the table has. */
  numberIn(name) {
    const at = this.numbers.indexOf(name);
    return ({ numbers }) => numbers[at];
  }

  /** The threads that a row can be of. */
  placeOf({ values }) {
    return this.places.get(JSON.stringify(this.inPlace.map((at) => values[at].word))) ?? NOWHERE;
  }

  valueOf(text) {
    if (text === undefined) return NOTHING;
    if (!this.values.has(text)) this.values.set(text, valueOf(text));
    return this.values.get(text);
  }

  /** The values that make a row's label, each with its column. */
  partsOf({ values }) {
    const parts = this.inLabel.map((at) => ({ column: this.columns[at], value: values[at] }));
    return parts.filter(({ value }) => value !== NOTHING);
  }

  rowsWithLabel(label) {
    this.labelled ??= byKey(this.rows, (row) => row.label);
    return this.labelled.get(label) ?? [];
  }

  /** The rows with a label at a place, which have the same frames. */
  rowsOf(label, place) {
    return this.rowsWithLabel(label).filter((row) => row.place === place);
  }

  /** The shorter texts of the paths in a column. */
  shortsOf(column) {
    if (!this.shorts.has(column)) this.shorts.set(column, shortPaths(this.textsIn(this.columns.indexOf(column))));
    return this.shorts.get(column);
  }

  /** The texts in the column at an index, each once. A label that is its only part may stand for a column that isn't there. */
  textsIn(at) {
    const values = new Set(at < 0 ? [] : this.rows.map(({ values }) => values[at]));
    return [...values].filter(({ kind }) => kind === KINDS.text).map(({ word }) => word);
  }

  /** The same of a frame, by its label and its thread. If several rows have that label by other values, the label is the only part. */
  framePartsOf(label, thread) {
    const rows = this.rowsWithLabel(label).filter(({ place }) => place.has.has(thread));
    const [first, ...others] = rows.map((row) => this.partsOf(row));
    return first?.length > 0 && others.every((parts) => areAlike(parts, first)) ? first : plainParts(label);
  }
}

/** A label that is its only part. */
function plainParts(label) {
  return [{ column: "name", value: textValue(label) }];
}

function areAlike(parts, others) {
  return parts.length === others.length && parts.every(({ column, value }, at) => column === others[at].column && value === others[at].value);
}

// Paths as a column shows them: without the folder that nearly all of them lie in, which is found once for the column. Since a trace has
// paths of several trees, as a system's headers and a project's, each tree has such a folder.

const NEARLY_ALL = 0.95;
const LONGEST_PATH = 4096; // letters, more than which no system opens

const isPath = (text) => text.length <= LONGEST_PATH && /^\.{0,2}\//.test(text);

/** The steps of a path where those that lead up are taken: `/a/b/../c` has those of `/a/c`. */
function stepsOf(path) {
  const steps = [];
  for (const step of path.split("/")) {
    if (step === ".." && steps.length > 1 && steps.at(-1) !== "..") steps.pop();
    else if (step !== "." && (step !== "" || steps.length === 0)) steps.push(step);
  }
  return steps;
}

/** How many steps lead to the deepest folder that has nearly all of some paths below it, and which of them those are. */
function deepestOf(paths) {
  let below = paths;
  for (let depth = 0; ; depth += 1) {
    const folders = byKey(below.filter(({ steps }) => steps.length > depth + 1), ({ steps }) => steps[depth]);
    const next = [...folders.values()].find(({ length }) => length >= NEARLY_ALL * paths.length);
    if (next === undefined) return { depth, below };
    below = next;
  }
}

/** The shorter texts of the paths among some different ones. Of two paths with one shorter text neither has it. */
function shortPaths(texts) {
  const paths = texts.filter(isPath).map((text) => ({ text, steps: stepsOf(text) }));
  const owners = new Map();
  for (const tree of byKey(paths, ({ steps }) => steps.slice(0, 2).join("/")).values()) {
    const { depth, below } = tree.length > 1 ? deepestOf(tree) : { below: [] };
    for (const { text, steps } of below) {
      const short = `\u2026/${steps.slice(depth).join("/")}`;
      owners.set(short, owners.has(short) ? null : text);
    }
  }
  return new Map([...owners].filter(([, text]) => text !== null).map(([short, text]) => [text, short]));
}

// Names as they stand on the page: as text alone, cut where they are long, and divided where a line may end.

// The most letters of a name, of what stands beside names, of a name that is shown as a whole, of one that is divided, and of a part of it
// that stays on one line.
const LONGEST_NAME = 160;
const LONGEST_LABEL = 40;
const LONGEST_WHOLE = 65536;
const LONGEST_DIVIDED = 1024;
const LONGEST_PART = 20;

// Where a line may end: behind `::`, `/` and `_`, but for an `_` that begins a word, and before a capital that begins one.
const ENDS = /(?<=::|\/)|(?<=[\p{L}\p{N}]_+)(?!_)|(?<=[^\p{Lu}_])(?=\p{Lu})|(?<=\p{Lu})(?=\p{Lu}\p{Ll})/u;

function element(tag, properties = {}, ...children) {
  const made = Object.assign(document.createElement(tag), properties);
  made.append(...children);
  return made;
}

/** A part of a name. A long one may be divided as other texts are, but just where a whole line has no room for it. */
function partOf(text) {
  return text.length > LONGEST_PART ? element("span", { className: "long" }, text) : text;
}

/** A text, with an element between the parts of which each may stand on a line of its own. */
function divided(text) {
  return text.split(ENDS).flatMap((part, at) => (at === 0 ? [partOf(part)] : [element("wbr"), partOf(part)]));
}

/** A name as an element that keeps the direction of its letters to itself, by a shorter text if it has one. The whole is its title. */
function nameElement(name, most = LONGEST_NAME, short = name) {
  const text = brief(short, most);
  return element("bdi", { title: brief(name, LONGEST_WHOLE) }, ...(text.length > LONGEST_DIVIDED ? [partOf(text)] : divided(text)));
}

/** A value of a key. What is neither a text nor a number stands back, so that null is another thing than the text "null". */
function valueElement({ kind, word }, most = LONGEST_NAME, short = word) {
  if (kind === KINDS.text) return nameElement(word, most, short);
  return element("span", { className: kind === KINDS.whole ? "" : "quiet" }, word ?? "-");
}

// Tables that are sorted by a click on a column, and show a bounded number of rows.

const FIRST_ROWS = 10;
const MORE_ROWS = 200;

/** Draws a bar behind what an element says, as wide as a fraction of it. */
function setBar(element, width) {
  element.classList.add("barred");
  element.style.setProperty("--bar", `${100 * width}%`);
}

function compare(one, other) {
  return one < other ? -1 : one > other ? 1 : 0;
}

/** Tells what is around an element that a person has changed the view. */
function tellOfChange(element) {
  element.dispatchEvent(new Event("viewchange", { bubbles: true }));
}

// The kinds of columns: `value` orders the rows, by `order` if it says how, and `fill` makes what stands in a cell. Processes and threads
// keep the report's order. Names are the first column, so that what a row is about is seen on any screen. `bar` is how wide a bar is
// behind a number, as a fraction; it is told the greatest number of all rows that are narrowed to. `isNone` says of a row that it has
// nothing in the column.

const numberColumn = (title, value, more) => ({ title, value, kind: "number", fill: (row) => grouped(value(row)), ...more });
const timeColumn = (title, value, more) => numberColumn(`${title}, ${unit.sign}`, value, more);
const textColumn = (title, value) => ({ title, value, fill: (row) => nameElement(value(row), LONGEST_LABEL) });
const nameColumn = (value, more) => ({ title: "name", value, kind: "name", fill: (row) => nameElement(value(row)), ...more });
const keyColumn = (title, value, more) => ({ title, value, order: compareValues, fill: (row) => valueElement(value(row), LONGEST_LABEL), ...more });
const listedColumn = (title, item) => ({ ...textColumn(title, (row) => item(row).label), value: (row) => item(row).at });

/** The columns in which some row has a value. Without rows all are. */
function columnsWithValues(columns, rows) {
  return columns.filter(({ isNone }) => isNone === undefined || rows.length === 0 || !rows.every(isNone));
}

/** A column as an order names it: its title without the unit. */
function wordOf(column) {
  return column.title.split(",")[0];
}

class Table {
  /** `what` is what the rows are, as "names"; `together` is what is told of all rows. The greatest of the first number lead. */
  constructor(what, columns, together = []) {
    Object.assign(this, { what, columns, together, given: [], rows: [], all: 0 });
    this.order = this.current = null;
    this.firstOrder = this.order;
    this.status = element("p", { className: "status", role: "status" });
    this.head = element("tr", { role: "row" }, ...columns.map((column) => this.headOf(column)));
    this.body = element("tbody", { role: "rowgroup" });
    this.more = element("button", { type: "button", className: "more", onclick: () => this.showMore() });
    // The roles are said, since the style takes rows apart on a narrow screen.
    const table = element("table", { role: "table", ariaLabel: what }, element("thead", { role: "rowgroup" }, this.head), this.body);
    this.element = element("div", { className: "table" }, this.status, element("div", { className: "wide" }, table), this.more);
  }

  headOf(column) {
    const button = element("button", { type: "button", onclick: () => this.sortBy(column) }, brief(column.title, LONGEST_LABEL));
    return element("th", { role: "columnheader", scope: "col", ariaSort: "none", className: column.kind ?? "" }, button);
  }

  /** Shows these of all rows, in the order that was chosen; where that leaves a choice, in the order in which they are given. */
  show(rows, all = rows) {
    this.given = rows;
    this.all = all.length;
    this.greatest = new Map(this.columns.filter(({ bar }) => bar).map((column) => [column, greatest(rows.map(column.value))]));
    this.sort();
  }

  sortBy(column) {
    this.isDescending = this.sorted === column ? !this.isDescending : column.kind === "number";
    this.sorted = column;
    this.sort();
    tellOfChange(this.element);
  }

  /** The order as a text, with a hyphen where what is greatest leads. */
  get order() {
    return `${this.isDescending ? "-" : ""}${wordOf(this.sorted)}`;
  }

  /** Takes an order for the rows that are shown next; any other text, or null, is the order at first. */
  set order(text) {
    const column = this.columns.find((one) => text === wordOf(one) || text === `-${wordOf(one)}`);
    this.sorted = column ?? this.columns.find(({ kind }) => kind === "number");
    this.isDescending = column === undefined || text.startsWith("-");
  }

  sort() {
    const { sorted, isDescending } = this;
    const order = sorted.order ?? compare;
    this.rows = this.given.toSorted((one, other) => (isDescending ? -1 : 1) * order(sorted.value(one), sorted.value(other)));
    this.columns.forEach((column, at) => {
      this.head.cells[at].ariaSort = column !== sorted ? "none" : isDescending ? "descending" : "ascending";
    });
    this.body.replaceChildren();
    this.showRows(FIRST_ROWS);
  }

  showMore() {
    const next = this.body.rows.length;
    this.showRows(MORE_ROWS);
    if (this.more.hidden) this.body.rows[next].querySelector("button")?.focus();
  }

  showRows(count) {
    const seen = this.body.rows.length;
    this.body.append(...this.rows.slice(seen, seen + count).map((row) => this.rowOf(row)));
    this.more.hidden = this.body.rows.length === this.rows.length;
    this.more.textContent = `Show ${Math.min(MORE_ROWS, this.rows.length - this.body.rows.length)} more`;
    this.tell();
  }

  rowOf(row) {
    return element("tr", { role: "row", ariaCurrent: this.currentOf(row), onclick: () => this.choose(row) }, ...this.columns.map((column) => {
      const cell = element("td", { role: "cell", className: column.kind ?? "" }, column.fill(row));
      cell.dataset.title = brief(column.title, LONGEST_LABEL);
      if (column.bar) setBar(cell, column.bar(row, this.greatest.get(column)));
      return cell;
    }));
  }

  currentOf(row) {
    return row === this.current ? "true" : null;
  }

  /** Makes a row the current one, which is seen where it is shown, now or later. */
  setCurrent(row) {
    this.current = row;
    [...this.body.rows].forEach((shown, at) => { shown.ariaCurrent = this.currentOf(this.rows[at]); });
  }

  /** A click on a row chooses it, but for one that ends a selection of text. */
  choose(row) {
    if (getSelection().isCollapsed) this.onchoose?.(row);
  }

  /** Tells how many rows are shown, and what all that are narrowed to have together, shown or not. */
  tell() {
    const narrowed = this.rows.length < this.all ? `, narrowed from ${grouped(this.all)}` : "";
    const together = this.together.map(({ title, over, value, text }) => `; ${title} ${text(over(this.rows.map(value)))}`);
    this.status.textContent =
      `${grouped(this.body.rows.length)} of ${grouped(this.rows.length)} ${this.what} shown${narrowed}${together.join("")}`;
  }
}

// The frames of a thread's stacks, and the boxes as which they are drawn: a frame is as wide as its time.

// What most frames have under them: one list for all of them, since a page may have millions.
const NO_FRAMES = Object.freeze([]);

/** A frame, which stands at a place among those of its thread; those under it are the next ones, and `size` counts it and them. */
class Frame {
  constructor(name, parent, at) {
    this.name = name;
    this.parent = parent;
    this.at = at;
    this.size = 1;
    this.level = parent === null ? 0 : parent.level + 1;
    this.self = 0n;
    this.total = 0n;
    this.children = NO_FRAMES;
  }

  /** Takes a frame under it. */
  take(frame) {
    if (this.children === NO_FRAMES) this.children = [frame];
    else this.children.push(frame);
  }

  /** Whether it is another frame or stands under it. */
  isWithin({ at, size }) {
    return at <= this.at && this.at < at + size;
  }
}

/** The frames of a thread, parents before their children. Each of its stacks says how many frames it shares with the one before. */
function framesOf(label, stacks) {
  const frames = [new Frame(label, null, 0)];
  const stack = [frames[0]];
  for (const [shared, names, time] of stacks) {
    stack.length = shared + 1;
    for (const name of names) {
      const frame = new Frame(name, stack.at(-1), frames.length);
      frame.parent.take(frame);
      frames.push(frame);
      stack.push(frame);
    }
    stack.at(-1).self += BigInt(time);
  }
  addUp(frames);
  return frames;
}

/** Gives each frame the time of those under it, and their number. */
function addUp(frames) {
  for (let at = frames.length - 1; at >= 0; at -= 1) {
    const frame = frames[at];
    frame.total += frame.self;
    if (frame.parent) {
      frame.parent.total += frame.total;
      frame.parent.size += frame.size;
    }
  }
}

/** The boxes of the children of a box, side by side; what is narrower than a pixel, or lies outside of so many pixels, has none. */
function boxesUnder({ frame, x, width }, room, isWidestFirst) {
  const children = isWidestFirst ? frame.children.toSorted((one, other) => compare(other.total, one.total)) : frame.children;
  const boxes = [];
  let before = 0n;
  for (const child of children) {
    const own = width * fraction(child.total, frame.total);
    const left = x + width * fraction(before, frame.total);
    if (own >= 1 && left < room && left + own > 0) boxes.push({ frame: child, x: left, width: own });
    before += child.total;
  }
  return boxes;
}

/** The boxes of a frame, which begins at a place and is so wide, of those around it and of all under it that lie in so many pixels, level
 * by level. */
function levelsOf(zoomed, { x, width }, room, isWidestFirst) {
  const levels = [];
  for (let frame = zoomed; frame; frame = frame.parent) levels.push([{ frame, x, width }]);
  levels.reverse();
  for (;;) {
    const next = levels.at(-1).flatMap((box) => boxesUnder(box, room, isWidestFirst));
    if (next.length === 0) return levels;
    levels.push(next);
  }
}

// A flame graph: the frames of a thread, the thread itself on top, drawn and moved through by pointer or keys.

const LEVEL = 20; // the height of a level in CSS pixels
const MOST_SEEN = 32; // levels; what lies below them is reached by scrolling
const LETTER = 6.7; // the width of a letter of the frames' font
const GAP = 14; // between the pointer and what is told beside it
const DOUBLING = 120; // the pixels of a turn of the wheel that shows frames twice as wide
const MOST_SCALE = 2 ** 30;
const TREE_KEYS = { ArrowUp: "above", ArrowDown: "below", ArrowLeft: "before", ArrowRight: "after", Home: "zoomed" };

/** A hue for a name, the same wherever the name stands. */
function hueOf(name) {
  let hash = 7;
  for (const letter of name.slice(0, 60)) hash = (31 * hash + letter.codePointAt(0)) % 9973;
  return (hash * 137) % 360;
}

function framesText(count) {
  return count === 1 ? "1 frame" : `${grouped(count)} frames`;
}

/** The frame with the most time, the first of several; of none it is undefined. */
function widestOf(frames) {
  return frames.reduce((widest, frame) => (frame.total > (widest?.total ?? -1n) ? frame : widest), undefined);
}

/** A part of a label as a line: a name stands alone, and a detail behind its column. */
function partElement({ column, value }, most) {
  const line = valueElement(value, most);
  if (column === "name") return element("strong", {}, line);
  return element("span", {}, element("span", { className: "quiet" }, `${brief(column, LONGEST_LABEL)} `), line);
}

/** What a graph is of. */
function titleOf(thread) {
  return thread === whole ? thread.label : `thread ${thread.label}`;
}

class Graph {
  constructor(thread, stacks, isWidestFirst) {
    this.thread = thread;
    this.frames = framesOf(titleOf(thread), stacks);
    this.root = this.zoomed = this.focused = this.frames[0];
    // `scale` and `from` say which part of the zoomed frame is seen: one that is so many times smaller, from this fraction on.
    Object.assign(this, { isWidestFirst, pointed: null, marks: null, marked: [], history: [], levels: [], width: 0, scale: 1, from: 0 });
    this.makeElements(thread);
    this.listen();
    this.showUnder();
  }

  makeElements(thread) {
    this.told = element("p", { className: "told", ariaLive: "polite" });
    this.markedStatus = element("p", { className: "status", role: "status" });
    this.backButton = element("button", { type: "button", onclick: () => this.back() }, "Back");
    this.wholeButton = element("button", { type: "button", onclick: () => this.zoom(this.root) }, thread === whole ? "Whole graph" : "Whole thread");
    this.canvas = element("canvas", { ariaHidden: "true" });
    this.item = element("div", { role: "treeitem", id: `focused-${thread.at}`, className: "unseen" });
    this.spacer = element("div", { className: "spacer", role: "none" }, this.canvas);
    this.tip = element("div", { className: "tip", ariaHidden: "true", hidden: true });
    const inFile = isApart && thread !== whole ? ` in ${brief(thread.file.name, LONGEST_NAME)}` : "";
    const label = `Flame graph of ${brief(titleOf(thread), LONGEST_NAME)}${inFile}`;
    this.view = element("div", { className: "view", role: "tree", tabIndex: 0, ariaLabel: label }, this.spacer, this.item);
    this.view.setAttribute("aria-activedescendant", this.item.id);
    this.under = new Table("names", [
      nameColumn((frame) => frame.name, { title: spans.labelTitle, fill: (frame) => this.zoomButton(frame) }),
      timeColumn("total", (frame) => frame.total, { bar: (frame) => fraction(frame.total, frame.parent.total) }),
      timeColumn("self", (frame) => frame.self),
    ]);
    this.underTitle = element("summary");
    this.element = element("div", { className: "graph" },
      element("div", { className: "steps" }, this.backButton, this.wholeButton, this.told), this.markedStatus,
      element("div", { className: "stage" }, this.view, this.tip),
      element("details", { className: "under" }, this.underTitle, this.under.element));
  }

  zoomButton(frame) {
    return element("button", { type: "button", className: "name", onclick: () => this.zoom(frame) }, nameElement(frame.name));
  }

  listen() {
    const redraw = () => this.draw();
    this.view.addEventListener("scroll", () => this.scroll());
    this.view.addEventListener("focus", () => this.meetFocus());
    this.view.addEventListener("blur", () => this.showTip(null));
    this.view.addEventListener("keydown", (event) => this.press(event));
    this.canvas.addEventListener("pointermove", (event) => this.point(this.frameAt(event), event));
    this.canvas.addEventListener("pointerleave", () => this.point(null));
    this.canvas.addEventListener("click", (event) => this.zoom(this.frameAt(event) ?? this.zoomed));
    this.canvas.addEventListener("wheel", (event) => event.ctrlKey && this.turn(event), { passive: false });
    matchMedia("(prefers-color-scheme: dark)").addEventListener("change", redraw);
    new ResizeObserver(() => this.view.clientWidth !== this.width && this.layOut()).observe(this.view);
  }

  layOut() {
    const width = this.view.clientWidth;
    if (width === 0) return;
    this.width = width;
    this.showTip(null); // Frames lie elsewhere now.
    const whole = width * this.scale;
    this.levels = levelsOf(this.zoomed, { x: -this.from * whole, width: whole }, width, this.isWidestFirst);
    if (!this.levels[this.focused.level]?.some((box) => box.frame === this.focused)) this.focused = this.zoomed;
    this.canvas.boxes = this.levels; // for scripts that look at the page: what is drawn, level by level, in CSS pixels
    const seen = LEVEL * Math.min(this.levels.length, MOST_SEEN);
    this.spacer.style.height = `${LEVEL * this.levels.length}px`;
    this.view.style.maxHeight = `${LEVEL * MOST_SEEN}px`;
    this.canvas.style.height = `${seen}px`;
    this.canvas.width = Math.round(width * devicePixelRatio);
    this.canvas.height = Math.round(seen * devicePixelRatio);
    this.draw();
    this.tell();
  }

  draw() {
    const ink = this.canvas.getContext("2d");
    const style = getComputedStyle(this.view);
    const look = ["--text", "--ground", "--lightness", "--focus"].map((property) => style.getPropertyValue(property));
    const top = this.view.scrollTop;
    ink.setTransform(devicePixelRatio, 0, 0, devicePixelRatio, 0, -top * devicePixelRatio);
    ink.clearRect(0, top, this.canvas.width, this.canvas.height);
    ink.font = "11px ui-monospace, 'DejaVu Sans Mono', Menlo, Consolas, monospace";
    ink.textBaseline = "middle";
    const first = Math.floor(top / LEVEL);
    for (const box of this.levels.slice(first, first + MOST_SEEN + 1).flat()) this.drawBox(ink, box, look);
  }

  drawBox(ink, { frame, x: left, width: whole }, [text, ground, lightness, focus]) {
    const x = Math.max(0, left);
    const width = Math.min(this.width, left + whole) - x;
    const y = LEVEL * frame.level;
    const isDim = this.marks !== null && !this.marks(frame.name);
    ink.fillStyle = frame === this.root || isDim ? ground : `hsl(${hueOf(frame.name)} 55% ${lightness})`;
    ink.fillRect(x, y, width > 3 ? width - 1 : width, LEVEL - 1);
    ink.fillStyle = text;
    if (this.marks !== null && !isDim) ink.fillRect(x, y + LEVEL - 3, Math.max(1, width - 1), 2);
    const letters = Math.floor((width - 8) / LETTER);
    if (letters >= 2) this.drawName(ink, brief(frame.name, letters), x, y, width);
    if (frame !== this.focused && frame !== this.pointed) return;
    ink.strokeStyle = focus;
    ink.lineWidth = frame === this.focused ? 2 : 1;
    ink.strokeRect(x + 1, y + 1, Math.max(1, width - 3), LEVEL - 3);
  }

  drawName(ink, name, x, y, width) {
    ink.save();
    ink.beginPath();
    ink.rect(x, y, width - 2, LEVEL);
    ink.clip();
    ink.fillText(name, x + 4, y + LEVEL / 2);
    ink.restore();
  }

  frameAt(event) {
    const level = Math.floor((event.offsetY + this.view.scrollTop) / LEVEL);
    return this.levels[level]?.find(({ x, width }) => x <= event.offsetX && event.offsetX < x + width)?.frame ?? null;
  }

  /** Points at the frame under the pointer, or at none, and tells of it beside the pointer. */
  point(frame, { offsetX, offsetY } = {}) {
    if (frame !== this.pointed) {
      this.pointed = frame;
      this.canvas.style.cursor = frame ? "pointer" : "";
      this.draw();
      this.tell();
    }
    this.showTip(frame, { left: offsetX + GAP, top: offsetY - GAP, bottom: offsetY + GAP });
  }

  /** Tells of a frame beside a part of the view: below it, or above where there is no room. Of no frame nothing is told. */
  showTip(frame, { left, top, bottom } = {}) {
    this.tip.hidden = frame === null;
    if (frame === null) return;
    this.tip.replaceChildren(...this.detailsOf(frame, LONGEST_NAME));
    const { width, height } = this.tip.getBoundingClientRect();
    const view = this.view.getBoundingClientRect();
    const isBelow = view.top + bottom + height <= lowestSeen();
    this.tip.style.left = `${Math.max(0, Math.min(left, view.width - width))}px`;
    this.tip.style.top = `${isBelow ? bottom : top - height}px`;
  }

  /** Tells of the focused frame beside it. */
  showFocused() {
    const box = this.levels[this.focused.level]?.find(({ frame }) => frame === this.focused);
    const top = LEVEL * this.focused.level - this.view.scrollTop;
    this.showTip(box ? this.focused : null, { left: Math.max(0, box?.x), top: top - 2, bottom: top + LEVEL + 2 });
  }

  meetFocus() {
    this.tell();
    if (this.view.matches(":focus-visible")) this.showFocused();
  }

  /** What is told beside a frame goes with it; the pointer stays where it is, above another frame. */
  scroll() {
    this.draw();
    if (this.pointed) this.point(null);
    else if (!this.tip.hidden) this.showFocused();
  }

  /** Tells of the frame under the pointer, or else of the focused one. */
  tell() {
    this.told.replaceChildren(...this.detailsOf(this.pointed ?? this.focused, LONGEST_WHOLE));
    this.describe(this.focused);
    this.backButton.disabled = this.history.length === 0 && this.scale === 1;
    this.wholeButton.disabled = this.zoomed === this.root && this.scale === 1;
  }

  /** The focused frame as an item of a tree, for those who hear the page. */
  describe(frame) {
    const siblings = this.levels[frame.level]?.filter((box) => box.frame.parent === frame.parent) ?? [];
    this.item.ariaLevel = String(frame.level + 1);
    this.item.ariaSetSize = String(siblings.length);
    this.item.ariaPosInSet = String(1 + siblings.findIndex((box) => box.frame === frame));
    this.item.ariaExpanded = frame.children.length > 0 ? "true" : null;
    this.item.textContent = `${brief(frame.name, LONGEST_NAME)}: ${this.numbersOf(frame)}, ${frame.children.length} under it`;
  }

  /** The name of a frame, its details apart from it, each cut to so many letters, and its numbers. */
  detailsOf(frame, most) {
    const isPlain = frame === this.root || this.thread === whole;
    const parts = isPlain ? plainParts(frame.name) : spans.framePartsOf(frame.name, this.thread);
    const lines = parts.map((part) => partElement(part, most));
    return [element("span", { className: "label" }, ...lines), element("span", {}, `${this.numbersOf(frame)} ${this.ofWhat}`)];
  }

  get ofWhat() {
    return this.thread === whole ? "of all busy time" : "of the thread's busy time";
  }

  numbersOf({ self, total }) {
    return `self ${timeText(self)}, total ${timeText(total)}, ${shareText(total, this.root.total)}`;
  }

  press(event) {
    if (event.ctrlKey || event.altKey || event.metaKey) return;
    if (event.key === "Enter" || event.key === " ") this.zoom(this.focused);
    else if (event.key === "Escape" || event.key === "Backspace") this.back();
    else if (event.key in TREE_KEYS) this.focus(this.neighbour(TREE_KEYS[event.key]));
    else return;
    this.showFocused();
    event.preventDefault();
  }

  /** The frame that lies so beside the focused one, or that one itself where there is none. */
  neighbour(side) {
    const frame = this.focused;
    const level = this.levels[frame.level];
    const at = level.findIndex((box) => box.frame === frame);
    const found = {
      above: () => frame.parent,
      below: () => this.levels[frame.level + 1]?.find((box) => box.frame.parent === frame)?.frame,
      before: () => level[at - 1]?.frame,
      after: () => level[at + 1]?.frame,
      zoomed: () => this.zoomed,
    };
    return found[side]() ?? frame;
  }

  focus(frame) {
    this.focused = frame;
    this.pointed = null;
    const top = LEVEL * frame.level;
    const { scrollTop, clientHeight } = this.view;
    if (top < scrollTop) this.view.scrollTop = top;
    if (top + LEVEL > scrollTop + clientHeight) this.view.scrollTop = top + LEVEL - clientHeight;
    this.draw();
    this.tell();
  }

  zoom(frame) {
    if (frame !== this.zoomed) this.history.push(this.zoomed);
    this.open(frame);
    tellOfChange(this.element);
  }

  leaveZoom() {
    if (this.zoomed !== this.root || this.scale > 1) this.zoom(this.root);
  }

  back() {
    if (this.scale > 1) this.open(this.zoomed);
    else if (this.history.length > 0) this.open(this.history.pop());
    tellOfChange(this.element);
  }

  /** Shows frames wider or narrower by a turn of the wheel, in pixels or in lines; what is at the pointer stays there. */
  turn(event) {
    const pixels = event.deltaMode === WheelEvent.DOM_DELTA_LINE ? LEVEL * event.deltaY : event.deltaY;
    const scale = Math.min(MOST_SCALE, Math.max(1, this.scale * 2 ** (-pixels / DOUBLING)));
    const from = this.from + event.offsetX / this.width * (1 / this.scale - 1 / scale);
    Object.assign(this, { scale, from: Math.max(0, Math.min(from, 1 - 1 / scale)) });
    this.layOut();
    this.point(this.frameAt(event), event);
    event.preventDefault();
  }

  /** Opens a frame as if it had been zoomed into from the whole thread. */
  start(frame) {
    this.history = frame === this.root ? [] : [this.root];
    this.open(frame);
  }

  open(frame) {
    Object.assign(this, { zoomed: frame, focused: frame, pointed: null, scale: 1, from: 0 });
    this.layOut();
    this.view.scrollTop = LEVEL * Math.max(0, frame.level - 3);
    this.focus(frame);
    this.showUnder();
    this.tellMarked();
  }

  showUnder() {
    const { name, children } = this.zoomed;
    this.underTitle.replaceChildren("Directly under ", nameElement(name), `: ${framesText(children.length)}`);
    this.under.show(children);
  }

  order(isWidestFirst) {
    this.isWidestFirst = isWidestFirst;
    this.layOut();
  }

  /** Marks the frames whose names pass a test, and tells of them. Null marks none. */
  mark(marks) {
    this.marks = marks;
    this.marked = marks === null ? [] : this.frames.slice(1).filter((frame) => marks(frame.name));
    this.tellMarked();
    this.draw();
  }

  /** Tells of the marked frames, and how many of them lie where they aren't drawn. */
  tellMarked() {
    const outside = this.marked.filter((frame) => !frame.isWithin(this.zoomed) && !this.zoomed.isWithin(frame)).length;
    const told = outside === 0 ? "" : `; ${framesText(outside)} outside of what is zoomed into`;
    this.markedStatus.textContent = this.marks === null ? "" : `${this.markedText()}${told}`;
  }

  /** The time of the marked frames, of which those under one another count once. */
  markedText() {
    let [time, outermost] = [0n, null];
    for (const frame of this.marked) {
      if (outermost !== null && frame.isWithin(outermost)) continue;
      time += frame.total;
      outermost = frame;
    }
    const count = this.marked.length;
    const marked = count === 1 ? "1 frame marked," : `${framesText(count)} marked, together`;
    return `${marked} ${timeText(time)}, ${shareText(time, this.root.total)} ${this.ofWhat}`;
  }

  /** Shows a marked frame: leaves the zoom where none is drawn in it, and zooms into the widest where all are narrower than a pixel. */
  reveal() {
    this.layOut();
    if (this.marked.length === 0) return;
    if (!this.drawnMark()) this.zoom(this.root);
    if (!this.drawnMark()) this.zoom(widestOf(this.marked));
    this.focus(this.drawnMark() ?? this.zoomed);
  }

  /** The widest of the marked frames that are drawn. */
  drawnMark() {
    const drawn = this.levels.flat().map((box) => box.frame);
    return widestOf(drawn.filter((frame) => frame !== this.root && this.marks(frame.name)));
  }
}

// The callers and callees of frames with a label: those right around them and right under them in the stacks of threads. Stacks are walked
// as they stand in the page, without making their frames, and a clock has the time of those that were walked.

/** The time of the stacks that have each of some keys. A stack that has a key more than once counts once for it: its time runs from where
 * the first goes in to where the last goes out. */
class Times {
  constructor() {
    this.entries = new Map();
  }

  goIn(key, now) {
    if (!this.entries.has(key)) this.entries.set(key, { key, open: 0, since: 0n, time: 0n });
    const entry = this.entries.get(key);
    if (entry.open === 0) entry.since = now;
    entry.open += 1;
  }

  goOut(key, now) {
    const entry = this.entries.get(key);
    entry.open -= 1;
    if (entry.open === 0) entry.time += now - entry.since;
  }

  /** The keys, each with its time. */
  get all() {
    return [...this.entries.values()];
  }
}

/** The calls of a label in stacks that are walked one after another. Null is the caller of what stands outermost. */
class Calls {
  constructor(label) {
    Object.assign(this, { label, own: new Times(), callers: new Times(), callees: new Times(), self: 0n, stack: [], now: 0n });
  }

  /** A frame goes in or out, right under another one. */
  tell(turn, label, caller) {
    if (label === this.label) {
      this.own[turn](label, this.now);
      this.callers[turn](caller, this.now);
    }
    if (caller === this.label) this.callees[turn](label, this.now);
  }

  leaveTo(length) {
    while (this.stack.length > length) {
      const label = this.stack.pop();
      this.tell("goOut", label, this.stack.at(-1) ?? null);
    }
  }

  /** Walks the stacks of a thread, each of which says how many frames it shares with the one before. */
  walk(stacks) {
    for (const [shared, labels, time] of stacks) {
      this.leaveTo(shared);
      for (const label of labels) {
        this.tell("goIn", label, this.stack.at(-1) ?? null);
        this.stack.push(label);
      }
      this.now += BigInt(time);
      if (this.stack.at(-1) === this.label) this.self += BigInt(time);
    }
    this.leaveTo(0);
  }

  /** The time of all stacks that have the label. */
  get time() {
    return this.own.entries.get(this.label)?.time ?? 0n;
  }
}

function callsOf(label, threads) {
  const calls = new Calls(label);
  for (const thread of threads) calls.walk(stacks[thread.at]);
  return calls;
}

// The panel that a click on a row of spans opens: what is right around the row's frames, and right under them, by time. It stays where it
// is while its own rows are followed.

const NO_LABELS = "The table has no column of names or arguments, and stacks have nothing else: which frames a row has can't be told.";
const NO_STACK = "No stack has it: its spans have no length, or are of other threads than those that are chosen.";

function threadsText(threads) {
  return threads.length === 1 ? `thread ${brief(threads[0].label, LONGEST_LABEL)}` : `${grouped(threads.length)} threads`;
}

/** How far down in the window the page is seen: to the panel, if it is open. */
function lowestSeen() {
  return byId("calls").hidden ? innerHeight : byId("calls").getBoundingClientRect().top;
}

class CallsPanel {
  constructor() {
    this.row = null;
    this.calls = new Calls("");
    this.thread = null;
    this.callers = this.listOf("callers", "nothing: outermost");
    this.callees = this.listOf("callees", "itself");
    byId("calls-lists").replaceChildren(this.callers.element, this.callees.element);
    byId("calls-close").onclick = () => this.close();
    byId("calls").addEventListener("keydown", ({ key }) => {
      if (key === "Escape") this.close();
    });
  }

  /** A list of calls by time; `lacking` stands for what has no label. */
  listOf(what, lacking) {
    const share = ({ time }) => fraction(time, this.calls.time);
    return new Table(what, [
      nameColumn(({ key }) => key ?? "", { title: what, fill: ({ key }) => (key === null ? lacking : this.linkOf(key)) }),
      timeColumn("time", ({ time }) => time, { bar: share }),
      numberColumn("share", share, { fill: ({ time }) => shareText(time, this.calls.time) }),
    ]);
  }

  linkOf(label) {
    return element("button", { type: "button", className: "name", onclick: () => this.goOn(label) }, ...this.partsOf(label));
  }

  /** The parts of a label as elements, with blanks between them. */
  partsOf(label) {
    const parts = spans.framePartsOf(label, this.thread);
    return parts.flatMap(({ column, value }) => [valueElement(value, LONGEST_NAME, spans.shortsOf(column).get(value.word)), " "]);
  }

  /** Shows the calls of a row, or of a label at the place of one. */
  show(row) {
    this.row = row;
    byId("calls").hidden = false;
    const threads = row.place.threads.filter(isThreadOfPlace);
    const having = threadsOf(row.label).filter((thread) => row.place.has.has(thread) && isThreadOfPlace(thread));
    this.thread = having[0] ?? null;
    this.calls = callsOf(row.label, having);
    this.tell(having, this.notesOf(threads));
    const { callers, callees, self } = this.calls;
    this.callers.show(callers.all);
    this.callees.show(self > 0n ? [...callees.all, { key: null, time: self }] : callees.all);
  }

  tell(having, notes) {
    const { time } = this.calls;
    const told = ` in stacks for ${timeText(time)}, ${shareText(time, busyTimeOf(having))} of the busy time of ${threadsText(having)}`;
    byId("calls-of").replaceChildren(...(time > 0n ? [...this.partsOf(this.row.label), told] : []));
    byId("calls-notes").replaceChildren(...notes.map((note) => element("p", {}, note)));
    byId("calls-lists").hidden = time === 0n;
  }

  /** What has to be known of these times, which are of some threads. */
  notesOf(threads) {
    if (runs.length === 0) return [NO_RUNS];
    if (spans.inLabel.length === 0) return [NO_LABELS];
    const leftOut = threads.filter(isLeftOut);
    const rows = spans.rowsOf(this.row.label, this.row.place);
    const notes = [];
    if (leftOut.length > 0) notes.push(`The stacks of ${threadsText(leftOut)} are left out of the page, and so of these times.`);
    else if (this.calls.time === 0n) notes.push(NO_STACK);
    if (rows.length > 1) {
      notes.push(`${grouped(rows.length)} rows have these frames, since stacks tell no more of a span than ${spans.labelTitle}; `
        + "the times are of all these rows together.");
    }
    if (rows.length === 0) notes.push("The table has no row of it, since options left it out.");
    return notes;
  }

  /** Goes on to the row of a label, and marks its frames. */
  goOn(label) {
    const { place } = this.row;
    const row = spans.rowsOf(label, place)[0] ?? { label, place };
    chooseRow(row);
    graphs.markRow(row);
    byId("calls-title").focus();
  }

  /** Shows the same anew where other threads are chosen. */
  showAgain() {
    if (!byId("calls").hidden) this.show(this.row);
  }

  close() {
    byId("calls").hidden = true;
    tables[0].table.setCurrent(null);
  }
}

// Keeps what is narrowed to, sorted by and zoomed into behind the # of the address, so that a view can be sent along with the page. What
// stands there is taken like what a person types and chooses, and left out where the page has nothing of that name.

const MOST_ZOOMS = 20;
const WHOLE = "all";

/** A file that is a run of its own, as it stands in an address: by its place from 1, since names may be long, or the same. */
function fileNumberOf({ at }) {
  return String(at + 1);
}

/** A process or a thread as it stands there, behind its file where there are several runs; and what stands for the graph of all files. */
function placeOf(place) {
  if (place === whole) return WHOLE;
  const { file, process, number } = place;
  if (process) return `${placeOf(process)}.${number}`;
  return isApart ? `${fileNumberOf(file)}.${number}` : number;
}

/** The view as a text; what is as it was at first isn't in it. */
function viewText() {
  const { table } = tables[0];
  const members = [
    ["words", byId("words").value],
    ["file", narrowed.file && fileNumberOf(narrowed.file)],
    ["process", narrowed.process && placeOf(narrowed.process)],
    ["thread", narrowed.thread && placeOf(narrowed.thread)],
    ["sort", table.order === table.firstOrder ? null : table.order],
    ["order", graphs.isWidestFirst ? null : byId("order").value],
    ...graphs.zooms().map(({ thread, frame }) => ["zoom", `${placeOf(thread)}.${frame.at}`]),
  ];
  return new URLSearchParams(members.filter(([, text]) => text)).toString();
}

function keepView() {
  const text = viewText();
  const address = location.href.replace(/#.*$/, "") + (text === "" ? "" : `#${text}`);
  if (address === location.href) return;
  try {
    history.replaceState(null, "", address);
  } catch {
    // Some browsers don't let a page change its address where it stands in a frame, or so often; then the view isn't kept.
  }
}

function showKeptView() {
  const view = new URLSearchParams(location.hash.slice(1));
  const file = filesToChoose().find((one) => fileNumberOf(one) === view.get("file")) ?? null;
  const process = report.processes.find((one) => placeOf(one) === view.get("process") && isOf(file, one.file)) ?? null;
  const isThread = (one) => placeOf(one) === view.get("thread") && isOf(file, one.file) && isOf(process, one.process);
  const thread = report.threads.find(isThread) ?? null;
  byId("words").value = (view.get("words") ?? "").slice(0, byId("words").maxLength);
  byId("order").value = view.get("order") === "name" ? "name" : "widest";
  tables[0].table.order = view.get("sort");
  narrowTo(file, process, thread);
  graphs.order();
  graphs.showZooms(view.getAll("zoom").slice(0, MOST_ZOOMS).map(zoomOf).filter((zoom) => zoom !== null));
}

/** The thread and the place of a frame that an address names, or null where there is no such graph. */
function zoomOf(text) {
  const [, place, at] = /^(.+)\.(\d{1,9})$/.exec(text) ?? [];
  const thread = place === WHOLE ? whole : report.threads.find((one) => placeOf(one) === place);
  return thread && hasGraph(thread) ? { thread, at: Number(at) } : null;
}

// The head of the page: how much there is, of which files, and what a reader has to know of the numbers.

const REASONS = {
  NotObject: "the element isn't an object",
  NoPhase: "it has no phase, or one that isn't a text",
  NoTime: "it has no time",
  get NotWhole() { return `its time or length isn't ${unit.read}, or is out of range`; },
  NoDuration: "it has no length",
  BadField: "its process, thread, name, category, id or scope is of the wrong kind",
  NoId: "it has no id",
  BadReach: "it is an instant that is neither global nor of a process or thread",
  BadSeries: "it has a counter whose value isn't a whole number",
  NoOpenSpan: "it ends a span where none is open",
  TimeGoesBack: "its time lies before that of an event before it",
  NoOpenAsync: "it ends an async span that isn't open",
  EndBeforeBegin: "it ends an async span before its begin",
  FlowOpen: "it starts a flow that is open",
  NoFlow: "it goes on with a flow that isn't open",
  NameDiffers: "it ends a span of another name than the open one",
};

const ONE = { files: "file", events: "event", queries: "query", seals: "seal", processes: "process", threads: "thread" };

function countItem([what, count]) {
  return element("span", {}, element("b", {}, grouped(count)), ` ${count === 1 ? ONE[what] ?? what : what}`);
}

/** The counts of all runs, and the name of a file that is the only one. Processes and threads are known where the page has its runs. */
function showCounts() {
  const { files, seals } = spans.counts;
  const told = ["events", "refused", "skipped", "queries", ...(seals > 0 ? ["seals"] : [])].map((what) => [what, spans.counts[what]]);
  const known = [["processes", report.processes.length], ["threads", report.threads.length]];
  const counts = [...told, ...(runs.length > 0 ? known : [])];
  const first = files === 1 ? element("span", {}, "file ", fileElement("b", report.files[0])) : countItem(["files", files]);
  byId("counts").replaceChildren(first, ...counts.map(countItem));
}

/** A file, and how it ended where it wasn't read whole. */
function fileElement(tag, { name, end }) {
  return element(tag, {}, nameElement(name), end === null ? "" : `: ${end}`);
}

function fileItem(file) {
  return fileElement("li", file);
}

function showFiles() {
  byId("files").hidden = report.files.length < 2;
  byId("files").append(element("ul", {}, ...report.files.map(fileItem)));
}

function refusalItem({ count, code, word, first, file }) {
  const reason = REASONS[word] ? `: ${REASONS[word]}` : "";
  const text = `${grouped(count)} \u00d7 ${code} ${word}${reason}; first at element ${grouped(first)} of `;
  return element("li", {}, text, nameElement(file));
}

/** A warning and its items, of which the last stand closed where there are very many. */
function warning(text, items) {
  if (items.length === 0) return element("p", { className: "warning" }, text);
  const [first, more] = [items.slice(0, FIRST_ROWS), items.slice(FIRST_ROWS)].map((part) => element("ul", {}, ...part));
  const closed = element("details", {}, element("summary", {}, `${grouped(more.children.length)} more`), more);
  return element("div", { className: "warning" }, element("p", {}, text), first, ...(more.children.length > 0 ? [closed] : []));
}

function warnings() {
  const { unread, refused } = spans.counts;
  const open = add(report.threads.map((thread) => thread.open));
  const found = [];
  if (unread > 0) {
    const noTraces = report.files.filter(({ end }) => end !== null);
    const text = `Files that are no traces as a whole, of which nothing is here: ${grouped(unread)}.`;
    found.push(warning(noTraces.length > 0 ? text : `${text} Standard error said why.`, noTraces.map(fileItem)));
  }
  if (refused > 0) {
    const text = "Events were refused. Times on their threads can be wrong: where a begin is refused, its end closes another span. "
      + "Elements are counted from 0.";
    const refusals = runs.flatMap((run) => readRefusals(run.refused));
    found.push(warning(text, refusals.map(refusalItem)));
  }
  if (open > 0n) {
    const text = `Spans that are still open: ${grouped(open)}. They have no time; --seal closes them where the trace was cut off.`;
    found.push(warning(text, []));
  }
  return found;
}

function showWarnings() {
  const found = warnings();
  byId("warnings").replaceChildren(...found);
  byId("warnings").hidden = found.length === 0;
}

// Puts the page together: its head, what narrows, the table of spans, the flame graphs, and what else was traced.

const FIRST_GRAPHS = 50;
const MORE_GRAPHS = 200;
const MOST_FRAMES = 4194304;
const NO_RUNS = "A page of more than 64 files that are runs of their own has their counts, the table of their spans and the flame graph of "
  + "all: none of a thread is here, and nothing else that was traced.";

const byId = (id) => document.getElementById(id);
const data = JSON.parse(byId("data").textContent);
const runs = data.runs ?? [data];
// Whether there are several files, each a run of its own, so that numbers and names of processes can be those of several.
const isApart = runs.length > 1;
const report = readRuns(runs);
const stacks = runs.flatMap((run) => run.stacks);
// What stands for a thread in the graph of all files, whose stacks begin with the names of process and thread; null where there is none,
// or where one file has no others.
const whole = data.graph === undefined || runs.length === 1 ? null : { at: "whole", label: "all files", stacks: data.graph };
const spans = new SpanTable(data.table, report);
// All runs of a page have one unit. A page without its runs has no report that says it.
const unit = runs.length > 0 ? report.unit : spans.unit;

// What is narrowed to: rows of a file, a process and a thread, whose names have all of some words and none of others, and threads with
// frames that are labelled so. What rows have of parents counts for them alone, since a frame can be of spans with several parents.

const narrowed = { file: null, process: null, thread: null, wanted: [], unwanted: [], places: new Set() };

function isNamed(name, wanted = narrowed.wanted) {
  if (wanted.length === 0 && narrowed.unwanted.length === 0) return true;
  const low = name.toLowerCase();
  return wanted.every((word) => low.includes(word)) && !narrowed.unwanted.some((word) => low.includes(word));
}

/** Tests whether frames of a thread that have a label are named so. Where rows have files, words can be those of the thread's file. */
function labelTestOf({ file }) {
  const own = spans.columns.includes("file") ? (file?.inTable ?? "").toLowerCase() : "";
  const wanted = narrowed.wanted.filter((word) => !own.includes(word));
  const isUnwanted = narrowed.unwanted.some((word) => own.includes(word));
  return (label) => !isUnwanted && isNamed(label, wanted);
}

/** Whether something is what was chosen; where nothing was, anything is. */
function isOf(chosen, own) {
  return chosen === null || chosen === own;
}

/** Whether a row is of the file, the process and the thread that are narrowed to; one that belongs to none is of each in its file. */
function isOfPlace({ file, process = narrowed.process, thread = narrowed.thread }) {
  const owner = narrowed.file ?? narrowed.process?.file ?? narrowed.thread?.file ?? null;
  return isOf(owner, file) && isOf(narrowed.process, process) && isOf(narrowed.thread, thread);
}

function isThreadOfPlace(thread) {
  return isOfPlace({ file: thread.file, process: thread.process, thread });
}

function isNarrowedTo(row) {
  return isOfPlace(row) && isNamed(row.name);
}

/** The places of rows of spans that have a thread which is narrowed to. Many rows have one place, and a place may have many threads. */
function placesNarrowedTo() {
  const hasOne = ({ threads }) => threads.some(isThreadOfPlace);
  return new Set([...spans.places.values()].filter(hasOne));
}

/** A row of spans can be of any thread of its place. */
function isSpanNarrowedTo({ place, words }) {
  const isAnywhere = narrowed.file === null && narrowed.process === null && narrowed.thread === null;
  return isNamed(words) && (isAnywhere || narrowed.places.has(place));
}

/** Whether a thread has a frame that is narrowed to; of a graph that is left out nothing is known. */
function isThreadNarrowedTo(thread) {
  if (!isThreadOfPlace(thread)) return false;
  const isAnyName = narrowed.wanted.length === 0 && narrowed.unwanted.length === 0;
  return isAnyName || isLeftOut(thread) || labelsOf(thread).some(labelTestOf(thread));
}

function narrow() {
  const words = byId("words").value.toLowerCase().split(/\s+/).filter((word) => word !== "" && word !== "-");
  narrowed.wanted = words.filter((word) => !word.startsWith("-"));
  narrowed.unwanted = words.filter((word) => word.startsWith("-")).map((word) => word.slice(1));
  showRows();
  graphs.found.clear();
  graphs.show();
  graphs.mark(narrowed.wanted.length > 0 ? labelTestOf : () => null);
}

function filesToChoose() {
  return isApart ? report.files : [];
}

/** A process or a thread as a choice: of several runs with its file, where marks keep the direction of each name to itself. */
function choiceText({ label, file }) {
  const text = brief(label, LONGEST_LABEL);
  return isApart ? `\u2068${text}\u2069 in \u2068${brief(file.name, LONGEST_LABEL)}\u2069` : text;
}

/** Fills a choice. Options are put in one by one, since there may be more threads than a call can have arguments. */
function fillChoice(select, all, items, textOf) {
  const options = new DocumentFragment();
  options.append(element("option", { value: "" }, all));
  for (const item of items) options.append(element("option", { value: item.at }, textOf(item)));
  select.replaceChildren(options);
}

/** The processes to choose from are those of the file that is narrowed to, and the threads those of it and of the process. */
function fillChoices() {
  const { file, process } = narrowed;
  const threads = report.threads.filter((one) => isOf(file, one.file) && isOf(process, one.process));
  fillChoice(byId("process"), "all processes", report.processes.filter((one) => isOf(file, one.file)), choiceText);
  fillChoice(byId("thread"), "all threads", byBusyTime(threads), choiceText);
}

/** Narrows to a file, a process and a thread, or to all where they are null, and shows that they are chosen. */
function narrowTo(file, process, thread) {
  Object.assign(narrowed, { file, process, thread });
  fillChoices();
  byId("file").value = file?.at ?? "";
  byId("process").value = process?.at ?? "";
  byId("thread").value = thread?.at ?? "";
  narrow();
  calls.showAgain();
}

// The tables

const processColumn = listedColumn("process", (row) => row.process);
const threadColumn = listedColumn("thread", (row) => row.thread);
const fileColumns = isApart ? [listedColumn("file", (row) => row.file)] : [];
const plainName = nameColumn((row) => row.name);
const total = timeColumn("total", (row) => row.total);
const open = numberColumn("open", (row) => row.open);
const id = { ...textColumn("id", (row) => row.id), isNone: (row) => row.id === NO_ID };
const category = textColumn("category", (row) => row.category);

// What rows have together of a number. Of total and outer times nothing is told, since spans stand within others.
const TOGETHER = {
  self: { title: "sum of self", over: add, text: timeText },
  longest: { title: "longest", over: greatest, text: timeText },
  count: { title: "sum of count", over: add, text: grouped },
};

function spanTable() {
  const [first, ...others] = keyColumns();
  const isWide = ({ kind }) => kind !== undefined;
  const columns = [{ ...first, fill: (row) => rowButton(row, first) }, ...others.filter(isWide)];
  const numbers = spans.numbers.flatMap(columnsOfNumber);
  const told = spans.numbers.filter((name) => Object.hasOwn(TOGETHER, name));
  const table = new Table("rows", [...columns, ...numbers, ...others.filter((column) => !isWide(column))],
    told.map((name) => ({ ...TOGETHER[name], value: spans.numberIn(name) })));
  table.onchoose = (row) => {
    chooseRow(row);
    graphs.find(row);
  };
  return { table, rows: spans.rows, home: byId("names"), isShown: isSpanNarrowedTo };
}

/** Shows the calls of a row, which may be just a label at a place, and makes it the current one of the table. */
function chooseRow(row) {
  tables[0].table.setCurrent(row);
  calls.show(row);
}

/** The column of a number; that of self time has a bar, and beside it, where the page has the runs, the share of busy time. */
function columnsOfNumber(name) {
  const value = spans.numberIn(name);
  if (name === "count") return [numberColumn(name, value)];
  if (name !== "self") return [timeColumn(name, value)];
  const self = timeColumn(name, value, { bar: (row, most) => fraction(value(row), most) });
  const share = numberColumn("of busy", (row) => fraction(value(row), busyOf(row)), { fill: (row) => shareText(value(row), busyOf(row)) });
  return runs.length > 0 ? [self, share] : [self];
}

// The columns of numbers whose names have columns too. If both are there, they share one.
const NUMBERS = { process: "pid", thread: "tid" };

/** A column for each of a key, those of labels first; these are wide. */
function keyColumns() {
  const named = spans.columns.map((title) => NUMBERS[title]);
  const all = spans.columns.filter((title) => !named.includes(title)).map(columnOfKey);
  const told = columnsWithValues(all, spans.rows);
  const columns = told.length > 0 ? told : all.slice(0, 1);
  return [...columns.filter(({ kind }) => kind), ...columns.filter(({ kind }) => !kind)];
}

function columnOfKey(title) {
  const at = spans.columns.indexOf(title);
  const number = spans.columns.indexOf(NUMBERS[title]);
  if (number >= 0) {
    const fill = ({ values }) => document.createTextNode(namesOf(values[number].word, values[at].word).label);
    return keyColumn(title, (row) => row.values[number], { fill });
  }
  const shorts = spans.shortsOf(title);
  const fill = (row) => valueElement(row.values[at], isOfLabel(title) ? LONGEST_NAME : LONGEST_LABEL, shorts.get(row.values[at].word));
  const kind = title === "name" ? "name" : isOfLabel(title) ? "detail" : undefined;
  return keyColumn(title, (row) => row.values[at], { kind, fill, isNone: (row) => row.values[at] === NOTHING });
}

/** What a row has in a column, for keys: the row gets the click. */
function rowButton(row, column) {
  return element("button", { type: "button", className: "name" }, column.fill(row));
}

function otherTable(title, rows, columns) {
  const table = new Table(title.toLowerCase(), columnsWithValues([...columns, ...fileColumns], rows));
  const home = element("details", {}, element("summary", {}, `${title} (${grouped(rows.length)})`), table.element);
  return { table, rows, home, isShown: isNarrowedTo };
}

function otherTables() {
  const counts = (...names) => names.map((title) => numberColumn(title, (row) => row[title]));
  return [
    otherTable("Async spans", report.asyncs, [
      plainName, total, ...counts("closed"), open, ...counts("points"), category, textColumn("scope", (row) => row.scope), id]),
    otherTable("Flows", report.flows, [plainName, total, ...counts("ended"), open, category, id]),
    otherTable("Counters", report.counters, [
      plainName, textColumn("series", (row) => row.series), ...counts("samples", "least", "greatest", "last"), processColumn, id]),
    otherTable("Instants", report.instants, [
      plainName, ...counts("count"), processColumn, threadColumn, textColumn("reach", (row) => row.reach)]),
  ].filter(({ rows }) => rows.length > 0);
}

function showRows() {
  narrowed.places = placesNarrowedTo();
  for (const { table, rows, isShown } of tables) table.show(rows.filter(isShown), rows);
}

// The flame graphs, of which the busiest threads' are listed, the busiest first

/** Threads by busy time; equal ones keep the order of the report. */
function byBusyTime(threads) {
  return threads.toSorted((one, other) => compare(other.busy, one.busy));
}

function stacksOf(thread) {
  return thread === whole ? whole.stacks : stacks[thread.at];
}

/** Whether the graph of a thread is left out, since with it the page would have too many frames. */
function isLeftOut(thread) {
  return stacksOf(thread) === null;
}

function hasGraph(thread) {
  return !isLeftOut(thread) && stacksOf(thread).length > 0;
}

const knownLabels = new Map();

/** The labels of a thread's frames, each once. */
function labelsOf(thread) {
  if (!knownLabels.has(thread)) knownLabels.set(thread, [...labelsIn(stacks[thread.at])]);
  return knownLabels.get(thread);
}

function labelsIn(stacks) {
  const labels = new Set();
  for (const [, own] of stacks) for (const label of own) labels.add(label);
  return labels;
}

const threadsOfLabels = new Map();

/** The threads whose frames have a label. */
function threadsOf(label) {
  if (threadsOfLabels.size === 0) {
    for (const thread of report.threads.filter(hasGraph)) {
      for (const own of labelsOf(thread)) {
        if (!threadsOfLabels.has(own)) threadsOfLabels.set(own, []);
        threadsOfLabels.get(own).push(thread);
      }
    }
  }
  return threadsOfLabels.get(label) ?? [];
}

/** The busy time of the threads that a row is of: those of its place that have a frame with its label, or whose graph is left out, so that
 * it isn't known; of a row without such a thread, that of its place. */
function busyOf(row) {
  row.busy ??= busyTimeOf(threadsOf(row.label).filter((thread) => row.place.has.has(thread))) + leftOutTimeOf(row.place);
  return row.busy === 0n ? row.place.busy : row.busy;
}

function leftOutTimeOf(place) {
  place.leftOut ??= busyTimeOf(place.threads.filter(isLeftOut));
  return place.leftOut;
}

class Graphs {
  constructor() {
    this.threads = byBusyTime(report.threads.filter((thread) => isLeftOut(thread) || hasGraph(thread)));
    Object.assign(this, { sections: new Map(), graphs: new Map(), most: FIRST_GRAPHS, testOf: () => null });
    // Threads that are listed however many are busier, and those of rows that were clicked, which are listed whatever the words are.
    Object.assign(this, { sought: new Set(), found: new Set() });
    byId("more-graphs").onclick = () => this.show(this.most + MORE_GRAPHS);
    byId("order").onchange = () => this.order();
  }

  order() {
    this.graphs.forEach((graph) => graph.order(this.isWidestFirst));
  }

  get isWidestFirst() {
    return byId("order").value === "widest";
  }

  show(most = FIRST_GRAPHS) {
    this.most = most;
    const threads = this.threads.filter((thread) => isThreadNarrowedTo(thread) || this.found.has(thread));
    const listed = threads.filter((thread, at) => at < most || this.sought.has(thread));
    byId("graphs").replaceChildren(...listed.map((thread) => this.sectionOf(thread)));
    for (const thread of listed) setBar(this.sectionOf(thread).querySelector(".busy"), fraction(thread.busy, threads[0].busy));
    byId("more-graphs").hidden = listed.length === threads.length;
    byId("graphs-shown").textContent = this.told(listed.length, threads.length);
    return listed;
  }

  told(listed, narrowedTo) {
    if (runs.length === 0) return NO_RUNS;
    const all = this.threads.length;
    const idle = report.threads.length - all;
    return `${grouped(listed)} of ${grouped(narrowedTo)} threads shown`
      + (narrowedTo < all ? `, narrowed from ${grouped(all)}` : "")
      + (idle > 0 ? `; in ${grouped(idle)} more no span covers a ${unit.word}` : "");
  }

  showLeftOut() {
    const count = this.threads.filter(isLeftOut).length;
    byId("left-out").hidden = count === 0;
    byId("left-out").textContent = `${count === 1 ? "1 graph is" : `${grouped(count)} graphs are`} left out: the graphs of a page have `
      + `at most ${grouped(MOST_FRAMES)} frames in all, and a graph that has more than those before it leave is left out.`;
  }

  sectionOf(thread) {
    if (!this.sections.has(thread)) this.sections.set(thread, this.makeSection(thread));
    return this.sections.get(thread);
  }

  /** Shows the graph of all files, or that it is left out, above those of threads. */
  showWhole() {
    if (whole === null) return;
    byId("whole").replaceChildren(this.sectionOf(whole));
    if (hasGraph(whole)) this.sectionOf(whole).open = true;
  }

  makeWhole() {
    const id = `thread-${whole.at}`;
    const parts = [element("strong", {}, whole.label), ", each thread under its name"];
    if (hasGraph(whole)) return element("details", { id, ontoggle: () => this.graphOf(whole) }, element("summary", {}, ...parts));
    const why = isLeftOut(whole) ? "left out: too many frames" : `no span covers a ${unit.word}`;
    return element("p", { id, className: "left-out" }, ...parts, element("span", { className: "hint" }, `, ${why}`));
  }

  makeSection(thread) {
    if (thread === whole) return this.makeWhole();
    const id = `thread-${thread.at}`;
    const numbers = element("span", { className: "busy" }, `busy ${timeText(thread.busy)}`);
    const open = thread.open > 0n ? `, ${grouped(thread.open)} open` : "";
    const parts = [numbers, "thread ", nameElement(thread.label), " of process ", nameElement(thread.process.label)];
    if (isApart) parts.push(" in ", nameElement(thread.file.name));
    if (isLeftOut(thread)) {
      return element("p", { id, className: "left-out" }, ...parts, element("span", { className: "hint" }, `${open}, left out: too many frames`));
    }
    const summary = element("summary", {}, ...parts, element("span", { className: "hint" }, open));
    return element("details", { id, ontoggle: () => this.graphOf(thread) }, summary);
  }

  graphOf(thread) {
    if (!this.graphs.has(thread)) {
      const graph = new Graph(thread, stacksOf(thread), this.isWidestFirst);
      this.graphs.set(thread, graph);
      this.sectionOf(thread).append(graph.element);
      graph.mark(this.testOf(thread));
    }
    return this.graphs.get(thread);
  }

  /** Marks the frames whose labels pass the test of their thread, now and in graphs that are opened later. */
  mark(testOf) {
    this.testOf = testOf;
    this.graphs.forEach((graph, thread) => graph.mark(testOf(thread)));
  }

  /** Opens the graph of a thread, which is listed from now on, however many are busier. */
  open(thread) {
    this.sought.add(thread);
    if (!this.sectionOf(thread).isConnected && thread !== whole) this.show(this.most);
    this.sectionOf(thread).open = true;
    return this.graphOf(thread);
  }

  /** Opens and gives the graph of the busiest thread that has frames of a row, with these marked; one that is narrowed to comes first.
   * Where the words are those of the row's parents alone, none may be; then it is listed nevertheless, until something else is narrowed
   * to. A page without its runs has the graph of all files. */
  markRow({ place, label }) {
    const threads = this.threads.filter((thread) => hasGraph(thread) && place.has.has(thread) && isThreadOfPlace(thread));
    const having = threads.filter((thread) => labelsOf(thread).includes(label));
    const other = runs.length === 0 && whole !== null && hasGraph(whole) ? whole : undefined;
    const thread = having.find(isThreadNarrowedTo) ?? having[0] ?? threads[0] ?? other;
    if (thread === undefined) return null;
    this.found.add(thread);
    const graph = this.open(thread);
    graph.mark((own) => own === label);
    graph.reveal();
    return graph;
  }

  /** The same, and leads there. */
  find(row) {
    const graph = this.markRow(row);
    if (graph === null) return;
    graph.view.focus({ preventScroll: true });
    this.sectionOf(graph.thread).scrollIntoView({ block: "start" });
    graph.showFocused();
  }

  leaveZooms() {
    this.graphs.forEach((graph) => graph.leaveZoom());
  }

  /** The frames that are zoomed into, each with its thread. */
  zooms() {
    return [...this.graphs].map(([thread, { zoomed: frame }]) => ({ thread, frame })).filter(({ frame }) => frame.parent !== null);
  }

  /** Zooms into these frames, by their places, and out of all others. */
  showZooms(zooms) {
    this.graphs.forEach((graph) => graph.start(graph.root));
    for (const { thread, at } of zooms) {
      const graph = this.open(thread);
      graph.start(graph.frames[at] ?? graph.root);
    }
  }
}

const tables = [spanTable(), ...otherTables()];
const graphs = new Graphs();
const calls = new CallsPanel();

function showUnit() {
  byId("times").textContent = `Times are whole ${unit.word}s.`;
}

/** Offers files to choose where there are several runs, and nothing that a page without its runs lacks. */
function showChoices() {
  fillChoice(byId("file"), "all files", filesToChoose(), ({ name }) => brief(name, LONGEST_NAME));
  byId("file").parentElement.hidden = !isApart;
  byId("over-files").hidden = !isApart || spans.columns.includes("file");
  for (const part of document.querySelectorAll(".of-runs")) part.hidden = runs.length === 0;
  byId("of-graphs").hidden = runs.length === 0 && (whole === null || !hasGraph(whole));
}

function start() {
  showCounts();
  showFiles();
  showWarnings();
  showUnit();
  showChoices();
  byId("names").replaceChildren(tables[0].table.element);
  byId("others").replaceChildren(...tables.slice(1).map(({ home }) => home));
  byId("unstacked").hidden = tables.length === 1;
  byId("words").addEventListener("input", narrow);
  byId("file").addEventListener("change", () => narrowTo(report.files[byId("file").value] ?? null, null, null));
  byId("process").addEventListener("change", () => narrowTo(narrowed.file, report.processes[byId("process").value] ?? null, null));
  byId("thread").addEventListener("change", () => narrowTo(narrowed.file, narrowed.process, report.threads[byId("thread").value] ?? null));
  graphs.showLeftOut();
  graphs.showWhole();
  showKeptView();
  const busiest = graphs.show().find(hasGraph);
  if (busiest) graphs.sectionOf(busiest).open = true;
  listenForViews();
  addEventListener("keydown", pressKey);
  document.querySelector("main").ariaBusy = "false";
  performance.mark("ready");
}

// What keys do wherever nothing is written or chosen.
const KEYS = {
  "/": () => byId("words").select(),
  0: () => graphs.leaveZooms(),
};

function pressKey(event) {
  if (event.defaultPrevented || event.ctrlKey || event.altKey || event.metaKey || event.target.matches("input, select")) return;
  if (!Object.hasOwn(KEYS, event.key)) return;
  KEYS[event.key]();
  event.preventDefault();
}

function listenForViews() {
  const main = document.querySelector("main");
  for (const change of ["input", "change", "viewchange"]) main.addEventListener(change, keepView);
  addEventListener("hashchange", showKeptView);
}

start();
</script>
</body>
</html>
"#;
