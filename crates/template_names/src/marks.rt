//! What each byte of a text is where templates are merged.
ghost use Rattle.std.specs.Prelude.{◌≡◌, [], ◌∷◌, map, MatchOption};
ghost use Rattle.template_names.specs.Marks.{first_length, is_word_byte, mark_in, marks, symbol_length, symbols_behind};

use std::marker::Model;

/// What a byte of a text is: one that opens or closes the arguments of a template, or another.
#[derive(Clone, Copy)]
pub(crate) enum Mark {
    Open,
    Close,
    Other(u8),
}

impl Mark {
    // What a byte is with which so many bytes of a symbol begin.
    fn of(symbol: usize, byte: u8) -> Mark
        ensures { result ≡ mark_in symbol byte }
    {
        match byte {
            b'<' if symbol == 0 => Mark::Open,
            b'>' if symbol == 0 => Mark::Close,
            _ => Mark::Other(byte),
        }
    }
}

// The longer ones first.
const OPERATORS: [&[u8]; 11] = [
    b"<=>", b"<<=", b">>=", b"->*", b"<<", b">>", b"<=", b">=", b"->", b"<", b">",
];

const OPERATOR: &[u8] = b"operator";

const ARROWS: [&[u8]; 1] = [b"->"];

/// The marks of a text that are left, from the left. A contract sees them as a list.
#[derive(Drop)]
pub(crate) struct Marks<'a> {
    text: &'a [u8],
    // Where the next byte stands, and where the word begins that ends before it.
    at: usize,
    word: usize,
    // How many bytes of a symbol are left.
    symbol: usize,
}

impl<'a> Model for Marks<'a> {
    ghost use Rattle.std.specs.Prelude.{◌≤◌, drop, length, List, slice_range};
    ghost use Rattle.template_names.specs.{Marks.marks_behind, declared.marks.Mark.Mark};

    ghost Value = { List Mark };

    ghost view = { λ m. marks_behind m.symbol (slice_range m.text.now m.word m.at) (drop m.at m.text.now) };

    ghost invariant = { λ m. (m.word ≤ m.at) × (m.at ≤ length m.text.now) };
}

impl<'a> Marks<'a> {
    /// All marks of the text.
    pub(crate) fn of(text: &'a [u8]) -> Marks<'a>
        ensures { result ≡ marks text.entry.now }
    {
        Marks {
            text,
            at: 0,
            word: 0,
            symbol: 0,
        }
    }

    /// Takes the first mark that is left.
    pub(crate) fn take(&mut self) -> Option<Mark>
        ensures { MatchOption result (self.old ≡ []) (λ mark. self.old ≡ mark ∷ self.new) }
    {
        let byte = *self.text.get(self.at)?;
        let word = &self.text[self.word..self.at];
        let symbol = symbol_length(self.symbol, word, &self.text[self.at..]);
        let mark = Mark::of(symbol, byte);
        self.symbol = symbol.saturating_sub(1);
        self.at += 1;
        if !is_word_byte(byte) {
            self.word = self.at;
        }
        Some(mark)
    }
}

// How many bytes with which the text begins are of a symbol, `left` being those of one that began before it.
fn symbol_length(left: usize, word: &[u8], text: &[u8]) -> usize
    ensures { result ≡ symbol_length left word.now text.now }
{
    if left > 0 {
        return left;
    }
    first_length(symbols_behind(word), text)
}

// The symbols to look for behind a word.
fn symbols_behind(word: &[u8]) -> &'static [&'static [u8]]
    ensures { map (λ symbol. symbol.now) result.now ≡ symbols_behind word.now }
{
    if word == OPERATOR {
        &OPERATORS
    } else {
        &ARROWS
    }
}

// The length of the first of the symbols with which the text begins.
fn first_length(symbols: &[&[u8]], text: &[u8]) -> usize
    ensures { result ≡ first_length (map (λ symbol. symbol.now) symbols.now) text.now }
{
    for symbol in symbols {
        if text.starts_with(symbol) {
            return symbol.len();
        }
    }
    0
}

// Words are of letters, digits, underscores and the bytes of characters beyond ASCII, as identifiers are.
fn is_word_byte(byte: u8) -> bool
    ensures { result ≡ is_word_byte byte }
{
    byte.is_ascii_alphanumeric() || byte == b'_' || byte >= 128
}
