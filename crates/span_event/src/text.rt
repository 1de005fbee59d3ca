//! A text of a trace.
ghost use Rattle.std.specs.{Cmp.{partial_equiv_from_equiv, Lexicographic.{nat_list_eq_equiv, nat_list_cmp_total, texts_ties, texts_po}, Rules.hashing}, Prelude.{◌≡◌, [], IfOk, Some, refl}};
ghost use Rattle.std.proofs.Common.{rules};
ghost use Rattle.span_event.specs.Text.{Bytes, held_bytes, same_text, text_cmp};
ghost use Rattle.std.specs.Hash as fed;

use crate::short::{SHORT, Short};
use std::alloc::{AllocError, Global};
use std::cmp::Ordering;
use std::fmt;
use std::hash::{Hash, Hasher};
use std::marker::Model;
use std::sync::ArcStr;

// Names are mostly short, and the longer ones are few that stand in many events.
enum Held {
    Short(Short),
    Long(ArcStr),
}

/// A text of a trace: valid UTF-8, kept as it was read. Order and equality are by bytes. Copies share the bytes of
/// a long text.
pub struct Text {
    held: Held,
}

impl Model for Text {
    ghost Value = { Bytes };

    ghost view = { λ t. held_bytes t.held };
}

// Written out, so that dropping a text is one call, however it is held.
impl Drop for Text {
    fn drop(self) {
        let Text { held } = self;
        match held {
            Held::Short(_) => {}
            Held::Long(text) => drop(text),
        }
    }
}

impl Text {
    /// A text of up to so many bytes takes no memory.
    pub const SHORT: usize = SHORT;

    /// The empty text. Takes no memory.
    pub fn empty(_alloc: Global) -> Text
        ensures { result ≡ [] }
    {
        Text {
            held: Held::Short(Short::empty()),
        }
    }

    /// A copy of `text`.
    pub fn of(alloc: Global, text: &str) -> Result<Text, AllocError>
        ensures { IfOk result (λ t. t ≡ text.now) }
    {
        if text.len() <= SHORT {
            return Ok(Text {
                held: Held::Short(Short::of(text)),
            });
        }
        let text = ArcStr::from_str(alloc, text)?;
        Ok(Text {
            held: Held::Long(text),
        })
    }

    pub fn as_str(&self) -> &str
        ensures { result.now ≡ self.now }
    {
        match &self.held {
            Held::Short(text) => text.as_str(),
            Held::Long(text) => text.as_str(),
        }
    }

    /// Takes no memory, and fails only where there are 2^63 copies of a long text.
    pub fn try_clone(&self, _alloc: Global) -> Result<Text, AllocError>
        ensures { IfOk result (λ t. t ≡ self.now) }
    {
        let held = match &self.held {
            Held::Short(text) => Held::Short(text.copy()),
            Held::Long(text) => Held::Long(text.clone()?),
        };
        Ok(Text { held })
    }
}

impl PartialEq for Text {
    ghost eq = { same_text };

    ghost laws = { partial_equiv_from_equiv nat_list_eq_equiv };

    fn eq(&self, other: &Text) -> bool {
        self.as_str() == other.as_str()
    }
}

impl Eq for Text {
    ghost laws = { nat_list_eq_equiv };
}

impl PartialOrd for Text {
    ghost partial_cmp = { λ x y. Some (text_cmp x y) };

    ghost laws = { texts_po };

    fn partial_cmp(&self, other: &Text) -> Option<Ordering> {
        Some(self.cmp(other))
    }
}

impl Ord for Text {
    ghost cmp = { text_cmp };

    ghost total = { nat_list_cmp_total };

    ghost matches_partial_cmp = { λ x y. refl };

    ghost matches_eq = { texts_ties };

    fn cmp(&self, other: &Text) -> Ordering {
        self.as_str().cmp(other.as_str())
    }
}

impl Hash for Text {
    ghost hash_input = { fed.str };

    ghost respects_eq = { Prim.search (hashing, rules) };

    fn hash<H: Hasher>(&self, state: &mut H) {
        self.as_str().hash(state);
    }
}

impl fmt::Debug for Text {
    fn fmt<W: fmt::Write>(&self, f: &mut fmt::Formatter<W>) -> fmt::Result {
        fmt::Debug::fmt(&self.as_str(), f)
    }
}
