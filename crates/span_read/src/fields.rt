//! The members of an event's object that are read, each in its own place.
ghost use Rattle.std.specs.Prelude.{◌≡◌};

use span_event::{ArgValue, Args, Text};

/// A member's value by its kind; of an object the members, by theirs. A number with a point or an exponent, or too large for a
/// whole one, is kept as the float that it is, which only a time reads.
#[derive(Drop)]
pub(crate) enum FieldValue {
    Plain(ArgValue),
    Float(f64),
    Pairs(Args),
}

impl FieldValue {
    ghost use Rattle.span_read.specs.Fields.{whole, words};

    pub(crate) fn whole(&self) -> Option<i64>
        ensures { result ≡ whole self.now }
    {
        match self {
            FieldValue::Plain(ArgValue::Whole(number)) => Some(*number),
            _ => None,
        }
    }

    /// The text itself, which is moved.
    pub(crate) fn into_words(self) -> Option<Text>
        ensures { result ≡ words self }
    {
        match self {
            FieldValue::Plain(ArgValue::Words(text)) => Some(text),
            _ => None,
        }
    }
}

#[derive(Default, Drop)]
pub(crate) struct Fields {
    pub(crate) ph: Option<FieldValue>,
    pub(crate) ts: Option<FieldValue>,
    pub(crate) dur: Option<FieldValue>,
    pub(crate) pid: Option<FieldValue>,
    pub(crate) tid: Option<FieldValue>,
    pub(crate) name: Option<FieldValue>,
    pub(crate) cat: Option<FieldValue>,
    pub(crate) id: Option<FieldValue>,
    pub(crate) id2: Option<FieldValue>,
    pub(crate) scope: Option<FieldValue>,
    pub(crate) s: Option<FieldValue>,
    pub(crate) args: Option<FieldValue>,
}

impl Fields {
    ghost use Rattle.serde_json.specs.Data.{no_members};
    ghost use Rattle.span_read.specs.{Fields.fields_of, Slots.{slots, names, put_at}};

    pub(crate) fn clear(&mut self)
        ensures { self.new ≡ fields_of no_members }
    {
        self.ph = None;
        self.ts = None;
        self.dur = None;
        self.pid = None;
        self.tid = None;
        self.name = None;
        self.cat = None;
        self.id = None;
        self.id2 = None;
        self.scope = None;
        self.s = None;
        self.args = None;
    }

    // Inlined, it would have all the fields copied at each member. By its length a name differs from most others at once.
    #[inline(never)]
    pub(crate) fn put(&mut self, name: &str, value: FieldValue)
        ensures { slots self.new
            ≡ put_at name.now value names (slots self.old) }
    {
        match name.len() {
            1 => if name == "s" {
                self.s = Some(value)
            },
            2 => match name {
                "ph" => self.ph = Some(value),
                "ts" => self.ts = Some(value),
                "id" => self.id = Some(value),
                _ => {}
            },
            3 => match name {
                "dur" => self.dur = Some(value),
                "pid" => self.pid = Some(value),
                "tid" => self.tid = Some(value),
                "cat" => self.cat = Some(value),
                "id2" => self.id2 = Some(value),
                _ => {}
            },
            4 => match name {
                "name" => self.name = Some(value),
                "args" => self.args = Some(value),
                _ => {}
            },
            5 => if name == "scope" {
                self.scope = Some(value)
            },
            _ => {}
        }
    }
}
