//! The names of one process or thread.
ghost use Rattle.std.specs.Prelude.{◌≡◌, [], option_copied};
ghost use Rattle.span_keyed_tracks.specs.{Meta.names_of, MetaKept.{setting, with_setting}};

use super::setting::Setting;
use span_event::Text;
use std::marker::Model;

#[derive(Drop)]
pub(crate) struct Named {
    name: Option<Text>,
    labels: Option<Text>,
    sort_index: Option<i64>,
}

impl Model for Named {
    ghost use Rattle.span_keyed_tracks.specs.Meta.{Names};

    ghost Value = { Names };

    ghost view = { λ n. record { name = n.name; labels = n.labels; sort_index = n.sort_index } };
}

impl Named {
    pub(crate) fn new() -> Named
        ensures { result ≡ names_of [] }
    {
        Named {
            name: None,
            labels: None,
            sort_index: None,
        }
    }

    pub(crate) fn set(&mut self, to: Setting)
        ensures { self.new ≡ with_setting self.old (setting to) }
    {
        match to {
            Setting::Name(name) => self.name = Some(name),
            Setting::Labels(labels) => self.labels = Some(labels),
            Setting::SortIndex(index) => self.sort_index = Some(index),
        }
    }

    pub(crate) fn name(&self) -> Option<&Text>
        ensures { option_copied result ≡ self.now.name }
    {
        self.name.as_ref()
    }

    pub(crate) fn labels(&self) -> Option<&Text>
        ensures { option_copied result ≡ self.now.labels }
    {
        self.labels.as_ref()
    }

    pub(crate) fn sort_index(&self) -> Option<i64>
        ensures { result ≡ self.now.sort_index }
    {
        self.sort_index
    }
}
