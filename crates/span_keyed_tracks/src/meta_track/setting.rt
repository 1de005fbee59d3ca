//! What a metadata event sets.
ghost use Rattle.std.specs.Prelude.{◌≡◌, None, option_map, IfOk, IsOk};
ghost use Rattle.span_keyed_tracks.specs.{Meta.{labels_setting, name_setting, names_thread, setting_of, sort_setting, whole_at, text_at}, MetaKept.keyed_setting};

use crate::key_change::Key;
use span_event::{ArgValue, Event, Phase, Text};
use std::alloc::{AllocError, Global};

// A process; or one of its threads.
pub(crate) type Holder = (i64, Option<i64>);

impl Key for Holder {
    fn copied(&self, _alloc: Global) -> Result<Holder, AllocError> {
        Ok(*self)
    }
}

#[derive(Drop)]
pub(crate) enum Setting {
    Name(Text),
    Labels(Text),
    SortIndex(i64),
}

/// Whether the event is a metadata event that gives its thread a name or a sort index.
pub fn names_thread(event: &Event) -> bool
    ensures { result ≡ names_thread event.now }
{
    let Phase::Meta = event.phase else {
        return false;
    };
    if event.name.as_str() == "thread_name" {
        return matches!(event.args.get("name"), Some(ArgValue::Words(_)));
    }
    if event.name.as_str() == "thread_sort_index" {
        return whole_at(event, "sort_index").is_some();
    }
    false
}

// A copy of what the event sets; nothing where it has no effect.
pub(crate) fn setting_of(
    alloc: Global,
    event: &Event,
) -> Result<Option<(Holder, Setting)>, AllocError>
    ensures setting { IfOk result (λ s. option_map keyed_setting s ≡ setting_of event.now) }
    ensures none { setting_of event.now ≡ None → IsOk result }
{
    let name = event.name.as_str();
    if name == "thread_name" {
        return name_setting(alloc, event, Some(event.tid));
    }
    if name == "thread_sort_index" {
        return Ok(sort_setting(event, Some(event.tid)));
    }
    if name == "process_name" {
        return name_setting(alloc, event, None);
    }
    if name == "process_labels" {
        return labels_setting(alloc, event, None);
    }
    if name == "process_sort_index" {
        return Ok(sort_setting(event, None));
    }
    Ok(None)
}

fn name_setting(
    alloc: Global,
    event: &Event,
    tid: Option<i64>,
) -> Result<Option<(Holder, Setting)>, AllocError>
    ensures setting { IfOk result (λ s. option_map keyed_setting s ≡ name_setting event.now tid) }
    ensures none { name_setting event.now tid ≡ None → IsOk result }
{
    let name = text_at(alloc, event, "name")?;
    Ok(name.map(|name| ((event.pid, tid), Setting::Name(name))))
}

fn labels_setting(
    alloc: Global,
    event: &Event,
    tid: Option<i64>,
) -> Result<Option<(Holder, Setting)>, AllocError>
    ensures setting { IfOk result (λ s. option_map keyed_setting s ≡ labels_setting event.now tid) }
    ensures none { labels_setting event.now tid ≡ None → IsOk result }
{
    let labels = text_at(alloc, event, "labels")?;
    Ok(labels.map(|labels| ((event.pid, tid), Setting::Labels(labels))))
}

fn sort_setting(event: &Event, tid: Option<i64>) -> Option<(Holder, Setting)>
    ensures { option_map keyed_setting result ≡ sort_setting event.now tid }
{
    let index = whole_at(event, "sort_index")?;
    Some(((event.pid, tid), Setting::SortIndex(index)))
}

fn text_at(alloc: Global, event: &Event, member: &str) -> Result<Option<Text>, AllocError>
    ensures words { IfOk result (λ words. words ≡ text_at member.now event.now) }
    ensures none { text_at member.now event.now ≡ None → IsOk result }
{
    match event.args.get(member) {
        Some(ArgValue::Words(words)) => Ok(Some(words.try_clone(alloc)?)),
        _ => Ok(None),
    }
}

fn whole_at(event: &Event, member: &str) -> Option<i64>
    ensures { result ≡ whole_at member.now event.now }
{
    match event.args.get(member) {
        Some(ArgValue::Whole(number)) => Some(*number),
        _ => None,
    }
}
