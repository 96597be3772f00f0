//! How a unit answers a translation request.

ghost use Rattle.std.specs.Prelude.{◌≡◌, IfOk, filter, find, option_map, slice_get};
ghost use Rattle.sva_open.specs.World.{is_other, is_page, with_translation};
ghost use Rattle.sva_open.specs.Units as unit;

use crate::asking::find_translation;
use crate::pumping::drop_entry;
use std::alloc::AllocError;
use sva_open::{Entry, KeptEntry, Mapping, Message, Part, Sent, Settings, Target, Translation};

/// Answers a translation request.
pub(crate) fn answer(
    part: &mut Part,
    settings: &Settings,
    mappings: &[Mapping],
    one: &Sent,
    tag: usize,
    pasid: usize,
    page: u64,
) -> Result<(), AllocError>
    ensures { IfOk result (λ _.
        part.new ≡ unit.answer settings.now mappings.now part.old one.now tag pasid page) }
{
    let entry = entry_at(part, pasid);
    let target = target_at(part, mappings, pasid, page, entry);
    keep_what(part, settings.has_caches, pasid, page, entry, target)?;
    part.send(
        one.owner,
        one.number,
        Message::Completion { tag, page, target },
    )
}

/// The entry that it goes by.
fn entry_at(part: &Part, pasid: usize) -> Option<Entry>
    ensures { result ≡ unit.entry_at part.now pasid }
{
    match find_entry(part.kept_entries.as_slice(), pasid) {
        Some(kept) => Some(kept.entry),
        None => entry_in_memory(part, pasid),
    }
}

fn entry_in_memory(part: &Part, pasid: usize) -> Option<Entry>
    ensures { result ≡ unit.entry_of (slice_get part.now.rows pasid) }
{
    match part.row(pasid) {
        Some(row) => row.entry,
        None => None,
    }
}

/// What the page leads to.
fn target_at(
    part: &Part,
    mappings: &[Mapping],
    pasid: usize,
    page: u64,
    entry: Option<Entry>,
) -> Option<Target>
    ensures { result ≡ unit.target_at mappings.now part.now pasid page entry }
{
    let Some(entry) = entry else {
        return None;
    };
    match find_translation(part.kept.as_slice(), pasid, page) {
        Some(kept) => Some(kept.target),
        None => target_in_memory(mappings, entry.space, page),
    }
}

fn keep_what(
    part: &mut Part,
    has_caches: bool,
    pasid: usize,
    page: u64,
    entry: Option<Entry>,
    target: Option<Target>,
) -> Result<(), AllocError>
    ensures { IfOk result (λ _. part.new ≡ unit.keeps has_caches part.old pasid page entry target) }
{
    if !has_caches {
        return Ok(());
    }
    match entry {
        Some(entry) => keep_by(part, pasid, page, entry, target),
        None => Ok(()),
    }
}

fn keep_by(
    part: &mut Part,
    pasid: usize,
    page: u64,
    entry: Entry,
    target: Option<Target>,
) -> Result<(), AllocError>
    ensures { IfOk result (λ _. part.new ≡ unit.kept_by part.old pasid page entry target) }
{
    drop_entry(&mut part.kept_entries, pasid);
    part.kept_entries.push(KeptEntry { pasid, entry })?;
    match target {
        Some(target) => put_translation(
            &mut part.kept,
            Translation {
                pasid,
                page,
                owner: entry.owner,
                target,
            },
        ),
        None => Ok(()),
    }
}

fn find_entry(list: &[KeptEntry], pasid: usize) -> Option<KeptEntry>
    ensures { result ≡ find (unit.is_entry_of pasid) list.now }
{
    list.iter().find(|one| one.pasid == pasid).copied()
}

fn find_mapping(mappings: &[Mapping], space: u64, page: u64) -> Option<Mapping>
    ensures { result ≡ find (is_page space page) mappings.now }
{
    mappings
        .iter()
        .find(|one| one.is_page(space, page))
        .copied()
}

fn target_in_memory(mappings: &[Mapping], space: u64, page: u64) -> Option<Target>
    ensures { result ≡ option_map unit.target_mapped (find (is_page space page) mappings.now) }
{
    match find_mapping(mappings, space, page) {
        Some(mapping) => Some(mapping.target),
        None => None,
    }
}

/// Takes out any other translation of the same page.
fn drop_others(list: &mut Vec<Translation>, translation: &Translation)
    ensures { list.new.items ≡ filter (is_other translation.now) list.old.items }
{
    list.retain(|one| !one.is_of(translation.pasid, translation.page));
}

/// Puts a translation in place of any other of the same page.
pub(crate) fn put_translation(
    list: &mut Vec<Translation>,
    translation: Translation,
) -> Result<(), AllocError>
    ensures { IfOk result (λ _. list.new.items ≡ with_translation list.old.items translation) }
{
    drop_others(list, &translation);
    list.push(translation)?;
    Ok(())
}
