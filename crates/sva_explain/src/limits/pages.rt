//! The pages that a worker's success would map.

ghost use Rattle.std.specs.Prelude.{◌≡◌, ◌==◌, ◌||◌, ◌++◌, OnOk, flat_map, if◌then◌else◌};
ghost use Rattle.std.specs.List.{list_any};
ghost use Rattle.sva_address_spaces.specs.Asked.{asks_seen};
ghost use Rattle.sva_address_spaces.specs.Seen.{pages_seen};
ghost use Rattle.sva_labels.specs.Finding.{is_mapped};
ghost use Rattle.sva_labels.specs.Replying.{new_among, newly_mapped};
ghost use Rattle.sva_explain.specs.Frames.{page_text};
ghost use Rattle.sva_snapshot.specs.Shown.{job_shown};

use crate::enabled::{is_mapped, pages_of_job};
use std::alloc::AllocError;
use sva_lines::put_field;
use sva_snapshot::{Ask, Job, Mapping, Snapshot};

/// Is a page among these asked for?
fn is_asked(asks: &[Ask], page: u64) -> bool
    ensures { result ≡ list_any (λ ask. ask.page == page) asks.now }
{
    for ask in asks {
        if ask.page == page {
            return true;
        }
    }
    false
}

/// Is a page mapped, or asked for among these?
fn is_known(pages: &[Mapping], asks: &[Ask], page: u64) -> bool
    ensures { result ≡ (is_mapped (pages_seen pages.now) page || list_any (λ ask. ask.page == page) asks.now) }
{
    is_mapped(pages, page) || is_asked(asks, page)
}

/// Appends a page, unless it is known.
fn put_page_unless(out: &mut Vec<u8>, known: bool, page: u64) -> Result<(), AllocError>
    ensures { OnOk result (out.new.items ≡ (if known then out.old.items else out.old.items ++ page_text page)) }
{
    if known {
        return Ok(());
    }
    put_field(out, " ", page)
}

/// Appends the pages that are asked for and aren't mapped, each once.
fn put_new_among(out: &mut Vec<u8>, pages: &[Mapping], asks: &[Ask]) -> Result<(), AllocError>
    ensures { OnOk result (out.new.items ≡ out.old.items
        ++ flat_map page_text (new_among (pages_seen pages.now) (asks_seen asks.now))) }
{
    for (place, ask) in asks.iter().enumerate() {
        put_page_unless(out, is_known(pages, &asks[..place], ask.page), ask.page)?;
    }
    Ok(())
}

/// Appends the pages that a success would map, in order of first filing.
pub(crate) fn put_new_pages(
    out: &mut Vec<u8>,
    snapshot: &Snapshot,
    job: &Job,
) -> Result<(), AllocError>
    ensures { OnOk result (out.new.items ≡ out.old.items
        ++ flat_map page_text (newly_mapped snapshot.now (job_shown job.now))) }
{
    put_new_among(out, pages_of_job(snapshot, job), job.asks.as_slice())
}
