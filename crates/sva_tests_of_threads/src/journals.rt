//! A journal by itself.

use crate::worlds::{CONFIG, map};
use sva_fabric::{Entry, Journaled};
use sva_step::Refusal;

/// Maps a page for port 7: is this its entry?
fn performs(journaled: &mut Journaled, entry: &Entry) -> bool {
    match journaled.perform(7, &map(16)) {
        Ok(found) => found == *entry,
        Err(_) => false,
    }
}

/// Stands this alone in the journal?
fn has_alone(journaled: &Journaled, entry: Entry) -> bool {
    journaled.calls() == 1 && journaled.at(0) == Some(entry) && journaled.at(1).is_none()
}

/// Stands this as the first, but not the same of another port?
fn tells_ports_apart(journaled: &Journaled, entry: &Entry) -> bool {
    let other = Entry { port: 6, ..*entry };
    journaled.has(0, entry) && !journaled.has(0, &other)
}

#[test]
fn a_journal_by_itself(rt: HostRuntime) {
    let Ok(mut journaled) = Journaled::open(rt.alloc(), CONFIG) else {
        panic!(rt; "it opens");
    };
    let entry = Entry {
        port: 7,
        step: map(16),
        answer: Err(Refusal::NoSuchSpace),
    };
    assert!(rt; performs(&mut journaled, &entry));
    assert!(rt; has_alone(&journaled, entry));
    assert!(rt; tells_ports_apart(&journaled, &entry));
    assert!(rt; journaled.counts().free == 4);
}
