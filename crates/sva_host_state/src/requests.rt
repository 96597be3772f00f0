//! The answers to translation requests (PCI Express Base 5.0, section 10.2.3).

ghost use Rattle.std.specs.Prelude.{◌≡◌, ℕ, option_map};
ghost use Rattle.sva_labels.specs.Outcomes.{completion_of};
ghost use Rattle.sva_address_spaces.specs.Seen.{page_seen};
ghost use Rattle.sva_parts_by_labels.specs.Flights.{kind_seen};

use sva_msg::Kind;

/// The Translation Completion for this tag that tells what was found at a page, if anything was. It doesn't name the page:
/// so the contract holds of each.
pub fn completion(tag: u8, found: Option<(u32, bool)>) -> Kind
    ensures { (page : ℕ) → kind_seen result ≡ completion_of tag (option_map (λ at. page_seen (page, at)) found) }
{
    match found {
        Some((frame, write)) => Kind::Completion {
            tag,
            frame,
            read: true,
            write,
        },
        None => Kind::Completion {
            tag,
            frame: 0,
            read: false,
            write: false,
        },
    }
}
