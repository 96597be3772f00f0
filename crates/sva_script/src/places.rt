//! What stands at each place of a step's line.

ghost use Rattle.std.specs.Prelude.{◌≡◌, option_map};
ghost use Rattle.sva_script.specs.Places.{places_of, places_of_endpoint, places_of_host};

use crate::equal::is;

/// What a word behind a step's name says.
#[derive(Clone, Copy, PartialEq, Eq)]
pub enum Field {
    /// The number of an endpoint.
    Endpoint,
    /// The number of a worker.
    Worker,
    /// The number of a space, or the name of a step that was answered one.
    Space,
    /// The number of a binding, or a name.
    Binding,
    /// A PASID, or the name of a binding, which bears one.
    Pasid,
    /// The number of a page, in decimal or behind `0x` in hexadecimal digits.
    Page,
    /// The number of a frame, or a name.
    Frame,
    /// A use slot, or a name.
    Slot,
    /// `new`, the index of an unfinished group, or a name.
    Group,
    /// ITags: a vector of eight hexadecimal digits, a list as `{0,3}`, or the name of a pump that sent an invalidation.
    Itags,
    /// One ITag. It is named in answers alone.
    Itag,
    /// A request tag. It is named in answers alone.
    Tag,
    /// A message: its number, or the name of a step that sent one.
    Message,
    /// A count.
    Count,
    /// A count, or nothing.
    MaybeCount,
    /// The order of a range.
    Order,
    /// `r` or `w`.
    Access,
    /// `r`, `w` or `rw`.
    Flags,
    /// `more` or `last`.
    Last,
    /// What a worker decides.
    Verdict,
}

/// What stands at the places behind a step's name. `None` where no step has the name. A delivery by `next`, by `last`, or by
/// kind and endpoint isn't among these forms.
#[tactic(auto, unfolding(crate::specs::Places::places_of))]
pub fn places_of(step: &[u8]) -> Option<&'static [Field]>
    ensures { option_map (λ places. places.now) result ≡ places_of step.now }
{
    if is(step, b"space") {
        return Some(&[]);
    }
    if is(step, b"drop") {
        return Some(&[Field::Space]);
    }
    if is(step, b"map") {
        return Some(&[Field::Space, Field::Page, Field::Access]);
    }
    if is(step, b"unmap") {
        return Some(&[Field::Space, Field::Page, Field::MaybeCount]);
    }
    if is(step, b"unmapr") {
        return Some(&[Field::Space, Field::Page, Field::Order]);
    }
    if is(step, b"look") {
        return Some(&[Field::Frame]);
    }
    if is(step, b"bearer") {
        return Some(&[Field::Pasid]);
    }
    places_of_host(step)
}

/// Those of bindings, units and workers, and else one of the others.
#[tactic(auto, unfolding(crate::specs::Places::places_of_host))]
fn places_of_host(step: &[u8]) -> Option<&'static [Field]>
    ensures { option_map (λ places. places.now) result ≡ places_of_host step.now }
{
    if is(step, b"bind") {
        return Some(&[Field::Endpoint, Field::Space]);
    }
    if is(step, b"unbind") {
        return Some(&[Field::Binding]);
    }
    if is(step, b"advance") {
        return Some(&[Field::Binding]);
    }
    if is(step, b"pump") {
        return Some(&[Field::Endpoint]);
    }
    if is(step, b"serve") {
        return Some(&[Field::Endpoint]);
    }
    if is(step, b"reset") {
        return Some(&[Field::Endpoint]);
    }
    if is(step, b"take") {
        return Some(&[Field::Worker]);
    }
    if is(step, b"answer") {
        return Some(&[Field::Worker, Field::Verdict]);
    }
    places_of_endpoint(step)
}

/// Those of endpoints and of the link.
#[tactic(auto, unfolding(crate::specs::Places::places_of_endpoint))]
fn places_of_endpoint(step: &[u8]) -> Option<&'static [Field]>
    ensures { option_map (λ places. places.now) result ≡ places_of_endpoint step.now }
{
    if is(step, b"ask") {
        return Some(&[Field::Endpoint, Field::Pasid, Field::Page]);
    }
    if is(step, b"evict") {
        return Some(&[Field::Endpoint, Field::Pasid, Field::Page]);
    }
    if is(step, b"use") {
        return Some(&[Field::Endpoint, Field::Pasid, Field::Page, Field::Access]);
    }
    if is(step, b"end") {
        return Some(&[Field::Endpoint, Field::Slot]);
    }
    if is(step, b"fault") {
        return Some(&[
            Field::Endpoint,
            Field::Pasid,
            Field::Page,
            Field::Flags,
            Field::Group,
            Field::Last,
        ]);
    }
    if is(step, b"finish") {
        return Some(&[Field::Endpoint, Field::Itags, Field::Count]);
    }
    if is(step, b"quit") {
        return Some(&[Field::Endpoint, Field::Pasid]);
    }
    if is(step, b"deliver") {
        return Some(&[Field::Message]);
    }
    None
}
