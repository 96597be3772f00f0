//! The tags of the translation requests that are out.

ghost use Rattle.std.specs.Prelude.{◌≡◌, ◌<◌, IfSome, List, map, position, slice_set};
ghost use Rattle.std.specs.List.{list_any};
ghost use Rattle.sva_endpoint.specs.RequestTags.{doomed_by};

use crate::coverage::Invalidation;
use arrayvec::ArrayVec;
use std::marker::Model;
use sva_step::REQUEST_TAGS;

/// The place of one tag of a translation request (PCI Express Base 5.0, section 10.2.2).
#[derive(Clone, Copy, Debug, PartialEq, Eq)]
pub enum RequestTag {
    /// No request has the tag.
    Free,
    /// The tag of a request that is out.
    Out {
        /// The PASID, 1 to 32.
        pasid: u32,
        /// The number of the page, below 2^36.
        page: u64,
    },
    /// The tag of a request that is out and that an invalidation covered meanwhile: its answer will be thrown away (this
    /// project's own rule).
    Doomed {
        /// The PASID, 1 to 32.
        pasid: u32,
        /// The number of the page, below 2^36.
        page: u64,
    },
}

impl RequestTag {
    ghost use Rattle.sva_endpoint.specs.RequestTags.{is_free, asks_under, doomed_by};

    fn is_free(&self) -> bool
        ensures { result ≡ is_free self.now }
    {
        matches!(self, RequestTag::Free)
    }

    fn asks_under(&self, pasid: u64) -> bool
        ensures { result ≡ asks_under pasid self.now }
    {
        match self {
            RequestTag::Free => false,
            RequestTag::Out { pasid: asker, .. } | RequestTag::Doomed { pasid: asker, .. } =>
                u64::from(*asker) == pasid,
        }
    }

    fn doomed_by(self, invalidation: &Invalidation) -> RequestTag
        ensures { result ≡ doomed_by invalidation.now self }
    {
        match self {
            RequestTag::Out { pasid, page } if invalidation.covers(pasid, page) =>
                RequestTag::Doomed { pasid, page },
            other => other,
        }
    }
}

/// The tags of translation requests of an endpoint (PCI Express Base 5.0, section 10.2.2): 0 to 31 (a limit of this
/// project).
#[derive(Drop)]
pub struct RequestTags {
    places: ArrayVec<RequestTag, REQUEST_TAGS>,
}

impl Model for RequestTags {
    ghost use Rattle.std.specs.Prelude.{◌≡◌, List, length};
    ghost use Rattle.sva_endpoint.specs.declared.request_tags.RequestTag.{RequestTag};

    ghost Value = { List RequestTag };

    ghost view = { λ tags. tags.places.items };

    ghost invariant = { λ tags. length tags.places.items ≡ 32 };
}

impl RequestTags {
    ghost use Rattle.sva_endpoint.specs.RequestTags.{no_requests, is_free, asks_under, doomed_by, request_at};

    /// No request is out.
    pub fn new() -> Self
        ensures { result ≡ no_requests }
    {
        RequestTags {
            places: ArrayVec::from([RequestTag::Free; REQUEST_TAGS]),
        }
    }

    /// What has each tag, of 0 to 31.
    pub fn places(&self) -> &[RequestTag]
        ensures { result.now ≡ self.now }
    {
        self.places.as_slice()
    }

    /// The lowest tag that no request has, 0 to 31; none where each has one.
    pub fn lowest_free(&self) -> Option<u8>
        ensures found { result ≡ position is_free self.now }
        ensures within { IfSome result (λ tag. tag < 32) }
    {
        self.first_free().map(|tag| tag as u8)
    }

    fn first_free(&self) -> Option<usize>
        ensures found { result ≡ position is_free self.now }
        ensures within { IfSome result (λ tag. tag < 32) }
    {
        self.places.iter().position(|place| place.is_free())
    }

    /// Sends a request for this page, below 2^36, of this PASID, 1 to 32, out under this tag, 0 to 31.
    pub fn take(&mut self, tag: u8, pasid: u32, page: u64)
        requires { tag < 32 }
        ensures { self.new ≡ slice_set self.old tag (RequestTag.Out pasid page) }
    {
        self.places[tag as usize] = RequestTag::Out { pasid, page };
    }

    /// Frees the tag and gives what it was; one from 32 on is free and stays so.
    #[tactic(auto, using(crate::proofs::Places::past_the_end))]
    pub fn free(&mut self, tag: u8) -> RequestTag
        ensures was { result ≡ request_at self.old tag }
        ensures freed { self.new ≡ slice_set self.old tag RequestTag.Free }
    {
        let tag = usize::from(tag);
        let mut was = RequestTag::Free;
        if tag < self.places.len() {
            was = self.places[tag];
            self.places[tag] = RequestTag::Free;
        }
        was
    }

    /// Tells whether a request of this PASID is out, doomed ones included.
    pub fn asks_under(&self, pasid: u64) -> bool
        ensures { result ≡ list_any (asks_under pasid) self.now }
    {
        self.places.iter().any(|place| place.asks_under(pasid))
    }

    /// Dooms each request that is out and that the invalidation covers: it keeps its tag (this project's own rule).
    pub fn doom(&mut self, invalidation: &Invalidation)
        ensures { self.new ≡ map (doomed_by invalidation.now) self.old }
    {
        doom_each(self.places.as_mut_slice(), invalidation);
    }
}

/// Dooms each of these that is out and covered.
fn doom_each(places: &mut [RequestTag], invalidation: &Invalidation)
    ensures { places.new ≡ map (doomed_by invalidation.now) places.old }
{
    for place in places.iter_mut() {
        *place = place.doomed_by(invalidation);
    }
}
