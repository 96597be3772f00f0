//! The page request groups of an endpoint, by their indexes.

ghost use Rattle.std.specs.Prelude.{◌≡◌, ◌<◌, ◌≤◌, IfSome, Some, None, if◌then◌else◌, map, position, slice_set, length};
ghost use Rattle.std.specs.List.{list_any, position_or_len};
ghost use Rattle.sva_endpoint.specs.Groups.{stale_of};

use arrayvec::ArrayVec;
use std::marker::Model;
use sva_step::GROUPS;

/// The place of one Page Request Group Index: 0 to 31 of its nine bits (PCI Express Base 5.0, section 10.4.1).
#[derive(Clone, Copy, Debug, PartialEq, Eq)]
pub enum GroupPlace {
    /// No group has the index.
    Free,
    /// A group whose last request wasn't sent.
    Collecting {
        /// The PASID, 1 to 32.
        pasid: u32,
        /// How many requests it has, 1 to 32.
        requests: u8,
    },
    /// A group whose last request was sent and whose response hasn't come.
    Out {
        /// The PASID, 1 to 32.
        pasid: u32,
        /// How many requests it has, 1 to 32.
        requests: u8,
    },
    /// A group that was out when its PASID was quit, and whose response hasn't come: it keeps its index until then (this
    /// project's own rule).
    Stale {
        /// The PASID that was quit, 1 to 32.
        pasid: u32,
        /// How many requests it has, 1 to 32.
        requests: u8,
    },
}

impl GroupPlace {
    ghost use Rattle.sva_endpoint.specs.Groups.{is_free, is_collecting, requests_of, group_of, with_request, stale_of};

    fn is_free(&self) -> bool
        ensures { result ≡ is_free self.now }
    {
        matches!(self, GroupPlace::Free)
    }

    /// Tells whether it is an unfinished group of this PASID.
    pub fn is_collecting(&self, pasid: u64) -> bool
        ensures { result ≡ is_collecting pasid self.now }
    {
        match self {
            GroupPlace::Collecting { pasid: sender, .. } => u64::from(*sender) == pasid,
            GroupPlace::Free | GroupPlace::Out { .. } | GroupPlace::Stale { .. } => false,
        }
    }

    fn requests(&self) -> u8
        ensures { result ≡ requests_of self.now }
    {
        match self {
            GroupPlace::Free => 0,
            GroupPlace::Collecting { requests, .. } => *requests,
            GroupPlace::Out { requests, .. } => *requests,
            GroupPlace::Stale { requests, .. } => *requests,
        }
    }

    fn group_of(pasid: u32, requests: u8, last: bool) -> GroupPlace
        ensures { result ≡ group_of pasid requests last }
    {
        if last {
            GroupPlace::Out { pasid, requests }
        } else {
            GroupPlace::Collecting { pasid, requests }
        }
    }

    fn with_request(self, last: bool) -> GroupPlace
        requires { requests_of self < 32 }
        ensures { result ≡ with_request last self }
    {
        match self {
            GroupPlace::Collecting { pasid, requests } => GroupPlace::group_of(
                pasid,
                requests + 1,
                last,
            ),
            other => other,
        }
    }

    fn stale_of(self, quit: u32) -> GroupPlace
        ensures { result ≡ stale_of quit self }
    {
        match self {
            GroupPlace::Out { pasid, requests } if pasid == quit => GroupPlace::Stale {
                pasid,
                requests,
            },
            other => other,
        }
    }
}

/// The groups of page requests of an endpoint under the indexes 0 to 31, and how many of their requests are outstanding:
/// at most 32 (PCI Express Base 5.0, section 10.5.2; both limits are this project's own).
#[derive(Drop)]
pub struct GroupTable {
    places: ArrayVec<GroupPlace, GROUPS>,
    outstanding: u8,
}

impl Model for GroupTable {
    ghost use Rattle.std.specs.Prelude.{◌≡◌, ◌≤◌, List, length};
    ghost use Rattle.sva_endpoint.specs.declared.groups.GroupPlace.{GroupPlace};

    ghost Value = { List GroupPlace };

    ghost use Rattle.sva_endpoint.specs.Groups.{outstanding as outstanding_of, HaveRequests};

    ghost view = { λ table. table.places.items };

    ghost invariant = { λ table. (length table.places.items ≡ 32) × (table.outstanding ≡ outstanding_of table.places.items)
        × (table.outstanding ≤ 32) × HaveRequests table.places.items };
}

impl GroupTable {
    ghost use Rattle.sva_endpoint.specs.Groups.{no_groups, group_at, is_free, is_collecting, requests_of, outstanding as outstanding_of, group_of};
    ghost use Rattle.sva_endpoint.specs.Groups.{with_request, stale_of};

    /// No group is there.
    pub fn new() -> Self
        ensures { result ≡ no_groups }
    {
        GroupTable {
            places: ArrayVec::from([GroupPlace::Free; GROUPS]),
            outstanding: 0,
        }
    }

    /// What has each index, of 0 to 31.
    pub fn places(&self) -> &[GroupPlace]
        ensures { result.now ≡ self.now }
    {
        self.places.as_slice()
    }

    /// How many page requests are outstanding: at most 32.
    pub fn outstanding(&self) -> u8
        ensures count { result ≡ outstanding_of self.now }
        ensures within { result ≤ 32 }
    {
        self.outstanding
    }

    /// The lowest index that no group has, 0 to 31. There is one where fewer than 32 requests are outstanding, since each
    /// group has one at least.
    pub fn lowest_free(&self) -> u8
        requires { outstanding_of self.now < 32 }
        ensures found { position is_free self.now ≡ Some result }
        ensures within { result < 32 }
    {
        // That there are 32 places and that each group has a request is known once the places have been read.
        let _places = &self.places;
        match self.first_free() {
            Some(index) => index as u8,
            None => unreachable!(),
        }
    }

    fn first_free(&self) -> Option<usize>
        ensures found { result ≡ position is_free self.now }
        ensures within { IfSome result (λ index. index < 32) }
    {
        self.places.iter().position(|place| place.is_free())
    }

    /// The index, where it is that of an unfinished group of this PASID.
    pub fn unfinished(&self, index: u64, pasid: u64) -> Option<u8>
        ensures found { result ≡ (if is_collecting pasid (group_at self.now index) then Some index else None) }
        ensures within { IfSome result (λ index. index < 32) }
    {
        let places = &self.places;
        if index < places.len() as u64 && places[index as usize].is_collecting(pasid) {
            Some(index as u8)
        } else {
            None
        }
    }

    /// Tells whether a group of this PASID is unfinished.
    pub fn is_collecting(&self, pasid: u64) -> bool
        ensures { result ≡ list_any (is_collecting pasid) self.now }
    {
        self.places.iter().any(|place| place.is_collecting(pasid))
    }

    /// Begins a group of this PASID, 1 to 32, under the lowest free index, 0 to 31, with its first request, which may be its
    /// last. Fewer than 32 requests have to be outstanding.
    pub fn begin(&mut self, index: u8, pasid: u32, last: bool)
        requires lowest { index ≡ position_or_len is_free self.old }
        requires within { index < 32 }
        requires credit { outstanding_of self.old < 32 }
        ensures { self.new ≡ slice_set self.old index (group_of pasid 1 last) }
    {
        self.places[index as usize] = GroupPlace::group_of(pasid, 1, last);
        self.outstanding += 1;
    }

    /// Adds a request, which may be the last, to the group of this index, 0 to 31, where it is unfinished. Fewer than 32
    /// requests have to be outstanding.
    pub fn extend(&mut self, index: u8, last: bool)
        requires within { index < 32 }
        requires credit { outstanding_of self.old < 32 }
        ensures { self.new ≡ slice_set self.old index (with_request last (group_at self.old index)) }
    {
        let place = self.places[index as usize];
        let longer = place.with_request(last);
        self.places[index as usize] = longer;
        self.outstanding = self.outstanding - place.requests() + longer.requests();
    }

    /// Frees an index with its requests; one from 32 on stays free. Gives what it was.
    pub fn free(&mut self, index: u8) -> GroupPlace
        ensures was { result ≡ group_at self.old index }
        ensures freed { self.new ≡ slice_set self.old index GroupPlace.Free }
    {
        let index = usize::from(index);
        let mut was = GroupPlace::Free;
        if index < self.places.len() {
            was = self.places[index];
            self.places[index] = GroupPlace::Free;
            self.outstanding -= was.requests();
        }
        was
    }

    /// Makes the groups of this PASID that are out stale: they keep their indexes and their requests.
    pub fn make_stale(&mut self, pasid: u32)
        ensures { self.new ≡ map (stale_of pasid) self.old }
    {
        make_each_stale(self.places.as_mut_slice(), pasid);
    }
}

/// Makes each of these that is a group of this PASID that is out stale.
fn make_each_stale(places: &mut [GroupPlace], pasid: u32)
    ensures { places.new ≡ map (stale_of pasid) places.old }
{
    for place in places.iter_mut() {
        *place = place.stale_of(pasid);
    }
}
