//! What is read of an endpoint: its tables and its cache.

ghost use Rattle.std.specs.Prelude.{◌≡◌};

use crate::cached::Cache;
use crate::device::Endpoint;
use crate::groups::GroupPlace;
use crate::pasid_states::PasidState;
use crate::request_tags::RequestTag;
use crate::taken_table::Taken;
use crate::use_slots::UseSlot;

impl Endpoint {
    /// The states by PASID, of 0 to 32: there is no PASID 0, and its place is `Off`.
    pub fn pasids(&self) -> &[PasidState]
        ensures { result.now ≡ self.now.pasids }
    {
        self.pasids.places()
    }

    /// The cached translations.
    pub fn cache(&self) -> &Cache
        ensures { result.now ≡ self.now.cache }
    {
        &self.cache
    }

    /// What has each tag of a translation request, of 0 to 31.
    pub fn tags(&self) -> &[RequestTag]
        ensures { result.now ≡ self.now.tags }
    {
        self.tags.places()
    }

    /// What is in each slot of a use, of 0 to 15.
    pub fn uses(&self) -> &[UseSlot]
        ensures { result.now ≡ self.now.uses }
    {
        self.uses.places()
    }

    /// The invalidation that is taken under each ITag, of 0 to 31.
    pub fn taken(&self) -> &[Option<Taken>]
        ensures { result.now ≡ self.now.taken }
    {
        self.taken.places()
    }

    /// The group of page requests under each index, of 0 to 31.
    pub fn groups(&self) -> &[GroupPlace]
        ensures { result.now ≡ self.now.groups }
    {
        self.groups.places()
    }

    /// Whether page requests may be sent: no response failure has come since the last reset.
    pub fn is_enabled(&self) -> bool
        ensures { result ≡ self.now.enabled }
    {
        self.enabled
    }
}
