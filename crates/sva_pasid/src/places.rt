//! The places of a table of bindings, and the searches in a list of them.

ghost use Rattle.std.specs.Prelude.{◌≡◌, None, IfSome, IfNone, map};
ghost use Rattle.sva_pasid.specs.Places.{place_of, reset_at, IsTable};
ghost use Rattle.sva_pasid.specs.Indexes.{IsIndexOf};

use crate::stages::Stage;

/// The place of a binding in the table.
pub struct TableEntry {
    /// The endpoint's number.
    pub endpoint: u64,
    /// The number of the space, which is the host's own.
    pub space: u64,
    /// The number of the binding, which is the host's own.
    pub binding: u64,
    /// The PASID that the binding bears, of 1 to 32.
    pub pasid: u32,
    /// The stage of the binding; None while it is in hand. The PASID is borne all the same.
    pub stage: Option<Stage>,
}

impl TableEntry {
    /// What a reset of the endpoint leaves of this place.
    fn reset_at(&mut self, endpoint: u64)
        ensures { self.new ≡ reset_at endpoint self.old }
    {
        if self.endpoint != endpoint {
            return;
        }
        if let Some(stage) = self.stage.take() {
            let empty = self.stage.replace(stage.by_reset());
            let None = empty else {
                unreachable!();
            };
        }
    }

    pub(crate) fn abandon(self) {
        let TableEntry {
            endpoint: _,
            space: _,
            binding: _,
            pasid: _,
            stage,
        } = self;
        if let Some(stage) = stage {
            stage.release_by_reset().spend();
        }
    }
}

/// Where the place of the binding stands.
pub(crate) fn index_of(places: &[TableEntry], binding: u64) -> Option<usize>
    requires { IsTable places.now }
    ensures some { IfSome result (λ index. IsIndexOf binding places.now index) }
    ensures none { IfNone result (place_of binding places.now ≡ None) }
{
    places.iter().position(|place| place.binding == binding)
}

/// What a reset of the endpoint leaves of each of these.
pub(crate) fn reset_each(places: &mut [TableEntry], endpoint: u64)
    ensures { places.new ≡ map (reset_at endpoint) places.old }
{
    for place in places.iter_mut() {
        place.reset_at(endpoint);
    }
}
