//! What a race calls usable is what the headline does.

ghost use Rattle.sva_script_laws.specs.ByNames.{UsableByNames};

/// After every list of steps, a race says that an endpoint may use a translation to a frame exactly where the endpoint
/// has a translation to it that is usable in the headline's words. So a race's `never .. usable` is about these.
pub fn usable_is_the_headlines()
    ensures { UsableByNames }
{}
