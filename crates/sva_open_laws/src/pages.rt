//! The open world by pages.

ghost use Rattle.sva_open_laws.specs.PageRows.{LessIsAwaited, OthersAreSeveral, PlacesMove};
ghost use Rattle.sva_open_laws.specs.Pages.{AreAlwaysSafeApart, AreRunsApart, AreRunsSafeApart, AreSafeApart, IsOnePage, IsPageLaw};

/// The world of a page is the open world in which every other page leads nowhere. Each act that is permitted in a safe
/// moment is one of that world, or none, and leaves there what the page has of what it leaves; so do acts one after
/// another. A moment is safe exactly where the world of each page is. So is each moment through which acts lead where
/// it is so of the world of each page and of what they are there; and whatever acts come, where that is.
pub fn pages_stand_alone()
    ensures alone { IsOnePage }
    ensures acts { IsPageLaw }
    ensures safe { AreSafeApart }
    ensures runs { AreRunsApart }
    ensures along { AreRunsSafeApart }
    ensures always { AreAlwaysSafeApart }
{}

/// What would be false: that a use has the same place in the world of its page; that nothing is permitted there but what
/// is so of the whole; and that all other pages are one.
pub fn rows_of_pages()
    ensures places { PlacesMove }
    ensures less { LessIsAwaited }
    ensures others { OthersAreSeveral }
{}
