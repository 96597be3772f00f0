//! Listings that are worked out by hand.

ghost use Rattle.sva_lines.specs.Worked.{ListedDrain, ListedGroups, ListedHeldBack, ListedInvalidations};
ghost use Rattle.sva_lines.specs.Worked.{ListedDraining, ListedInvalidating, ListedMarker, ListedReset};
ghost use Rattle.sva_lines.specs.Worked.{ListedStopping, ListedTranslations};
ghost use Rattle.sva_lines.specs.Worked.{ListedRanges, ListedTargets, PageUnmapped, PagesMapped};

/// What the listing is after runs of the definitions, line by line.
pub fn worked_listings()
    ensures pages_mapped { PagesMapped }
    ensures page_unmapped { PageUnmapped }
    ensures listed_invalidations { ListedInvalidations }
    ensures listed_groups { ListedGroups }
    ensures listed_targets { ListedTargets }
    ensures listed_drain { ListedDrain }
    ensures listed_ranges { ListedRanges }
    ensures listed_held_back { ListedHeldBack }
    ensures listed_translations { ListedTranslations }
    ensures listed_stopping { ListedStopping }
    ensures listed_marker { ListedMarker }
    ensures listed_draining { ListedDraining }
    ensures listed_invalidating { ListedInvalidating }
    ensures listed_reset { ListedReset }
{}
