// Theorems about the definitions of the listing, each on a function that only carries it.
ghost use Rattle.listing.specs.PrintedPackings.{PrintedPackings};
ghost use Rattle.listing.specs.ScriptLaw.{RunsToItsEnd};
ghost use Rattle.listing.specs.WorkedListing.{WorkedListings};

// What the definitions give for tasks worked by hand.
pub fn worked_listings()
    ensures { WorkedListings }
{}

// A script is run to its end. It packs feasible floorplans alone; what it prints of a packing is the least
// placement, in the lengths of the plain packing.
pub fn script_laws()
    ensures ends { RunsToItsEnd }
    ensures packings { PrintedPackings }
{}
