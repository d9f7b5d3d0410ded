//! The law of listings.
ghost use Rattle.listing_write.specs.Compared.{OneGraphAListing, WellFormedAsCompared};
ghost use Rattle.listing_write.specs.Lines.{ListingIsItsLines};

/// The fourth law: two well formed graphs of one listing are equal as compared: without the names of fields, without signatures past the
/// last body, and with types as they are written. And a graph whose types exist is well formed where it is equal, as
/// compared, to a well formed one. A listing is the texts of the lines of its graph, each with its line feed.
pub fn law_l4()
    ensures one_graph { OneGraphAListing }
    ensures as_compared { WellFormedAsCompared }
    ensures in_lines { ListingIsItsLines }
{}
