//! The law of items.
ghost use Rattle.listing_lines.specs.ItemsFound.{AdtsAreSound, EnumsAreRead, StructsAreRead};

/// Each line of a struct or enum that may stand is found by its reader; and what is found is the line in front, as it is
/// written.
pub fn law_of_items()
    ensures structs { StructsAreRead }
    ensures enums { EnumsAreRead }
    ensures only_adts { AdtsAreSound }
{}
