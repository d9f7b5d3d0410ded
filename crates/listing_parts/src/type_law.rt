//! The law of types.
ghost use Rattle.listing_parts.specs.TypesFound.{PlainNumbersAreRead, RowsAreRead, TypesAreRead};
ghost use Rattle.listing_parts.specs.TypesFound.{PlainNumbersAreSound, RowsAreSound, TypesAreSound};

/// Each type that stands under heads is found by its reader, before whatever closes it, and so is each row of them; and
/// what is found stands in front, as it is written. The same of numbers.
pub fn law_of_types()
    ensures types { TypesAreRead }
    ensures rows { RowsAreRead }
    ensures numbers { PlainNumbersAreRead }
    ensures only_types { TypesAreSound }
    ensures only_rows { RowsAreSound }
    ensures only_numbers { PlainNumbersAreSound }
{}
