ghost use Rattle.std.specs.Prelude.{◌≡◌};
ghost use Rattle.mir_base.specs.IntKind.{least_of, greatest_of};

/// The integer types of the language. `usize` has 64 bits.
#[derive(Clone, Copy, PartialEq, Eq, Hash)]
pub enum IntKind {
    I32,
    I64,
    U32,
    U64,
    Usize,
}

/// The least number of a type, as The Rust Reference gives it in "Numeric types".
pub fn least(kind: IntKind) -> i128
    ensures { result ≡ least_of kind }
{
    match kind {
        IntKind::I32 => -2147483648,
        IntKind::I64 => -9223372036854775808,
        IntKind::U32 | IntKind::U64 | IntKind::Usize => 0,
    }
}

/// The greatest number of a type, as The Rust Reference gives it in "Numeric types".
pub fn greatest(kind: IntKind) -> i128
    ensures { result ≡ greatest_of kind }
{
    match kind {
        IntKind::I32 => 2147483647,
        IntKind::I64 => 9223372036854775807,
        IntKind::U32 => 4294967295,
        IntKind::U64 | IntKind::Usize => 18446744073709551615,
    }
}
