//! The numbers of the types with which the table of each text begins: `collect` gives them to these, in this order.
ghost use Rattle.std.specs.Prelude.{◌≡◌, ◌==◌, ◌||◌};

use crate::TyId;

/// The number of `()`.
pub const UNIT: TyId = TyId(0);

/// The number of `bool`.
pub const BOOL: TyId = TyId(1);

/// The number of `!`.
pub const NEVER: TyId = TyId(2);

/// The number of `i32`.
pub const I32: TyId = TyId(3);

/// The number of `i64`.
pub const I64: TyId = TyId(4);

/// The number of `u32`.
pub const U32: TyId = TyId(5);

/// The number of `u64`.
pub const U64: TyId = TyId(6);

/// The number of `usize`.
pub const USIZE: TyId = TyId(7);

impl TyId {
    /// Whether it is the number of `i32` or of `i64` in such a table.
    pub fn is_signed(self) -> bool
        ensures { result ≡ (self.0 == 3 || self.0 == 4) }
    {
        self == I32 || self == I64
    }
}
