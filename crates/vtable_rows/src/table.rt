ghost use Rattle.std.specs.Prelude.{◌≡◌, slice_get};
ghost use Rattle.std.specs.Option.{option_copied};

use mir_base::List;
use std::marker::Model;

/// The row of an impl of a trait for a struct or an enum.
#[derive(Drop)]
pub struct Row {
    /// The number of the struct or enum.
    pub adt: u32,
    /// The bodies of the methods, in the order of the trait's methods.
    pub bodies: List<u32>,
    /// Whether a value of the struct or enum needs dropping (The Rust Reference, "Destructors"): so a box of such a
    /// trait object has nothing but itself to free where it does not.
    pub needs_drop: bool,
}

/// The rows of all impls of a program by number.
#[derive(Drop)]
pub struct Rows {
    rows: List<Row>,
}

impl Model for Rows {
    ghost use Rattle.std.specs.Prelude.{List as Listed};
    ghost use Rattle.vtable_rows.specs.declared.table.Row.{Row as a_row};

    ghost Value = { Listed a_row };

    ghost view = { λ rows. rows.rows };
}

impl Rows {
    /// Rows by number, without taking memory.
    pub fn from_list(rows: List<Row>) -> Rows
        ensures { result ≡ rows }
    {
        Rows { rows }
    }

    /// The row of the impl with this number; `None` exactly where there is no such impl. It takes no memory, and the
    /// cost is the same for all.
    pub fn row(&self, impl_no: u32) -> Option<&Row>
        ensures { option_copied result ≡ slice_get self.now impl_no }
    {
        self.rows.get(impl_no as usize)
    }
}
