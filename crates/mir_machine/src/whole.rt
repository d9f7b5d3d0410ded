ghost use Rattle.std.specs.Prelude.{◌≡◌};
ghost use Rattle.store_model.specs.Values.Datum.{datum_of};
ghost use Rattle.store_model.specs.Values.Wholeness.{IsWhole};

use std::marker::Model;
use store_model::Value;

/// A whole value. Contracts see it as the value.
#[derive(Drop)]
pub struct Whole {
    value: Value,
}

impl Model for Whole {
    ghost use Rattle.store_model.specs.declared.value.Value.{Value as Held};
    ghost use Rattle.store_model.specs.Values.Datum.{datum_of};
    ghost use Rattle.store_model.specs.Values.Wholeness.{IsWhole};
    ghost use Rattle.store_model.specs.contracts.value.Value as held;
    ghost use Rattle.std.specs.Coded.{codes};

    ghost Value = { Held };

    ghost coded = { Prim.hlevel (codes, held.the_row.coded) };

    ghost view = { λ whole. whole.value };

    ghost invariant = { λ whole. IsWhole (datum_of whole.value) };
}

impl Whole {
    pub fn new(value: Value) -> Whole
        requires { IsWhole (datum_of value) }
        ensures { result ≡ value }
    {
        Whole { value }
    }

    pub fn into_value(self) -> Value
        ensures value { result ≡ self }
        ensures whole { IsWhole (datum_of result) }
    {
        let Whole { value } = self;
        value
    }
}
