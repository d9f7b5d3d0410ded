//! The table and the evaluation.
ghost use Rattle.scope_table.specs.Law.{PutsWhereTheTableSays};
ghost use Rattle.scope_table.specs.PartsLaw.{TableHasTheParts, RunsPartsInTheirScopes};
ghost use Rattle.std.specs.Prelude.{true, false};
ghost use Rattle.store_model.specs.Abstract.Effects.{AbstractState};
ghost use Rattle.store_model.specs.Concrete.State.{State};

/// Evaluation puts entries where the table says: in scopes that stand as the table takes them to, what has a value
/// has made the entries of its rows in the scopes of its rows, in their order, and nothing else. Of runs, and of free
/// runs.
pub fn law_of_scopes()
    ensures values { PutsWhereTheTableSays State }
    ensures free { PutsWhereTheTableSays AbstractState }
{}

/// A form opens for each part the scopes that the table takes it to be in, and runs it nowhere else: with anything in
/// the stead of what its parts do in other scopes, in another role or in another order it does the same. Of a form that
/// is run as a scope for temporaries of its own and of one that is not; of runs, and of free runs.
pub fn law_of_parts()
    ensures table { TableHasTheParts false }
    ensures table_by_itself { TableHasTheParts true }
    ensures values { RunsPartsInTheirScopes State }
    ensures free { RunsPartsInTheirScopes AbstractState }
{}
