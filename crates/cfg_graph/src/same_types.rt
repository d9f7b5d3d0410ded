//! Lists of types, compared by their numbers.
ghost use Rattle.std.specs.Prelude.{◌≡◌, ◌∷◌, ◌+◌, length, take, suc, false};
ghost use Rattle.store_model.specs.Places.TypeForms.{same_ids as ids_same, same_id};

use mir_ty::TyId;

/// Whether two lists of types are one.
pub fn same_ids(ids: &[TyId], others: &[TyId]) -> bool
    ensures { result ≡ ids_same ids.now others.now }
{
    match ids {
        [] => others.is_empty(),
        [id, ids @ ..] => match others {
            [] => false,
            [other, others @ ..] => id.0 == other.0 && same_ids(ids, others),
        },
    }
}

/// Whether the first so many of a list are these, where these are as many.
pub fn begins_with(ids: &[TyId], these: &[TyId]) -> bool
    ensures { result ≡ ids_same (take (length these.now) ids.now) these.now }
{
    match these {
        [] => true,
        [this, these @ ..] => match ids {
            [] => false,
            [id, ids @ ..] => id.0 == this.0 && begins_with(ids, these),
        },
    }
}

/// Whether a list begins with a type and then with these.
pub fn begins_as(ids: &[TyId], first: TyId, these: &[TyId]) -> bool
    ensures { result ≡ ids_same (take (suc (length these.now)) ids.now) (first ∷ these.now) }
{
    match ids {
        [] => false,
        [id, ids @ ..] => id.0 == first.0 && begins_with(ids, these),
    }
}
