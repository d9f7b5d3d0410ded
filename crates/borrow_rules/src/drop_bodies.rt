//! The bodies of `Drop` impls.
ghost use Rattle.std.specs.Prelude.{◌≡◌};
ghost use Rattle.borrow_rules.specs.Found.{HasDropBodies};
ghost use Rattle.mir_ty.specs.DropBodies as rules;

use mir_ty::Items;
use std::collections::HashSet;

/// Whether a body is that of a `Drop` impl, by their numbers.
pub fn is_drop_body(items: &Items, numbers: &HashSet<u32>, body: u32) -> bool
    requires { HasDropBodies items.now numbers.now.keys }
    ensures { result ≡ rules.is_drop_body items.now body }
{
    numbers.contains(&body)
}
