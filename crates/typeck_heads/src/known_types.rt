//! What is known of all items by their names alone.
ghost use Rattle.std.specs.Prelude.{◌≡◌, ◌++◌, IfOk, IfErr, codes};
ghost use Rattle.std.specs.String.{string_bytes};
ghost use Rattle.mir_base.specs.declared.rule.RuleError.{RuleError};
ghost use Rattle.typeck_heads.specs.Forms.{around_of, known_of};
ghost use Rattle.typing_rules.specs.Collected.{names_alone};
ghost use Rattle.typing_rules.specs.Items.{method_path, method_body};

use crate::names::NameTable;
use crate::written_types::WrittenScope;
use mir_base::{NoMemory, RuleError};
use std::alloc::{AllocError, Global};

/// The names of structs and enums, of traits, and the paths of bodies, each by its number.
#[derive(Drop)]
pub struct Known {
    pub alloc: Global,
    pub adts: NameTable,
    pub traits: NameTable,
    pub paths: NameTable,
}

/// The path `<S as T>::m` of the method of an impl of a trait.
pub fn path_of_method(
    alloc: Global,
    owner: &str,
    trait_: &str,
    name: &str,
) -> Result<String, AllocError>
    ensures { IfOk result (λ path. string_bytes path ≡ method_path owner.now trait_.now name.now) }
{
    let mut path = String::from_str(alloc, "<")?;
    path.push_str(owner)?;
    path.push_str(" as ")?;
    path.push_str(trait_)?;
    path.push_str(">::")?;
    path.push_str(name)?;
    Ok(path)
}

impl Known {
    /// The scope of types in a head, where only names are looked at.
    pub fn scope(&self, self_adt: Option<u32>) -> WrittenScope<'_>
        ensures { around_of result ≡ names_alone (known_of self.now) self_adt }
    {
        WrittenScope {
            alloc: self.alloc,
            has_limits: false,
            self_adt,
            adts: &self.adts,
            traits: &self.traits,
        }
    }

    /// The number of the body of a method of an impl of a trait; `None` where there is no such body.
    pub fn method_body(
        &self,
        owner: &str,
        trait_: &str,
        name: &str,
    ) -> Result<Option<u32>, AllocError>
        ensures { IfOk result (λ body. body ≡ method_body self.now.paths owner.now trait_.now name.now) }
    {
        let path = path_of_method(self.alloc, owner, trait_, name)?;
        Ok(self.paths.find(path.as_str()))
    }
}
