//! Tables of names over the items of a program.
use mir_base::List;
use src_ast::FieldKind;
use std::collections::HashSet;
use typeck_env::{AdtNames, ImplPair};
use typeck_heads::NameTable;

/// What the rules of typing look up by names, each by one look-up.
pub struct Tables {
    /// The names of structs and enums, and of traits, as the text has them.
    pub adts: NameTable,
    pub traits: NameTable,
    /// How the parts of each variant of each struct and enum are written.
    pub kinds: List<List<FieldKind>>,
    /// The methods of impls that have `self`, by their names.
    pub self_methods: NameTable,
    /// The names of structs and enums, of traits, and of bodies, as the items have them.
    pub adt_names: NameTable,
    pub trait_names: NameTable,
    pub body_names: NameTable,
    /// The names of variants and fields.
    pub members: List<AdtNames>,
    /// The names of the methods of each trait.
    pub methods: List<NameTable>,
    /// Which structs and enums have an impl of which traits.
    pub pairs: HashSet<ImplPair>,
    /// The bodies of `Drop` impls.
    pub drop_bodies: HashSet<u32>,
}

/// As a derived one; but written here, it is proved here, and not again in each crate in which such a value ends.
impl Drop for Tables {
    fn drop(self) {
        let Tables {
            adts,
            traits,
            kinds,
            self_methods,
            adt_names,
            trait_names,
            body_names,
            members,
            methods,
            pairs,
            drop_bodies,
        } = self;
        drop(adts);
        drop(traits);
        drop(kinds);
        drop(self_methods);
        drop(adt_names);
        drop(trait_names);
        drop(body_names);
        drop(members);
        drop(methods);
        drop(pairs);
        drop(drop_bodies);
    }
}
