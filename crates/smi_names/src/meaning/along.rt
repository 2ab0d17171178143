//! Meanings of names along chains: an import refers to the same name in the module after FROM, and
//! a definition can refer to a name in its own module.
ghost use Rattle.std.specs.Prelude.{◌≡◌, ℕ, List, Option, Some, option_map};
ghost use Rattle.smi_text.specs.declared.trees.tree.Def.{Def};

use smi_text::{Def, Name};

/// Which name in its own module a definition refers to. The meaning of a definition can depend on
/// that name's meaning: a type depends on the type that it refines. An import always refers to the
/// same name in the module after FROM (RFC 2578, section 3.2).
pub trait References {
    /// `refers_to def`: the name in its own module that the definition refers to, if any.
    ghost refers_to: { Def → Option (List ℕ) };

    /// Returns the name in its own module that `def` refers to, if it refers to one.
    fn reference(def: &Def) -> Option<&Name>
        ensures { option_map (λ name. name.now.octets) result ≡ refers_to def.now };
}

/// A meaning of names. An imported name means what the same name means in the module after FROM
/// (RFC 2578, section 3.2). A defined name means what its definition means, which can depend on
/// the meaning of the name that the definition refers to. Any other name, such as a root's, means
/// nothing.
pub trait Meaning: Copy + References {
    /// `means at def far`: what the definition means, if the name that it refers to means `far`.
    ghost means: { ℕ × ℕ → Def → Option Self → Option Self };

    /// Returns what `def` means. `at` has the index of the definition's module, and the index of
    /// the definition in it. `far` is the meaning of the name that `def` refers to: `None` if that
    /// name means nothing, or if `def` refers to no name.
    fn meaning(at: (usize, usize), def: &Def, far: Option<Self>) -> Option<Self>
        ensures { result ≡ means at def.now far };
}

/// Only imports refer to another name; a definition refers to none.
impl References for (usize, usize) {
    ghost use Rattle.smi_names.specs.meaning.Along.{refers_to_nothing};

    ghost refers_to = { refers_to_nothing };

    fn reference(_def: &Def) -> Option<&Name> {
        None
    }
}

/// The indices of a definition as a meaning: the index of its module, and its index in the module.
impl Meaning for (usize, usize) {
    ghost use Rattle.smi_names.specs.meaning.Along.{source_as_meaning};

    ghost means = { source_as_meaning };

    fn meaning(
        at: (usize, usize),
        _def: &Def,
        _far: Option<(usize, usize)>,
    ) -> Option<(usize, usize)>
        ensures { result ≡ Some at }
    {
        Some(at)
    }
}
