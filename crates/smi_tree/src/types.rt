//! The syntax of objects: what their chains of types define, through textual conventions, assigned
//! types and imports. Each type is visited at most once.
//!
//! Depends on module trees and on what decides their names. The tree of names stores the types of
//! its modules, and uses them to show values and to read indexes.
ghost use Rattle.std.specs.Prelude.{◌≡◌, IfOk, MatchOption, Option, Some, option_map, ℕ, List};
ghost use Rattle.std.specs.Prelude.{if◌then◌else◌};
ghost use Rattle.std.specs.{Option.option_copied, List.slice_get};
ghost use Rattle.smi_tree.specs.types.Types.{base_in, object_origin, origin_of_object, def_at};
ghost use Rattle.smi_tree.specs.types.Types.{HasSyntax, HasNoSyntax, name_in, type_origin};
ghost use Rattle.smi_tree.specs.types.Kept.{AreFollowed, AreKeptOf, AreKeptOfAll, AreTypesOf};
ghost use Rattle.smi_tree.specs.types.Kept.{IsKept, base_or, def_of, facts_of, kept_syntax};
ghost use Rattle.smi_tree.specs.types.Kept.{refined_by};
ghost use Rattle.smi_tree.specs.types.Numbers.{AreNumbersOfAll, kept_index};

mod numbers;

use crate::node::copy_at;
use crate::syntax::{
    TypeSyntax, base_of, hint_of, name_of, names_in_definition, names_of, object_type_of,
    sizes_in_definition, sizes_of, type_of,
};
use numbers::{ListIndexes, number_indexes};
use smi_names::{Entries, Meaning, Names, References, TypeBase};
use smi_text::{Def, Module, Name, SimpleType};
use smi_value::NumberIndex;
use std::alloc::{AllocError, Global};

/// A syntax as it is stored, with the definitions that have its hint, its named numbers or bits,
/// and its SIZE. Each definition is stored as the index of its module and its index in the module.
/// The meaning of a type's name is a `KeptSyntax` too.
#[derive(Clone, Copy)]
pub(crate) struct KeptSyntax {
    /// The base type at the end of the chain of types.
    base: TypeBase,
    /// The first definition on the chain that has a display hint, if there is one.
    hint: Option<(usize, usize)>,
    /// The first definition on the chain that has named numbers or bits, if there is one.
    names: Option<(usize, usize)>,
    /// The first definition on the chain that has a SIZE, if there is one.
    sizes: Option<(usize, usize)>,
}

/// The syntaxes of the objects of modules. The caller stores the modules.
#[derive(Drop)]
pub struct Types {
    /// For each definition of each module, its syntax, if it is an object that has one.
    objects: Vec<Vec<Option<KeptSyntax>>>,
    /// For each module, the indexes of its long lists of named numbers or bits.
    numbers: Vec<ListIndexes>,
}

impl References for KeptSyntax {
    ghost use Rattle.smi_tree.specs.types.Kept.{refines};

    ghost refers_to = { refines };

    fn reference(def: &Def) -> Option<&Name> {
        name_of(type_of(&def.kind)?)
    }
}

impl Meaning for KeptSyntax {
    ghost use Rattle.smi_tree.specs.types.Kept.{type_at};

    ghost means = { type_at };

    fn meaning(at: (usize, usize), def: &Def, far: Option<KeptSyntax>) -> Option<KeptSyntax>
        ensures { result ≡ type_at at def.now far }
    {
        let simple = type_of(&def.kind)?;
        inherit_syntax(at, hint_of(&def.kind).is_some(), simple, far)
    }
}

impl Types {
    /// Returns the types of `modules`, without recursion.
    #[tactic(auto, using(crate::proofs::Refinements::are_types))]
    pub fn new<'a>(
        alloc: Global,
        names: &Names<'a>,
        modules: &'a [Module],
    ) -> Result<Types, AllocError>
        // `names` must be the names of `modules`.
        requires { names.now.modules ≡ modules.now }
        ensures types { IfOk result (λ types. AreTypesOf modules.now types) }
        ensures numbers { IfOk result
            (λ types. AreNumbersOfAll modules.now types.numbers.items) }
    {
        let entries = names.entries();
        let types = entries.along::<KeptSyntax>(alloc)?;
        Ok(Types {
            objects: objects(alloc, &entries, &types, modules)?,
            numbers: number_indexes(alloc, modules)?,
        })
    }

    /// Returns the syntax of an OBJECT-TYPE, by the index of its module and its index in the
    /// module. Returns `None` if no OBJECT-TYPE has these indices, or if its chain of types is
    /// broken, has no end, or ends at something other than a type of values (RFC 2578, sections
    /// 7.1 and 9). The caller must pass the modules that the types were made from.
    #[tactic(auto, using(crate::proofs::Refinements::by_facts))]
    pub fn syntax<'m>(
        &self,
        modules: &'m [Module],
        module_index: usize,
        def_index: usize,
    ) -> Option<TypeSyntax<'m>>
        requires { AreTypesOf modules.now self.now }
        ensures { MatchOption result
            (HasNoSyntax modules.now (object_origin modules.now module_index def_index))
            (λ syntax. HasSyntax modules.now (object_origin modules.now module_index def_index)
            (facts_of syntax)) }
    {
        self.stored_syntax(modules, module_index, def_index)
    }

    /// Returns the syntax that is stored for an OBJECT-TYPE, as [`Types::syntax`] does. With other
    /// modules than the types were made from, this can be any syntax, or `None`.
    pub fn stored_syntax<'m>(
        &self,
        modules: &'m [Module],
        module_index: usize,
        def_index: usize,
    ) -> Option<TypeSyntax<'m>>
        ensures { option_map facts_of result
            ≡ kept_syntax modules.now self.now module_index def_index }
    {
        let syntax = copy_at(self.objects.get(module_index)?, def_index)?;
        Some(TypeSyntax {
            base: syntax.base,
            names: definition(modules, syntax.names).and_then(names_in_definition),
            hint: definition(modules, syntax.hint).and_then(|def| hint_of(&def.kind)),
            sizes: definition(modules, syntax.sizes).and_then(sizes_in_definition),
        })
    }

    /// Returns the stored index of the named numbers or bits in the syntax of an OBJECT-TYPE, if
    /// one is stored. Only long lists have one.
    pub(crate) fn stored_index(&self, module_index: usize, def_index: usize) -> Option<&NumberIndex>
        ensures { option_copied result ≡ kept_index self.now module_index def_index }
    {
        let syntax = copy_at(self.objects.get(module_index)?, def_index)?;
        let (i, k) = syntax.names?;
        self.numbers.get(i)?.get(&k)
    }
}

/// Returns the definition at `at`, the index of its module and its index in the module, if there
/// is one.
fn definition(modules: &[Module], at: Option<(usize, usize)>) -> Option<&Def>
    ensures { option_copied result ≡ def_of modules.now at }
{
    let (i, k) = at?;
    modules.get(i)?.defs.as_slice().get(k)
}

/// Returns the syntax of the type in the definition `at`. Its own hint, names and SIZE take
/// precedence; what it lacks is inherited from `far`, the syntax of the type that it refines. A
/// type that refines a base type inherits only this base. `hint` says whether the definition has a
/// hint. Returns `None` if the type doesn't refine a base type and `far` is `None`.
#[tactic(auto, using(crate::proofs::Refinements::is_some_copied))]
fn inherit_syntax(
    at: (usize, usize),
    hint: bool,
    simple: &SimpleType,
    far: Option<KeptSyntax>,
) -> Option<KeptSyntax>
    ensures { result ≡ refined_by at hint simple.now far }
{
    let far = base_syntax_or(simple, far)?;
    Some(KeptSyntax {
        base: far.base,
        hint: nearer(hint, at, far.hint),
        names: nearer(names_of(simple).is_some(), at, far.names),
        sizes: nearer(sizes_of(simple).is_some(), at, far.sizes),
    })
}

/// Returns the syntax of the base type that a type refines, or `far` if it refines another type.
fn base_syntax_or(simple: &SimpleType, far: Option<KeptSyntax>) -> Option<KeptSyntax>
    ensures { result ≡ base_or (base_in simple.now.base) far }
{
    match base_of(simple) {
        Some(base) => Some(KeptSyntax {
            base,
            hint: None,
            names: None,
            sizes: None,
        }),
        None => far,
    }
}

/// Returns the definition that a hint, names or a SIZE comes from. This is `at` if `states`, which
/// says that the definition at `at` has its own. Otherwise it is `far`, the definition from which
/// it is inherited, if there is one.
fn nearer(states: bool, at: (usize, usize), far: Option<(usize, usize)>) -> Option<(usize, usize)>
    ensures { result ≡ (if states then Some at else far) }
{
    if states { Some(at) } else { far }
}

/// Returns the syntax of the type that `simple` refines by name in the module named `home`.
/// Returns `None` if that type has no syntax, or if `simple` refines a base type.
fn parent_syntax<'a>(
    entries: &Entries<'_, 'a>,
    types: &[Option<KeptSyntax>],
    home: &'a [u8],
    simple: &'a SimpleType,
) -> Option<KeptSyntax>
    requires followed { AreFollowed entries.now types.now }
    ensures { (x : List ℕ) → name_in simple.now.base ≡ Some x → IsKept entries.now.modules
        (type_origin entries.now.modules (record { home = home.now; name = x })) result }
{
    let name = name_of(simple)?;
    copy_at(types, entries.entry_index(home, name.as_bytes()))
}

/// Returns the syntax of `def`, which is in the module `home` and has the indices `at`, if it is
/// an object that has one.
fn object<'a>(
    entries: &Entries<'_, 'a>,
    types: &[Option<KeptSyntax>],
    home: &'a Module,
    def: &'a Def,
    at: (usize, usize),
) -> Option<KeptSyntax>
    requires followed { AreFollowed entries.now types.now }
    requires there { def_at entries.now.modules at.0 at.1 ≡ Some def.now }
    ensures { IsKept entries.now.modules (origin_of_object home.now.name.octets def.now) result }
{
    let simple = object_type_of(&def.kind)?;
    let far = parent_syntax(entries, types, home.name.as_bytes(), simple);
    inherit_syntax(at, false, simple, far)
}

/// Returns, for each definition of `module`, its syntax, if it is an object that has one. `index`
/// is the index of the module.
fn module_objects<'a>(
    alloc: Global,
    entries: &Entries<'_, 'a>,
    types: &[Option<KeptSyntax>],
    module: &'a Module,
    index: usize,
) -> Result<Vec<Option<KeptSyntax>>, AllocError>
    requires followed { AreFollowed entries.now types.now }
    requires there { slice_get entries.now.modules index ≡ Some «module».now }
    ensures { IfOk result (λ kept. AreKeptOf entries.now.modules «module».now kept.items) }
{
    let defs = module.defs.as_slice();
    let mut kept = Vec::with_capacity(alloc, defs.len())?;
    'defs: for (k, def) in defs.iter().enumerate() {
        kept.push(object(entries, types, module, def, (index, k)))?;
    }
    Ok(kept)
}

/// Returns, for each definition of each module, its syntax, if it is an object that has one.
fn objects<'a>(
    alloc: Global,
    entries: &Entries<'_, 'a>,
    types: &[Option<KeptSyntax>],
    modules: &'a [Module],
) -> Result<Vec<Vec<Option<KeptSyntax>>>, AllocError>
    requires followed { AreFollowed entries.now types.now }
    requires named { entries.now.modules ≡ modules.now }
    ensures { IfOk result (λ objects. AreKeptOfAll modules.now objects.items) }
{
    let mut objects = Vec::with_capacity(alloc, modules.len())?;
    'modules: for (i, module) in modules.iter().enumerate() {
        objects.push(module_objects(alloc, entries, types, module, i)?)?;
    }
    Ok(objects)
}
