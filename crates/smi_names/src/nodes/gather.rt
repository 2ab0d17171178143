//! The nodes and warnings that modules have, in order of loading.
ghost use Rattle.std.specs.Prelude.{◌≡◌, List, [], ◌∷◌, ◌++◌, length, take, Some, OnOk, IfOk};
ghost use Rattle.std.specs.Prelude.{false, slice_get};
ghost use Rattle.smi_names.specs.meaning.Meaning.{module_named};
ghost use Rattle.smi_names.specs.nodes.Nodes.{is_loaded, GivesNodes, Gathers, Contributes};
ghost use Rattle.smi_names.specs.nodes.Gathered.{GrowsByDefinition, Adds, AreGathered};
ghost use Rattle.smi_text.specs.declared.trees.tree.Module.{Module};

use crate::chains::Resolution;
use crate::meaning::Names;
use crate::nodes::imports::add_import_warnings;
use crate::nodes::warning::Warning;
use smi_text::{Def, Module, Text};
use snmp_oid::StoredOid;
use std::alloc::{AllocError, Global};

/// What a node was made from: a root or a definition.
#[derive(Clone, Copy, Debug)]
pub enum Source {
    /// The node is a root: `ccitt`, `iso` or `joint-iso-ccitt` (RFC 2578, section 3.5). Holds its
    /// number, from 0 to 2.
    Root(u32),
    /// The node belongs to a definition. Holds the index of the module, and the index of the
    /// definition in it.
    Definition(usize, usize),
}

/// The nodes of modules, and the warnings about the modules.
#[derive(Drop)]
pub struct Gathered {
    /// What each node was made from, in order of loading: the roots first.
    pub sources: Vec<Source>,
    /// The identifier of each node.
    pub oids: Vec<StoredOid>,
    /// The warnings, in order of loading.
    pub warnings: Vec<Warning>,
}

/// Returns whether a module before `index` has the name of `module`.
#[tactic(auto, using(crate::proofs::Imports::is_loaded_before, crate::proofs::Imports::is_loaded_none, std::proofs::lemmas::Grind::common_steps))]
fn is_double<'a>(names: &Names<'a>, module: &'a Module, index: usize) -> bool
    ensures { result ≡ is_loaded (take index names.now.modules) «module».now.name.octets }
{
    match names.module_index(module.name.as_bytes()) {
        Some(first) => first < index,
        None => false,
    }
}

impl Gathered {
    /// Appends the node of `def`, a definition of `module`, if `resolution` is an identifier.
    /// Otherwise appends the warning that says why `def` has no identifier.
    fn add(
        &mut self,
        alloc: Global,
        module: &Module,
        def: &Def,
        source: Source,
        resolution: &Resolution,
    ) -> Result<(), AllocError>
        ensures added { OnOk result (GrowsByDefinition self.old self.new source «module».now def.now
            resolution.now) }
    {
        if let Resolution::Numbers(oid) = resolution {
            self.sources.push(source)?;
            self.oids.push(oid.copy(alloc)?)?;
            return Ok(());
        }
        let home = Text::from_slice(alloc, module.name.as_bytes())?;
        let label = Text::from_slice(alloc, def.label.as_bytes())?;
        self.warnings.push(match resolution {
            Resolution::Numbers(_) => unreachable!(),
            Resolution::Cycle => Warning::Cycle(home, label),
            Resolution::Unresolved => Warning::Unresolved(home, label),
            Resolution::TooLong => Warning::TooLong(home, label),
        })?;
        Ok(())
    }

    /// Appends the node of `def`, a definition of `module`, or the warning about it. Appends
    /// nothing if `def` has no identifier value. `at` has the index of the module, and the index
    /// of the definition in it. `from` is a guess at the index of the module's first name; what is
    /// appended doesn't depend on it.
    fn add_definition<'a>(
        &mut self,
        alloc: Global,
        names: &Names<'a>,
        module: &'a Module,
        def: &'a Def,
        at: (usize, usize),
        from: &mut usize,
    ) -> Result<(), AllocError>
        requires long { length self.old.sources.items ≡ length self.old.oids.items }
        requires there { slice_get names.now.modules at.0 ≡ Some «module».now }
        requires defined { slice_get «module».now.defs at.1 ≡ Some def.now }
        requires first { module_named names.now.modules «module».now.name.octets
            ≡ Some «module».now }
        ensures added { let modules = names.now.modules in OnOk result
            (Adds modules self.old self.new (GivesNodes modules «module».now def.now)) }
    {
        if def.identifier().is_none() {
            return Ok(());
        }
        let source = Source::Definition(at.0, at.1);
        match names.resolution_of(at, module, def.label.as_bytes(), from) {
            Some(resolution) => self.add(alloc, module, def, source, resolution),
            None => self.add(alloc, module, def, source, &Resolution::Unresolved),
        }
    }

    /// Appends the nodes of the definitions of `module` and the warnings about them, in order of
    /// the text. `index` is the index of the module.
    fn add_definitions<'a>(
        &mut self,
        alloc: Global,
        names: &Names<'a>,
        module: &'a Module,
        index: usize,
    ) -> Result<(), AllocError>
        requires long { length self.old.sources.items ≡ length self.old.oids.items }
        requires there { slice_get names.now.modules index ≡ Some «module».now }
        requires first { module_named names.now.modules «module».now.name.octets
            ≡ Some «module».now }
        ensures added { let modules = names.now.modules in OnOk result
            (Adds modules self.old self.new (Gathers modules «module».now «module».now.defs)) }
    {
        let defs = module.defs.as_slice();
        let mut from = 0;
        'defs: for (k, def) in defs.iter().enumerate() {
            self.add_definition(alloc, names, module, def, (index, k), &mut from)?;
        }
        Ok(())
    }

    /// Appends the warnings about the imports of `module`, and then the nodes of its definitions
    /// and the warnings about them. No module before `index`, the index of `module`, may have the
    /// name of `module`.
    fn add_loaded<'a>(
        &mut self,
        alloc: Global,
        names: &Names<'a>,
        module: &'a Module,
        index: usize,
    ) -> Result<(), AllocError>
        requires long { length self.old.sources.items ≡ length self.old.oids.items }
        requires there { slice_get names.now.modules index ≡ Some «module».now }
        requires first { is_loaded (take index names.now.modules) «module».now.name.octets ≡ false }
        ensures added { let modules = names.now.modules in OnOk result
            (Adds modules self.old self.new (Contributes modules
            (take index modules) «module».now)) }
    {
        add_import_warnings(alloc, &mut self.warnings, names, module)?;
        self.add_definitions(alloc, names, module, index)?;
        Ok(())
    }

    /// Appends the nodes of `module`, which is at `index`, and the warnings about it. If an
    /// earlier module has its name, appends only the warning that it is left out.
    fn add_module<'a>(
        &mut self,
        alloc: Global,
        names: &Names<'a>,
        module: &'a Module,
        index: usize,
    ) -> Result<(), AllocError>
        requires long { length self.old.sources.items ≡ length self.old.oids.items }
        requires there { slice_get names.now.modules index ≡ Some «module».now }
        ensures added { let modules = names.now.modules in OnOk result
            (Adds modules self.old self.new (Contributes modules
            (take index modules) «module».now)) }
    {
        if is_double(names, module, index) {
            let name = Text::from_slice(alloc, module.name.as_bytes())?;
            self.warnings.push(Warning::DoubleModule(name))?;
            return Ok(());
        }
        self.add_loaded(alloc, names, module, index)
    }

    /// Returns the nodes of the roots (RFC 2578, section 3.5), with memory reserved for `room`
    /// nodes.
    fn roots(alloc: Global, room: usize) -> Result<Gathered, AllocError>
        ensures { IfOk result (λ gathered. (ms : List Module) → AreGathered ms gathered []) }
    {
        let mut sources = Vec::with_capacity(alloc, room)?;
        let mut oids = Vec::with_capacity(alloc, room)?;
        let ccitt = StoredOid::join(alloc, &[0], &[])?;
        let iso = StoredOid::join(alloc, &[1], &[])?;
        let joint = StoredOid::join(alloc, &[2], &[])?;
        sources.push(Source::Root(0))?;
        oids.push(ccitt)?;
        sources.push(Source::Root(1))?;
        oids.push(iso)?;
        sources.push(Source::Root(2))?;
        oids.push(joint)?;
        Ok(Gathered {
            sources,
            oids,
            warnings: Vec::new(alloc),
        })
    }
}

/// Returns the nodes of the roots, followed by the nodes of each module in order, and the warnings
/// about the modules.
pub fn gather_nodes<'a>(
    alloc: Global,
    names: &Names<'a>,
    modules: &'a [Module],
) -> Result<Gathered, AllocError>
    // `names` must be the names of `modules`.
    requires { names.now.modules ≡ modules.now }
    ensures { IfOk result (λ gathered. AreGathered modules.now gathered modules.now) }
{
    // Reserves memory for a node for each resolution, since most resolutions belong to a node.
    let mut gathered = Gathered::roots(alloc, names.identifiers())?;
    'modules: for (i, module) in modules.iter().enumerate() {
        gathered.add_module(alloc, names, module, i)?;
    }
    Ok(gathered)
}
