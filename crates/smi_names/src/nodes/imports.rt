//! The warnings about the imports of a module.
ghost use Rattle.std.specs.{Prelude.◌≡◌, Prelude.◌++◌, Prelude.OnOk, List.flat_map};
ghost use Rattle.smi_names.specs.{meaning.Meaning.module_named, meaning.Scopes.decision_of};
ghost use Rattle.smi_names.specs.nodes.Imports as imports;

use crate::meaning::{Decider, Names, TypeBase, import_clauses};
use crate::nodes::warning::Warning;
use smi_text::{Import, Module, Text, TokenText, is_macro};
use std::alloc::{AllocError, Global};

/// Returns whether `decider` is a definition or an import, and not the list of roots.
fn is_stated(decider: Decider<'_>) -> bool
    ensures { result ≡ imports.is_stated (decision_of decider.entry) }
{
    !matches!(decider, Decider::Root(_))
}

/// Returns whether the module named `home` is loaded, and defines or imports `name`.
fn has_name<'a>(names: &Names<'a>, home: &'a [u8], name: &'a [u8]) -> bool
    ensures { let source = module_named names.now.modules home.now in
        result ≡ imports.defines_or_imports source name.now }
{
    match names.decider(home, name) {
        Some(decider) => is_stated(decider),
        None => false,
    }
}

/// Adds the warning about a symbol of a FROM clause, if there is one.
fn add_symbol_warnings<'a>(
    alloc: Global,
    warnings: &mut Vec<Warning>,
    names: &Names<'a>,
    module: &'a Module,
    import: &'a Import,
    symbol: &'a TokenText,
) -> Result<(), AllocError>
    ensures { let from = import.now.source.octets in
        let source = module_named names.now.modules from in
        OnOk result (warnings.new.items ≡ warnings.old.items
        ++ imports.symbol_warnings source «module».now.name.octets from symbol.now) }
{
    let from = import.source.as_bytes();
    let name = symbol.text.as_bytes();
    if is_macro(name) || TypeBase::from_name(name).is_some() || has_name(names, from, name) {
        return Ok(());
    }
    let home = Text::from_slice(alloc, module.name.as_bytes())?;
    warnings.push(Warning::MissingImport(
        home,
        Text::from_slice(alloc, name)?,
        Text::from_slice(alloc, from)?,
    ))?;
    Ok(())
}

/// Adds the warnings about the symbols of a FROM clause, one after the other.
fn add_symbols_warnings<'a>(
    alloc: Global,
    warnings: &mut Vec<Warning>,
    names: &Names<'a>,
    module: &'a Module,
    import: &'a Import,
) -> Result<(), AllocError>
    ensures { let from = import.now.source.octets in
        let source = module_named names.now.modules from in
        OnOk result (warnings.new.items ≡ warnings.old.items
        ++ flat_map (imports.symbol_warnings source «module».now.name.octets from)
        import.now.symbols) }
{
    let symbols = import.symbols.as_slice();
    'symbols: for symbol in symbols {
        add_symbol_warnings(alloc, warnings, names, module, import, symbol)?;
    }
    Ok(())
}

/// Adds the warnings about a FROM clause.
fn add_clause_warnings<'a>(
    alloc: Global,
    warnings: &mut Vec<Warning>,
    names: &Names<'a>,
    module: &'a Module,
    import: &'a Import,
) -> Result<(), AllocError>
    ensures { OnOk result (warnings.new.items ≡ warnings.old.items
        ++ imports.clause_warnings names.now.modules «module».now.name.octets import.now) }
{
    if names.is_loaded(import.source.as_bytes()) {
        return add_symbols_warnings(alloc, warnings, names, module, import);
    }
    let home = Text::from_slice(alloc, module.name.as_bytes())?;
    let source = Text::from_slice(alloc, import.source.as_bytes())?;
    warnings.push(Warning::MissingModule(home, source))?;
    Ok(())
}

/// Adds the warnings about the imports of a module, in the order of its text.
pub(crate) fn add_import_warnings<'a>(
    alloc: Global,
    warnings: &mut Vec<Warning>,
    names: &Names<'a>,
    module: &'a Module,
) -> Result<(), AllocError>
    ensures { OnOk result (warnings.new.items ≡ warnings.old.items
        ++ imports.import_warnings names.now.modules «module».now) }
{
    let clauses = import_clauses(module);
    'clauses: for import in clauses {
        add_clause_warnings(alloc, warnings, names, module, import)?;
    }
    Ok(())
}
