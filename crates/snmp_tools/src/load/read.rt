//! Reads module files.
ghost use Rattle.std.specs.Prelude.{◌≡◌, ◌⊎◌, ℕ, List, IfErr, IfOk};
ghost use Rattle.snmp_tools.specs.load.Files.{texts, AreModulesIn, AreModulesOf, FileFails};
ghost use Rattle.snmp_tools.specs.load.Files.{IsFilesRefusal, no_memory};
ghost use Rattle.smi_text.specs.declared.trees.tree.Module.{Module as Tree};
ghost use Rattle.snmp_io.specs.Files.{Holdings, Holds, MayHold};
ghost use Rattle.snmp_tools.specs.load.FaultText.{refusal_of};

use crate::load::error::FilesError;
use smi_text::{Module, ParseError, one_module_list, one_token_list, parse_modules};
use snmp_io::{FileFault, Files};
use std::alloc::Global;

/// Returns the modules of the files at `paths` (RFC 2578, section 3), in order. Fails at the first
/// file that can't be read or whose text has a fault anywhere, or if memory runs out.
pub fn read_modules<'a, F: Files>(
    alloc: Global,
    files: &F,
    paths: &[&'a str],
) -> Result<Vec<Module>, FilesError<'a>>
    ensures read { IfOk result (λ ms.
        AreModulesOf (MayHold (F.text_at files.now)) (texts paths.now) ms.items) }
    ensures refused { IfErr result (λ e.
        IsFilesRefusal (F.text_at files.now) (texts paths.now) (refusal_of e)) }
    // If all the files are known to hold modules, they are read, unless memory runs out.
    ensures only { (ms : List Tree)
        → AreModulesOf (Holds (F.text_at files.now)) (texts paths.now) ms
        → IfErr result (λ e. refusal_of e ≡ no_memory) }
{
    let mut modules = Vec::new(alloc);
    'paths: for path in paths {
        let mut found = modules_in(alloc, files, path)?;
        modules.append(&mut found)?;
    }
    Ok(modules)
}

// Returns the modules of the file at `path`.
fn modules_in<'a, F: Files>(
    alloc: Global,
    files: &F,
    path: &'a str,
) -> Result<Vec<Module>, FilesError<'a>>
    ensures read { IfOk result (λ ms.
        AreModulesIn (MayHold (F.text_at files.now)) path.now ms.items) }
    ensures refused { IfErr result (λ e. (refusal_of e ≡ no_memory)
        ⊎ FileFails (F.text_at files.now) path.now (refusal_of e)) }
    ensures only { (ms : List Tree) → AreModulesIn (Holds (F.text_at files.now)) path.now ms
        → IfErr result (λ e. refusal_of e ≡ no_memory) }
{
    let text = match files.read(alloc, path) {
        Ok(text) => text,
        Err(FileFault::Unreadable) => return Err(FilesError::Unreadable(path)),
        Err(FileFault::Memory) => return Err(FilesError::Memory),
    };
    match parse_modules(alloc, &text) {
        Ok(modules) => Ok(modules),
        Err(ParseError::Memory) => Err(FilesError::Memory),
        Err(fault) => Err(FilesError::Text(path, fault)),
    }
}

/// If it is known that files hold the modules `ms`, they can't hold other modules.
///
/// A law: the call does nothing, and its caller may use what it ensures.
#[tactic(auto, using(crate::proofs::ModuleLists::one_list))]
pub fn one_list_of_modules()
    ensures { (files : Holdings) (paths : List (List ℕ)) (ms ns : List Tree)
        → AreModulesOf (Holds files) paths ms → AreModulesOf (MayHold files) paths ns → ms ≡ ns }
{
    one_token_list();
    one_module_list();
}
