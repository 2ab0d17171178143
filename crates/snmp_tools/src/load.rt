//! Files of SMIv2 modules: they are read and parsed whole, in the order of the arguments, and
//! their modules are loaded into one tree of names.
ghost use Rattle.std.specs.Prelude.{◌≡◌, IfErr, IfOk, List, OnErr, ℕ, OnOk};
ghost use Rattle.smi_text.specs.declared.trees.tree.Module.{Module};
ghost use Rattle.snmp_tools.specs.load.Files.{AreModulesOf, IsFilesRefusal, no_memory, texts};
ghost use Rattle.snmp_io.specs.{Files.Holds, Files.MayHold, Output.Stream};
ghost use Rattle.snmp_tools.specs.load.{Loaded.IsLoaded, Loaded.any_load, FaultText.refusal_of};

mod error;
mod read;
mod warned;

use crate::messages::Messages;
pub use error::FilesError;
pub(crate) use error::{at_line, unreadable_text};
pub use read::one_list_of_modules;
use read::read_modules;
use smi_tree::{NameHash, Tree};
use snmp_io::{Files, Output};
use std::alloc::Global;
use std::mem::forget;
use warned::warning_lines;

/// Loads the tree of names from the module files at `paths` (RFC 2578, section 3), and writes the
/// line of each warning to `err`, in order. The tree hashes names with the key of the files, if
/// they have one.
///
/// Fails at the first file that can't be read or whose text has a fault anywhere, or if memory
/// runs out. Then nothing is written. If a write to `err` fails, nothing else changes.
pub fn load_tree<'a, F: Files, E: Output>(
    alloc: Global,
    files: &F,
    paths: &[&'a str],
    err: &mut E,
) -> Result<Tree, FilesError<'a>>
    ensures loaded { IfOk result (λ tree. IsLoaded (MayHold (F.text_at files.now))
        (texts paths.now) tree (E.stream err.old) (E.stream err.new)) }
    ensures refused { IfErr result (λ e.
        IsFilesRefusal (F.text_at files.now) (texts paths.now) (refusal_of e)) }
    // If all the files are known to hold modules, they are loaded, unless memory runs out.
    ensures only { (ms : List Module)
        → AreModulesOf (Holds (F.text_at files.now)) (texts paths.now) ms
        → IfErr result (λ e. refusal_of e ≡ no_memory) }
    // After an error nothing was written.
    ensures untold { OnErr result (E.stream err.new ≡ E.stream err.old) }
{
    let modules = read_modules(alloc, files, paths)?;
    let key = NameHash::of_key(files.hash_key());
    let (tree, warnings) = Tree::load_with_key(alloc, key, modules)?.into_parts();
    let lines = warning_lines(alloc, &warnings)?;
    err.tell(&lines);
    Ok(tree)
}

/// Drops a tree that a job made of `files`. If the process exits right after the job, leaves the
/// tree's memory to the exit: to free it part by part takes a twentieth of the time of a command
/// that loads modules.
pub(crate) fn discard<F: Files>(files: &F, tree: Tree) {
    if files.ends_process() {
        forget(tree);
    }
}

/// Files that a job loads its modules from. Warnings about the modules are written to the job's
/// error output, of the type `E`. Implemented for all [`Files`].
///
/// A job is generic in this trait and in `E`, so that it can't load in another way. It promises
/// that `loads` relates the states of its error output, and only `load` ensures this. Its error
/// output is the only value of the type `E` that it has, so it can't pass another to `load`.
pub(crate) trait ModuleLoader<E: Messages>: Files {
    /// `loads files paths before after`: how a load of the module files at `paths` relates the
    /// states of the error output before and after it.
    ghost loads: { Self → List (List ℕ) → Stream → Stream → Type 0 };

    /// Loads the tree of names from module files, as [`load_tree`] does.
    fn load<'a>(
        &self,
        alloc: Global,
        paths: &[&'a str],
        err: &mut E,
    ) -> Result<Tree, FilesError<'a>>
        ensures loaded { IfOk result (λ tree. IsLoaded (MayHold (Self.text_at self.now))
            (texts paths.now) tree (E.stream err.old) (E.stream err.new)) }
        // No other clause ensures `loads`, which a job promises of its error output. So a job that
        // acts before it loads, or that writes the warnings by itself, doesn't meet its contract.
        ensures loads { OnOk result (
            loads self.now (texts paths.now) (E.stream err.old) (E.stream err.new)) }
        ensures refused { IfErr result (λ e.
            IsFilesRefusal (Self.text_at self.now) (texts paths.now) (refusal_of e)) }
        ensures only { (ms : List Module)
            → AreModulesOf (Holds (Self.text_at self.now)) (texts paths.now) ms
            → IfErr result (λ e. refusal_of e ≡ no_memory) }
        ensures untold { OnErr result (E.stream err.new ≡ E.stream err.old) };
}

impl<F: Files, E: Output> ModuleLoader<E> for F {
    ghost loads = { λ _. any_load };

    fn load<'a>(
        &self,
        alloc: Global,
        paths: &[&'a str],
        err: &mut E,
    ) -> Result<Tree, FilesError<'a>> {
        load_tree(alloc, self, paths, err)
    }
}
