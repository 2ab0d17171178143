//! Files: each path has a text, or none.
ghost use Rattle.std.specs.Prelude.{◌≡◌, Some, IfOk, IfSome, IsErrOf};
ghost use Rattle.std.specs.declared.hash.RandomState.{RandomState};
ghost use Rattle.snmp_io.specs.Files.{Holdings, MayHold, MayHoldNone};

use std::alloc::Global;
use std::hash::RandomState;
use thiserror::Error;

/// Why a file wasn't read.
#[derive(Clone, Copy, Debug, PartialEq, Eq, Error)]
pub enum FileFault {
    /// The path has no file, or a file that can't be read.
    #[error("Can't read the file.")]
    Unreadable,
    /// Memory ran out.
    #[error("Out of memory.")]
    Memory,
}

/// Files, which are read by their paths.
pub trait Files {
    /// What each path is known to hold: a text, which may be empty, or no text. `None` for a path
    /// that nothing is known about.
    ghost text_at: { Self → Holdings };

    /// Returns the text at `path`. Fails if there is none that can be read, or if memory runs out.
    fn read(&self, alloc: Global, path: &str) -> Result<Vec<u8>, FileFault>
        ensures text_held { IfOk result (λ text.
            MayHold (text_at self.now) path.now text.items) }
        ensures none_held { IsErrOf result FileFault.Unreadable
            → MayHoldNone (text_at self.now) path.now };

    /// The keys that `hash_key` can return; by default there are none.
    ghost keys: { Self → RandomState → Type 0 } = { λ _ _. ⊥ };

    /// Returns the key with which maps hash the names from these files, or `None` if the maps use
    /// a fixed key.
    fn hash_key(&self) -> Option<RandomState>
        ensures key_of_files { IfSome result (keys self.now) }
    {
        None
    }

    /// Returns whether the process exits right after the job that reads these files. If so, the
    /// job needn't free what it made of them: the exit returns all memory at once. By default it
    /// doesn't.
    fn ends_process(&self) -> bool {
        false
    }
}

/// Files, and a key: maps hash the names from the files with it. It is hard to choose names that a
/// map would store in one long chain without knowing the key.
#[derive(Drop)]
pub struct KeyedFiles<F> {
    /// The files without a key.
    pub files: F,
    /// The key, or `None` for the fixed one.
    pub key: Option<RandomState>,
    /// Whether the process exits right after the job that reads the files.
    pub ends_process: bool,
}

impl<F: Files> Files for KeyedFiles<F> {
    ghost text_at = { λ f. F.text_at f.files };

    ghost keys = { λ f key. f.key ≡ Some key };

    fn read(&self, alloc: Global, path: &str) -> Result<Vec<u8>, FileFault> {
        self.files.read(alloc, path)
    }

    fn hash_key(&self) -> Option<RandomState>
        ensures key_of_files { IfSome result (λ key. self.now.key ≡ Some key) }
        ensures own_key { result ≡ self.now.key }
    {
        self.key
    }

    fn ends_process(&self) -> bool
        ensures own_end { result ≡ self.now.ends_process }
    {
        self.ends_process
    }
}
