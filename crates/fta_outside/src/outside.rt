ghost use Rattle.std.specs.Prelude.{◌≡◌, ℕ, ◌≤◌, ◌<◌, List, Option, IfOk, OnErr, IfSome, IsErrOf, length, take};
ghost use Rattle.fta_outside.specs.Outside.{Rose, Seen, Took};
ghost use Rattle.fta_outside.specs.inner.Outside.{Writes};
ghost use Rattle.fta_outside.specs.declared.outside.FileError.TheVariants.{Memory};

use plain_values::{List, Word};
use std::alloc::{AllocError, AllocFailed, Global};
use thiserror::Error;

/// Why a file was not read.
#[derive(Clone, Copy, Debug, PartialEq, Eq, Error)]
pub enum FileError {
    /// The file is missing or could not be read; the count of faults of its name rose.
    #[error("read failed")]
    Failed,
    /// Memory was wanting.
    #[error("out of memory")]
    Memory,
}

impl From<AllocError> for FileError {
    ghost from_gives = { λ _ e. e ≡ Memory };

    fn from(_error: AllocError) -> FileError {
        FileError::Memory
    }
}

impl<T: Drop> From<AllocFailed<T>> for FileError {
    ghost from_gives = { λ _ e. e ≡ Memory };

    fn from(_error: AllocFailed<T>) -> FileError {
        FileError::Memory
    }
}

/// What files a name stands for, and how they are read.
pub trait Files {
    /// What the file of a name contains, where that is told.
    ghost contents: { Self → List ℕ → Option (List ℕ) };

    /// How often a read of the name failed. One count may serve all names.
    ghost faults: { Self → List ℕ → ℕ };

    /// The first `most` bytes of the file of this name, or all of it where it is shorter.
    ///
    /// `Failed` comes only where the count of faults of the name rose; a missing file is such a fault.
    fn read(&mut self, alloc: Global, name: &Word, most: usize) -> Result<Vec<u8>, FileError>
        ensures front { IfOk result (λ bytes. IfSome (contents self.old name.now) (λ whole. bytes.items ≡ take most whole)) }
        ensures failed { IsErrOf result FileError.Failed → Rose (faults self.old name.now) (faults self.new name.now) }
        ensures kept { (other : List ℕ) → contents self.new other ≡ contents self.old other }
        ensures never_falls { (other : List ℕ) → faults self.old other ≤ faults self.new other };
}

/// A write failed; the count of faults of the sink rose, and it took nothing.
#[derive(Clone, Copy, Debug, PartialEq, Eq)]
pub struct SinkFailed;

/// What takes the text that the tool writes.
pub trait Sink {
    /// What is seen of it: the bytes that it took so far, where that is told, and how often a write failed.
    ghost seen: { Self → Seen };

    /// Writes some bytes of the front of the piece, at least one where there is one, and says how many.
    ///
    /// A fault comes only where the count of faults rose.
    fn write(&mut self, piece: &[u8]) -> Result<usize, SinkFailed>
        ensures within { IfOk result (λ count. count ≤ length piece.now) }
        ensures moves { IfOk result (λ count. 0 < length piece.now → 0 < count) }
        ensures adds { IfOk result (λ count. Took (take count piece.now) (seen self.old) (seen self.new)) }
        ensures failed { OnErr result (Rose (seen self.old).faults (seen self.new).faults) }
        ensures unchanged { OnErr result ((seen self.new).taken ≡ (seen self.old).taken) }
        ensures never_falls { (seen self.old).faults ≤ (seen self.new).faults };
}

/// Writes all the bytes. After a fault a prefix of them was written.
pub fn write_all<S: Sink>(sink: &mut S, bytes: &[u8]) -> Result<(), SinkFailed>
    ensures { Writes bytes.now result (S.seen sink.old) (S.seen sink.new) }
{
    let mut at = 0;
    while at < bytes.len() {
        at += sink.write(&bytes[at..])?;
    }
    Ok(())
}
