ghost use Rattle.std.specs.Prelude.{◌≡◌, ◌≤◌, None, IfOk, IfSome, IsErrOf, take};
ghost use Rattle.fta_outside.specs.Outside.{Rose};

use crate::faults::one_more;
use crate::outside::{FileError, Files};
use plain_values::Word;
use std::alloc::Global;
use std::io::{ErrorKind, Read};
use std::{fs, rt};

/// The real files: they tell nothing of what they contain, and one count of faults serves all names.
///
/// A fault is a name that is no UTF-8, a file that can not be opened, or a read that fails.
#[derive(Drop)]
pub struct DiskFiles<'a, R: rt::Files> {
    runtime: &'a R,
    faults: u64,
}

impl<'a, R: rt::Files> DiskFiles<'a, R> {
    /// The files that this runtime reaches.
    pub fn new(runtime: &'a R) -> DiskFiles<'a, R> {
        DiskFiles { runtime, faults: 0 }
    }
}

impl<'a, R: rt::Files> Files for DiskFiles<'a, R> {
    ghost contents = { λ _ _. None };

    ghost faults = { λ files _. files.faults };

    // As the trait has it, where nothing is told; and what is read is the front of a file that was opened.
    fn read(&mut self, alloc: Global, name: &Word, most: usize) -> Result<Vec<u8>, FileError>
        ensures front { IfOk result (λ _. Unit {0}) }
        ensures failed { IsErrOf result FileError.Failed → Rose self.old.faults self.new.faults }
        ensures never_falls { self.old.faults ≤ self.new.faults }
        ensures opened { IfOk result (λ bytes. (file : R.File) × IfSome (R.File.remaining file) (λ whole. bytes.items ≡ take most whole)) }
    {
        let answer = read_file(self.runtime, alloc, name.items(), most);
        if let Err(FileError::Failed) = answer {
            self.faults = one_more(self.faults);
        }
        answer
    }
}

/// The first `most` bytes of the file of a name, or all of them where they are fewer.
fn read_file<R: rt::Files>(
    runtime: &R,
    alloc: Global,
    name: &[u8],
    most: usize,
) -> Result<Vec<u8>, FileError>
    ensures { IfOk result (λ bytes. (file : R.File) × IfSome (R.File.remaining file) (λ whole. bytes.items ≡ take most whole)) }
{
    let Ok(path) = std::str::from_utf8(name) else {
        return Err(FileError::Failed);
    };
    match fs::open(runtime, path) {
        Ok(file) => read_front(file, alloc, most),
        Err(_) => Err(FileError::Failed),
    }
}

/// The first `most` bytes that a reader gives, or all of them where they are fewer.
fn read_front<F: Read + Drop>(file: F, alloc: Global, most: usize) -> Result<Vec<u8>, FileError>
    ensures { IfOk result (λ bytes. IfSome (F.remaining file) (λ whole. bytes.items ≡ take most whole)) }
{
    let mut bytes = Vec::new(alloc);
    match file.take(most as u64).read_to_end(&mut bytes) {
        Ok(_) => Ok(bytes),
        Err(error) if error.kind() == ErrorKind::OutOfMemory => Err(FileError::Memory),
        Err(_) => Err(FileError::Failed),
    }
}
