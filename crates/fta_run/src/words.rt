ghost use Rattle.phases.specs.inner.Meets.{IsMemory, MeetsBut};
ghost use Rattle.phases.specs.Phases.{finds};
ghost use Rattle.phases.specs.declared.status.Status.TheVariants.{Usage};
ghost use Rattle.fta_words.specs.inner.Shown.{request_shown};
ghost use Rattle.fta_run.specs.Words.{IsRequest};

use fta_words::{Request, WordsFault};
use phases::Status;
use plain_values::{Name, Word};
use std::alloc::Global;

/// The request that the words give, where the reports have these names; Usage where they give none.
pub fn request_of(alloc: Global, words: &[Word], names: &[Name]) -> Result<Request, Status>
    ensures { MeetsBut IsMemory request_shown (finds (IsRequest names.now words.now) Usage) result }
{
    match Request::read(alloc, words, names) {
        Ok(asked) => Ok(asked),
        Err(WordsFault::Usage) => Err(Status::Usage),
        Err(WordsFault::Memory) => Err(Status::Memory),
    }
}
