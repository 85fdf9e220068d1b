//! A sink for what is not wanted.

ghost use Rattle.explained_calls.specs.inner.Calls.{closed};

use fta_outside::{Sink, SinkFailed};

/// A sink that takes nothing: each write fails.
#[derive(Drop)]
pub(crate) struct Closed {}

impl Sink for Closed {
    ghost seen = { λ _. closed };

    fn write(&mut self, _piece: &[u8]) -> Result<usize, SinkFailed> {
        Err(SinkFailed)
    }
}
