ghost use Rattle.std.specs.Prelude.{◌≡◌, ◌≤◌, ◌<◌, true, IfOk, MatchResult, is_none, length, take};
ghost use Rattle.std.specs.Io.KnownBytes.{Appends, Keeps};

use crate::faults::one_more;
use crate::outside::{Sink, SinkFailed};
use std::io::Write;

/// A real stream as a sink: it tells what the stream tells of what it took, and counts each write that failed or took nothing.
#[derive(Drop)]
pub struct StdSink<W: Write + Drop> {
    stream: W,
    faults: u64,
    /// A stream that tells nothing never does.
    ghost steady: { (before after : W) → is_none (W.contents before) ≡ true → is_none (W.contents after) ≡ true },
}

impl<W: Write + Drop> StdSink<W> {
    /// The sink that writes to this stream.
    pub fn new(stream: W) -> StdSink<W>
        requires { (before after : W) → is_none (W.contents before) ≡ true → is_none (W.contents after) ≡ true }
        ensures { result.stream ≡ stream }
    {
        StdSink { stream, faults: 0 }
    }

    /// The stream.
    pub fn into_stream(self) -> W
        ensures { result ≡ self.stream }
    {
        let StdSink { stream, faults: _ } = self;
        stream
    }
}

impl<W: Write + Drop> Sink for StdSink<W> {
    ghost seen = { λ sink. record { taken = W.contents sink.stream; faults = sink.faults } };

    #[tactic(auto, using(crate::proofs::Adding::added, crate::proofs::Adding::kept))]
    fn write(&mut self, piece: &[u8]) -> Result<usize, SinkFailed> {
        let answer = write_some(&mut self.stream, piece);
        if answer.is_err() {
            self.faults = one_more(self.faults);
        }
        answer
    }
}

/// Writes some bytes of the front of the piece, at least one where there is one; and none where it fails.
fn write_some<W: Write>(stream: &mut W, piece: &[u8]) -> Result<usize, SinkFailed>
    ensures within { IfOk result (λ count. count ≤ length piece.now) }
    ensures moves { IfOk result (λ count. 0 < length piece.now → 0 < count) }
    ensures bytes { MatchResult result (λ count. Appends (W.contents stream.old) (W.contents stream.new) (take count piece.now)) (λ _. Keeps (W.contents stream.old) (W.contents stream.new)) }
{
    match stream.write(piece) {
        Ok(count) if count > 0 || piece.is_empty() => Ok(count),
        _ => Err(SinkFailed),
    }
}
