// Standard output isn't observable. The sink's results are proved from a writer's answers, for any writer.
ghost use Rattle.std.specs.Prelude.{◌≡◌, ◌≤◌, ◌<◌, ◌^◌, ◌-◌, take, IfOk, OnOk, OnErr};
ghost use Rattle.std.specs.Io.KnownBytes as known;
ghost use Rattle.outside_folder.specs.Sink.{Appends, IsCount, Takes, untold};
ghost use Rattle.outside_folder.specs.Faults.{Rose};

use crate::{Sink, SinkFault, WriterCalls};
use std::io::{self, Printer};

/// A writer, with a count of its faults that stays at 2^64 - 1.
#[derive(Drop)]
pub struct WriterSink<W> {
    writer: W,
    faults: u64,
    ghost in_range: { faults < 2 ^ 64 },
}

/// Standard output.
pub type RealSink<'a, R> = WriterSink<Printer<'a, R>>;

impl<'a, R: Print> WriterSink<Printer<'a, R>> {
    pub fn new(rt: &'a R) -> RealSink<'a, R>
        ensures no_faults { result.faults ≡ 0 }
    {
        WriterSink::over(io::writer(rt))
    }
}

impl<W> WriterSink<W> {
    /// A writer that hasn't failed.
    pub fn over(writer: W) -> WriterSink<W>
        ensures writer { result.writer ≡ writer }
        ensures no_faults { result.faults ≡ 0 }
    {
        WriterSink { writer, faults: 0 }
    }
}

impl<W: WriterCalls> Sink for WriterSink<W> {
    ghost bytes = { λ _. untold };

    ghost faults = { λ sink. sink.faults };

    ghost takes = { λ old piece result new. Takes W.writes old.writer piece result new.writer };

    fn write(&mut self, piece: &[u8]) -> Result<usize, SinkFault>
        ensures count { IfOk result (IsCount piece.now) }
        ensures ok { IfOk result (λ n. Appends untold untold (take n piece.now)) }
        ensures err { OnErr result (untold ≡ untold) }

        // The writer is called once. An error is a failure, and so is to take nothing of a non-empty piece.
        ensures observed { Takes W.writes self.old.writer piece.now result self.new.writer }

        // Where the writer's contents are known, exactly the taken bytes are appended, and none after a failure.
        ensures taken { IfOk result
            (λ n. known.Appends (W.contents self.old.writer) (W.contents self.new.writer) (take n piece.now)) }
        ensures kept { OnErr result (known.Keeps (W.contents self.old.writer) (W.contents self.new.writer)) }

        // Only a write that answers `Failed` changes the count.
        ensures failed { OnErr result (Rose self.old.faults self.new.faults) }
        ensures still { OnOk result (self.new.faults ≡ self.old.faults) }
        ensures later { self.old.faults ≤ self.new.faults }
        ensures bounded { self.new.faults ≤ 2 ^ 64 - 1 }
    {
        let taken = taken_by(&mut self.writer, piece);
        if taken.is_err() {
            self.faults = self.faults.saturating_add(1);
        }
        taken
    }
}

// Writes some bytes from the front of a piece, and returns their number. To take nothing of a non-empty piece is a
// failure.
fn taken_by<W: WriterCalls>(writer: &mut W, piece: &[u8]) -> Result<usize, SinkFault>
    ensures count { IfOk result (IsCount piece.now) }
    ensures observed { Takes W.writes writer.old piece.now result writer.new }
    ensures ok { IfOk result (λ n. known.Appends (W.contents writer.old) (W.contents writer.new) (take n piece.now)) }
    ensures err { OnErr result (known.Keeps (W.contents writer.old) (W.contents writer.new)) }
{
    match writer.write_some(piece) {
        Ok(taken) if 0 < taken || piece.is_empty() => Ok(taken),
        _ => Err(SinkFault::Failed),
    }
}
