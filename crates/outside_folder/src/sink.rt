// The trait of sinks, and the writing of a whole text.
ghost use Rattle.std.specs.Prelude.{◌≡◌, ◌≤◌, ◌<◌, ◌^◌, ◌-◌, ℕ, List, Option, Result, length, take, IfOk, OnOk, OnErr};
ghost use Rattle.outside_folder.specs.declared.sink.SinkFault.{SinkFault};
ghost use Rattle.outside_folder.specs.Sink.{Appends, AppendsPrefix, IsCount, IsCut, IsWritten};
ghost use Rattle.outside_folder.specs.Faults.{Rose};

use thiserror::Error;

/// Why a write took nothing.
#[derive(Clone, Copy, Debug, PartialEq, Eq, Error)]
pub enum SinkFault {
    /// The outside failed, and the count of faults rose.
    #[error("the output could not be written")]
    Failed,
}

/// An output for bytes. A write may take only some of them.
pub trait Sink {
    /// The bytes so far, where the sink is observable.
    ghost bytes: { Self → Option (List ℕ) };

    /// The number of failures so far: it rises when a write answers `Failed`, and never falls.
    ghost faults: { Self → ℕ };

    /// The possible results of a write: sink before, piece, result, sink after. By default any.
    ghost takes: { Self → List ℕ → Result ℕ SinkFault → Self → Type 0 } = { λ _ _ _ _. Unit {0} };

    /// Takes some bytes from the front of a piece, at least one of a non-empty piece, and returns their number.
    fn write(&mut self, piece: &[u8]) -> Result<usize, SinkFault>
        ensures observed { takes self.old piece.now result self.new }
        ensures count { IfOk result (IsCount piece.now) }
        ensures ok { IfOk result (λ n. Appends (bytes self.old) (bytes self.new) (take n piece.now)) }
        ensures err { OnErr result (bytes self.new ≡ bytes self.old) }

        ensures failed { OnErr result (Rose (faults self.old) (faults self.new)) }
        ensures still { OnOk result (faults self.new ≡ faults self.old) }
        ensures later { faults self.old ≤ faults self.new }
        ensures bounded { faults self.new ≤ 2 ^ 64 - 1 };
}

/// Writes the whole text, and stops at the first failure. After `Failed` a prefix of it was written.
pub fn write_all<S: Sink>(sink: &mut S, text: &[u8]) -> Result<(), SinkFault>
    ensures ok { OnOk result (Appends (S.bytes sink.old) (S.bytes sink.new) text.now) }
    ensures err { OnErr result (AppendsPrefix (S.bytes sink.old) (S.bytes sink.new) text.now) }

    // Each write is offered all that is left.
    ensures whole { OnOk result (IsWritten S.takes sink.old text.now sink.new) }
    ensures cut { OnErr result (IsCut S.takes sink.old text.now sink.new) }

    ensures failed { OnErr result (Rose (S.faults sink.old) (S.faults sink.new)) }
    ensures still { OnOk result (S.faults sink.new ≡ S.faults sink.old) }
    ensures later { S.faults sink.old ≤ S.faults sink.new }
{
    let mut written = 0;
    while written < text.len() {
        written += sink.write(&text[written..])?;
    }
    Ok(())
}
