// A sink in memory.
ghost use Rattle.std.specs.Prelude.{◌≡◌, ◌≤◌, ◌<◌, ◌^◌, ◌-◌, ◌↔◌, ◌⊎◌, true, [], Some, length, take, vec_len, vec_capacity, IfOk, IsErr, OnOk, OnErr};
ghost use Rattle.outside_folder.specs.Sink.{Appends, IsCount};
ghost use Rattle.outside_folder.specs.Faults.{Rose, next_count};

use crate::mem_folder::is_among;
use crate::{Sink, SinkFault};
use plan_types::{List, NoMemory};
use std::alloc::Global;

/// A sink in memory for `room` bytes. A write takes at most `most` bytes. The writes with the numbers in `fail_at`
/// fail, counted from 1.
#[derive(Drop)]
pub struct MemSink {
    written: Vec<u8>,
    room: usize,
    most: usize,
    fail_at: List<u64>,
    writes: u64,
    faults: u64,
    ghost has_room: { room ≤ vec_capacity written },
    ghost within: { vec_len written ≤ room },
    ghost in_range: { faults < 2 ^ 64 },
}

impl MemSink {
    ghost use Rattle.outside_folder.specs.MemSink.{written_bytes, sink_faults, sink_fail_at, sink_writes, sink_room, sink_most};

    /// An empty sink. It reserves its room first.
    pub fn new(
        alloc: Global,
        room: usize,
        most: usize,
        fail_at: List<u64>,
    ) -> Result<MemSink, NoMemory>
        ensures empty { IfOk result (λ sink. written_bytes sink ≡ []) }
        ensures room { IfOk result (λ sink. sink_room sink ≡ room) }
        ensures most { IfOk result (λ sink. sink_most sink ≡ most) }
        ensures fail_at { IfOk result (λ sink. sink_fail_at sink ≡ fail_at) }
        ensures no_writes { IfOk result (λ sink. sink_writes sink ≡ 0) }
        ensures no_faults { IfOk result (λ sink. sink_faults sink ≡ 0) }
    {
        let written = Vec::with_capacity(alloc, room)?;
        Ok(MemSink {
            written,
            room,
            most,
            fail_at,
            writes: 0,
            faults: 0,
        })
    }

    /// The bytes written so far.
    pub fn bytes(&self) -> &[u8]
        ensures { result.now ≡ written_bytes self.now }
    {
        self.written.as_slice()
    }
}

impl MemSink {
    ghost use Rattle.outside_folder.specs.MemSink.{written_bytes, sink_faults, sink_writes, number_fails, keeps};

    // Counts a write. True if it is one that is to fail.
    fn fails(&mut self) -> bool
        ensures answer { result ≡ number_fails self.old }
        ensures counts { sink_writes self.new ≡ next_count (sink_writes self.old) }
        ensures keeps { keeps self.old self.new }
        ensures faults { sink_faults self.new ≡ sink_faults self.old }
    {
        if self.writes == u64::MAX {
            return false;
        }
        self.writes += 1;
        is_among(self.fail_at.as_slice(), self.writes)
    }

    fn failed(&mut self) -> SinkFault
        ensures rose { Rose (sink_faults self.old) (sink_faults self.new) }
        ensures bounded { sink_faults self.new ≤ 2 ^ 64 - 1 }
        ensures writes { sink_writes self.new ≡ sink_writes self.old }
        ensures keeps { keeps self.old self.new }
    {
        self.faults = self.faults.saturating_add(1);
        SinkFault::Failed
    }
}

impl Sink for MemSink {
    ghost use Rattle.outside_folder.specs.MemSink.{written_bytes, sink_faults, sink_fail_at, sink_writes, sink_room, sink_most, number_fails, taken_of};

    ghost bytes = { λ sink. Some (written_bytes sink) };

    ghost faults = { sink_faults };

    fn write(&mut self, piece: &[u8]) -> Result<usize, SinkFault>
        ensures count { IfOk result (IsCount piece.now) }
        ensures ok { IfOk result
            (λ n. Appends (Some (written_bytes self.old)) (Some (written_bytes self.new)) (take n piece.now)) }
        ensures err { OnErr result (Some (written_bytes self.new) ≡ Some (written_bytes self.old)) }

        // A write takes as much as it can. It fails if it is to fail, or can take nothing of a non-empty piece.
        ensures taken { IfOk result (λ n. n ≡ taken_of self.old piece.now) }
        ensures fails { IsErr result
            ↔ ((number_fails self.old ≡ true) ⊎ ((0 < length piece.now) × (taken_of self.old piece.now ≡ 0))) }
        ensures counts { sink_writes self.new ≡ next_count (sink_writes self.old) }
        ensures room { sink_room self.new ≡ sink_room self.old }
        ensures most { sink_most self.new ≡ sink_most self.old }
        ensures fail_at { sink_fail_at self.new ≡ sink_fail_at self.old }

        ensures failed { OnErr result (Rose (sink_faults self.old) (sink_faults self.new)) }
        ensures still { OnOk result (sink_faults self.new ≡ sink_faults self.old) }
        ensures later { sink_faults self.old ≤ sink_faults self.new }
        ensures bounded { sink_faults self.new ≤ 2 ^ 64 - 1 }
    {
        let taken = piece
            .len()
            .min(self.most)
            .min(self.room - self.written.len());
        if self.fails() {
            return Err(self.failed());
        }
        if taken == 0 && !piece.is_empty() {
            return Err(self.failed());
        }
        self.written.extend_from_slice(&piece[..taken]).unwrap();
        Ok(taken)
    }
}
