ghost use Rattle.std.specs.Prelude.{◌≡◌, ◌≤◌, ◌<◌, ◌-◌, ◌++◌, ◌⊎◌, ◌↔◌, [], length, take, min, Contains, IsErr, IsTrue, IfOk, is_err, Some};
ghost use Rattle.std.specs.Io.KnownBytes.{WriteAppends};
ghost use Rattle.cs_base.specs.Causes.{counted, HasCause};
ghost use Rattle.cs_base.specs.Memory.{write_called};

use crate::failed::Failed;
use crate::sink::Sink;
use std::alloc::{AllocError, Global};
use std::marker::Model;

/// A sink in memory, for tests: it takes at most `most` bytes at a time and `room` bytes in all, and chosen writes fail.
#[derive(Debug, Drop)]
pub struct MemSink {
    bytes: Vec<u8>,
    room: usize,
    most: usize,
    fails: Vec<u64>,
    calls: u64,
    faults: u64,
}

impl Model for MemSink {
    ghost use Rattle.std.specs.Prelude.{◌≤◌, ◌<◌, vec_len, vec_capacity};
    ghost use Rattle.cs_base.specs.Memory.{MemoryWrites};

    ghost Value = { MemoryWrites };

    ghost view = { λ s. record { bytes = s.bytes.items; room = s.room; most = s.most; fails = s.fails.items; calls = s.calls; faults = s.faults } };

    ghost invariant = { λ s. (vec_len s.bytes ≤ s.room) × (s.room ≤ vec_capacity s.bytes) × (0 < s.most) };
}

impl MemSink {
    /// Takes `room` bytes of memory now, and none later. Its writes are numbered from 1 (the number stays at the
    /// greatest `u64`); a write fails exactly where its number is in `fails` or the room is used up.
    pub fn new(
        alloc: Global,
        room: usize,
        most: usize,
        fails: Vec<u64>,
    ) -> Result<MemSink, AllocError>
        requires { 0 < most }
        ensures { IfOk result (λ s. s ≡ record { bytes = []; room = room; most = most; fails = fails.items; calls = 0; faults = 0 }) }
    {
        Ok(MemSink {
            bytes: Vec::with_capacity(alloc, room)?,
            room,
            most,
            fails,
            calls: 0,
            faults: 0,
        })
    }

    /// The bytes written.
    pub fn bytes(&self) -> &[u8]
        ensures { result.now ≡ self.now.bytes }
    {
        self.bytes.as_slice()
    }
}

impl Sink for MemSink {
    ghost written = { λ s. Some s.bytes };

    ghost faults = { λ s. s.faults };

    fn write(&mut self, bytes: &[u8]) -> Result<usize, Failed>
        requires { 0 < length bytes.now }
        ensures some { IfOk result (λ n. 0 < n) }
        ensures bound { IfOk result (λ n. n ≤ length bytes.now) }
        ensures appended { WriteAppends (Some self.old.bytes) (Some self.new.bytes) result bytes.now }
        ensures cause { HasCause self.old.faults self.new.faults result }
        ensures fails { IsErr result ↔ (Contains self.old.fails (counted self.old.calls) ⊎ (self.old.room ≡ length self.old.bytes)) }
        ensures counts { self.new ≡ write_called self.old (is_err result) self.new.bytes }
        ensures count { IfOk result (λ n. n ≡ min (min self.old.most (self.old.room - length self.old.bytes)) (length bytes.now)) }
    {
        self.calls = self.calls.saturating_add(1);
        let left = self.room - self.bytes.len();
        if left == 0 || self.fails.contains(&self.calls) {
            self.faults = self.faults.saturating_add(1);
            return Err(Failed);
        }
        let count = bytes.len().min(self.most).min(left);
        self.bytes.extend_from_slice(&bytes[..count]).unwrap();
        Ok(count)
    }
}
