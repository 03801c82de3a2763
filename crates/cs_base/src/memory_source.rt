ghost use Rattle.std.specs.Prelude.{◌≡◌, ◌≤◌, ◌<◌, ◌++◌, ◌↔◌, [], drop, length, take, min, Contains, IsErr, IsTrue, IfOk, is_err, Some, None, IsFalse};
ghost use Rattle.std.specs.Io.{ReadsAtMost};
ghost use Rattle.std.specs.Io.KnownBytes.{ReadConsumes};
ghost use Rattle.cs_base.specs.Causes.{counted, HasCause};
ghost use Rattle.cs_base.specs.Memory.{read_called};

use crate::failed::Failed;
use crate::source::Source;
use std::marker::Model;

/// A source over bytes in memory, for tests, which are the same for each name: it gives at most `most` bytes at a time, and chosen calls of it fail.
#[derive(Debug, Drop)]
pub struct MemSource {
    bytes: Vec<u8>,
    at: usize,
    most: usize,
    fails: Vec<u64>,
    calls: u64,
    faults: u64,
}

impl Model for MemSource {
    ghost use Rattle.std.specs.Prelude.{◌≤◌, ◌<◌, drop, vec_len};
    ghost use Rattle.cs_base.specs.Memory.{MemoryReads};

    ghost Value = { MemoryReads };

    ghost view = { λ s. record { left = drop s.at s.bytes.items; most = s.most; fails = s.fails.items; calls = s.calls; faults = s.faults } };

    ghost invariant = { λ s. (s.at ≤ vec_len s.bytes) × (0 < s.most) };
}

impl MemSource {
    /// Its calls of `begin` and `read` are numbered from 1 (the number stays at the greatest `u64`); those whose number
    /// is in `fails` fail. Takes no memory.
    pub fn new(bytes: Vec<u8>, most: usize, fails: Vec<u64>) -> MemSource
        requires { 0 < most }
        ensures { result ≡ record { left = bytes.items; most = most; fails = fails.items; calls = 0; faults = 0 } }
    {
        MemSource {
            bytes,
            at: 0,
            most,
            fails,
            calls: 0,
            faults: 0,
        }
    }

    /// Counts this call, and says whether it fails.
    fn fails_now(&mut self) -> bool
        ensures fails { IsTrue result ↔ Contains self.old.fails (counted self.old.calls) }
        ensures counts { self.new ≡ read_called self.old result self.old.left }
        ensures later { self.old.faults ≤ self.new.faults }
        ensures rose { IsTrue result → self.new.faults ≡ counted self.old.faults }
        ensures kept { IsFalse result → self.new.faults ≡ self.old.faults }
    {
        self.calls = self.calls.saturating_add(1);
        if self.fails.contains(&self.calls) {
            self.faults = self.faults.saturating_add(1);
            true
        } else {
            false
        }
    }
}

/// Copies the first bytes, as many as `most` and the room allow.
fn give(from: &[u8], most: usize, buf: &mut [u8]) -> usize
    requires { 0 < most }
    ensures count { result ≡ min (min most (length from.now)) (length buf.new) }
    ensures bytes { from.now ≡ take result buf.new ++ drop result from.now }
    ensures end { result ≡ 0 → 0 < length buf.new → from.now ≡ [] }
{
    let count = from.len().min(most).min(buf.len());
    buf[..count].copy_from_slice(&from[..count]);
    count
}

impl Source for MemSource {
    ghost left = { λ s. Some s.left };

    ghost chosen = { λ _. None };

    ghost faults = { λ s. s.faults };

    fn begin(&mut self, name: Option<&str>) -> Result<(), Failed>
        ensures bytes { self.new.left ≡ self.old.left }
        ensures cause { HasCause self.old.faults self.new.faults result }
        ensures fails { IsErr result ↔ Contains self.old.fails (counted self.old.calls) }
        ensures counts { self.new ≡ read_called self.old (is_err result) self.old.left }
    {
        if self.fails_now() {
            Err(Failed)
        } else {
            Ok(())
        }
    }

    fn read(&mut self, buf: &mut [u8]) -> Result<usize, Failed>
        ensures bound { ReadsAtMost result buf.new }
        ensures bytes { ReadConsumes (Some self.old.left) (Some self.new.left) result buf.new }
        ensures cause { HasCause self.old.faults self.new.faults result }
        ensures fails { IsErr result ↔ Contains self.old.fails (counted self.old.calls) }
        ensures counts { self.new ≡ read_called self.old (is_err result) self.new.left }
        ensures count { IfOk result (λ n. n ≡ min (min self.old.most (length self.old.left)) (length buf.new)) }
    {
        if self.fails_now() {
            return Err(Failed);
        }
        let count = give(&self.bytes[self.at..], self.most, buf);
        self.at += count;
        Ok(count)
    }
}
