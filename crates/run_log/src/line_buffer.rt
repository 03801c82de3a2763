ghost use Rattle.std.specs.Prelude.{◌≡◌, ◌≤◌, ◌+◌, ◌++◌, [], length};
ghost use Rattle.cs_base.specs.Causes.{HasCause};
ghost use Rattle.run_log.specs.Buffers.{Buffered};

use cs_base::{Failed, Sink, write_whole};
use std::marker::Model;

/// The bytes of a line that aren't written yet, at most 4,096, on the stack. Contracts see it as the list of them.
#[derive(Drop)]
pub(crate) struct LineBuffer {
    bytes: [u8; 4096],
    len: usize,
}

impl Model for LineBuffer {
    ghost use Rattle.std.specs.Prelude.{ℕ, ◌≤◌, List, take};

    ghost Value = { List ℕ };

    ghost view = { λ s. take s.len s.bytes };

    ghost invariant = { λ s. s.len ≤ 4096 };
}

impl LineBuffer {
    pub(crate) fn new() -> LineBuffer
        ensures { result ≡ [] }
    {
        LineBuffer {
            bytes: [0; 4096],
            len: 0,
        }
    }

    /// Puts the bytes behind the others, for which there is room.
    fn add(&mut self, bytes: &[u8])
        requires { length self.old + length bytes.now ≤ 4096 }
        ensures { self.new ≡ self.old ++ bytes.now }
    {
        let end = self.len + bytes.len();
        self.bytes[self.len..end].copy_from_slice(bytes);
        self.len = end;
    }

    /// Writes all bytes, and keeps none.
    #[tactic(auto, unfolding(crate::specs::Buffers::Buffered))]
    pub(crate) fn flush<O: Sink>(&mut self, out: &mut O) -> Result<(), Failed>
        ensures empty { self.new ≡ [] }
        ensures text { Buffered (O.written out.old, self.old) (O.written out.new, self.new) [] result }
        ensures cause { HasCause (O.faults out.old) (O.faults out.new) result }
    {
        let len = self.len;
        self.len = 0;
        write_whole(out, &self.bytes[..len])
    }

    /// Puts the bytes behind the others, which are written first where these have no room.
    #[tactic(auto, using(crate::proofs::Buffering::buffered_none, crate::proofs::Buffering::buffered_add, crate::proofs::Buffering::buffered_fault))]
    pub(crate) fn put<O: Sink>(&mut self, out: &mut O, bytes: &[u8]) -> Result<(), Failed>
        requires { length bytes.now ≤ 4096 }
        ensures text { Buffered (O.written out.old, self.old) (O.written out.new, self.new) bytes.now result }
        ensures cause { HasCause (O.faults out.old) (O.faults out.new) result }
    {
        if bytes.len() <= self.bytes.len() - self.len {
            self.add(bytes);
            return Ok(());
        }
        self.flush(out)?;
        self.add(bytes);
        Ok(())
    }
}
