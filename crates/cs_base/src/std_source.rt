ghost use Rattle.std.specs.Prelude.{◌≡◌, ℕ, None};
ghost use Rattle.cs_base.specs.Causes.{HasCause};

use crate::failed::Failed;
use crate::source::Source;
use std::fs;
use std::io::Read;
use std::rt::Files;

/// Standard input, or a file.
#[derive(Drop)]
enum Opened<I: Drop, F: Drop> {
    Standard(I),
    File(F),
}

/// The real source: standard input, or the file that `begin` chose. It tells no bytes, and counts each error.
pub struct StdSource<'a, R: Input + Files> {
    rt: &'a R,
    opened: Opened<R::Reader, R::File>,
    faults: u64,
}

impl<R: Input + Files> Drop for StdSource<'_, R> {
    fn drop(self) {
        let StdSource {
            rt: _,
            opened: _,
            faults: _,
        } = self;
    }
}

impl<'a, R: Input + Files> StdSource<'a, R> {
    /// Reads from standard input until `begin` chooses a file.
    pub fn new(rt: &'a R) -> StdSource<'a, R>
        ensures { result.faults ≡ 0 }
    {
        StdSource {
            rt,
            opened: Opened::Standard(rt.reader()),
            faults: 0,
        }
    }
}

impl<R: Input + Files> Source for StdSource<'_, R> {
    ghost left = { λ _. None };

    ghost chosen = { λ _. None };

    ghost faults = { λ s. s.faults };

    /// An open that finds no memory counts as an error.
    fn begin(&mut self, name: Option<&str>) -> Result<(), Failed> {
        let Some(path) = name else {
            self.opened = Opened::Standard(self.rt.reader());
            return Ok(());
        };
        match fs::open(self.rt, path) {
            Ok(file) => {
                self.opened = Opened::File(file);
                Ok(())
            }
            Err(_) => {
                self.faults = self.faults.saturating_add(1);
                Err(Failed)
            }
        }
    }

    fn read(&mut self, buf: &mut [u8]) -> Result<usize, Failed> {
        let taken = match &mut self.opened {
            Opened::Standard(input) => input.read(buf),
            Opened::File(file) => file.read(buf),
        };
        match taken {
            Ok(count) => Ok(count),
            Err(_) => {
                self.faults = self.faults.saturating_add(1);
                Err(Failed)
            }
        }
    }
}
