ghost use Rattle.std.specs.Prelude.{◌≡◌, ◌++◌, [], ◌∷◌, OnOk, OnErr, None, option_copied};
ghost use Rattle.fzn_reader.specs.Names.{find_name};

use crate::decl::Decl;
use indexmap::IndexMap;
use std::alloc::{AllocFailed, Global};

/// What each name that was declared stands for. Contracts see the declarations in order.
#[derive(Drop)]
pub struct Names<'a> {
    entries: IndexMap<&'a [u8], Decl>,
}

impl<'a> std::marker::Model for Names<'a> {
    ghost use Rattle.std.specs.Prelude.{List, ℕ, map};
    ghost use Rattle.fzn_reader.specs.declared.decl.Decl.{Decl};

    ghost Value = { List (List ℕ × Decl) };

    ghost view = { λ n. map (λ e. (e.0.now, e.1)) n.entries.entries };
}

impl<'a> Names<'a> {
    /// No name.
    pub fn new(alloc: Global) -> Names<'a>
        ensures { result ≡ [] }
    {
        Names {
            entries: IndexMap::new(alloc),
        }
    }

    /// What the name stands for, where it is declared.
    pub fn find(&self, name: &[u8]) -> Option<&Decl>
        ensures { option_copied result ≡ find_name self.now name.now }
    {
        self.entries.get(name)
    }

    /// One name more. Where there is no memory the names are as before.
    pub fn insert(
        &mut self,
        name: &'a [u8],
        decl: Decl,
    ) -> Result<(), AllocFailed<(&'a [u8], Decl)>>
        requires { find_name self.old name.now ≡ None }
        ensures ok { OnOk result (self.new ≡ self.old ++ (name.now, decl) ∷ []) }
        ensures err { OnErr result (self.new ≡ self.old) }
    {
        self.entries.insert(name, decl)?;
        Ok(())
    }
}
