ghost use Rattle.std.specs.Prelude.{◌≡◌, ℕ, ◌+◌, ◌<◌, ◌≤◌, ◌++◌, ◌∷◌, [], ℤ, List, true, false, not, length, replicate, slice_index_or, slice_set, take, drop, All, IfOk, IfSome, OnOk, OnErr, vec_capacity};
ghost use Rattle.std.specs.List.{count_by};
ghost use Rattle.fzn_model.specs.Boxes.{IsBox, domain_at};
ghost use Rattle.mark_set.specs.Marks.{IsUnmarked, IsMarked};
ghost use Rattle.dom_store.specs.Trails.{undone, IsTrail, Renews, TakesBack};

use crate::domains::Domains;
use crate::entry::Entry;
use int_domain::Domain;
use mark_set::MarkSet;
use std::alloc::{AllocError, Global};
use std::marker::Model;

/// The domains that variables had before they were narrowed, the earliest first.
#[derive(Drop)]
pub(crate) struct Trail {
    entries: Vec<Entry>,
    /// The variables that have an entry from `since` on.
    saved: MarkSet,
    since: usize,
}

impl Model for Trail {
    ghost use Rattle.std.specs.Prelude.{vec_capacity};
    ghost use Rattle.dom_store.specs.Trails.{TrailParts, IsTrail};

    ghost Value = { TrailParts };

    ghost view = { λ t. record { entries = t.entries.items; marks = t.saved; since = t.since; room = vec_capacity t.entries } };

    ghost invariant = { λ t. IsTrail (record { entries = t.entries.items; marks = t.saved; since = t.since; room = vec_capacity t.entries }) };
}

/// Puts the domains of the latest entries back, the latest first, and takes the entries away.
fn undo(entries: &mut Vec<Entry>, start: usize, domains: &mut Domains)
    requires start { start ≤ length entries.old.items }
    requires inside { All (λ e. e.var < length domains.old) entries.old.items }
    ensures entries { entries.new.items ≡ take start entries.old.items }
    ensures room { vec_capacity entries.new ≡ vec_capacity entries.old }
    ensures domains { domains.new ≡ undone (drop start entries.old.items) domains.old }
{
    while entries.len() > start {
        if let Some(Entry { var, domain }) = entries.pop() {
            domains.put(var, domain);
        }
    }
}

impl Trail {
    /// No entries, with room for one of each variable.
    pub(crate) fn new(alloc: Global, variables: usize) -> Result<Trail, AllocError>
        requires few { variables ≤ 100000 }
        ensures first { IfOk result (λ t. t ≡ record { entries = []; marks = replicate variables false; since = 0; room = t.room }) }
        ensures kept { IfOk result (λ t. IsTrail t) }
    {
        Ok(Trail {
            entries: Vec::with_capacity(alloc, variables)?,
            saved: MarkSet::new(alloc, variables)?,
            since: 0,
        })
    }

    /// The entries.
    pub(crate) fn as_slice(&self) -> &[Entry]
        ensures { result.now ≡ self.now.entries }
    {
        self.entries.as_slice()
    }

    /// Whether the variable has an entry since the latest level or settling began.
    pub(crate) fn has(&self, var: u32) -> bool
        requires { var < length self.now.marks }
        ensures { result ≡ slice_index_or self.now.marks var false }
    {
        self.saved.has(var)
    }

    /// Saves the domain of a variable that has no entry yet.
    pub(crate) fn save(&mut self, var: u32, domain: Domain)
        requires inside { var < length self.old.marks }
        requires unmarked { IsUnmarked self.old.marks var }
        ensures kept { IsTrail self.new }
        ensures saved { self.new ≡ record self.old { entries = self.old.entries ++ record { var = var; domain = domain } ∷ []; marks = slice_set self.old.marks var true } }
    {
        self.entries.push_reserved(Entry { var, domain });
        self.saved.add(var);
    }

    /// Lets each variable have a further entry. Takes memory for one of each, and leaves all as it was where there is none.
    pub(crate) fn renew(&mut self) -> Result<(), AllocError>
        ensures ok { OnOk result (Renews self.old self.new) }
        ensures err { OnErr result (self.new ≡ self.old) }
        ensures kept { IsTrail self.new }
    {
        self.entries.reserve(self.saved.limit())?;
        self.saved.clear();
        self.since = self.entries.len();
        Ok(())
    }

    /// Puts the domains of the latest entries back, and takes the entries away.
    pub(crate) fn take_back(&mut self, start: usize, domains: &mut Domains)
        requires start { start ≤ length self.old.entries }
        requires room { start + length self.old.marks ≤ self.old.room }
        requires same { length self.old.marks ≡ length domains.old }
        ensures back { TakesBack start self.old self.new }
        ensures kept { IsTrail self.new }
        ensures domains { domains.new ≡ undone (drop start self.old.entries) domains.old }
    {
        undo(&mut self.entries, start, domains);
        self.saved.clear();
        self.since = start;
    }
}
