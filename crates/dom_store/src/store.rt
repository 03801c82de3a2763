ghost use Rattle.std.specs.Prelude.{◌≡◌, ◌<◌, ◌≤◌, ◌↔◌, ◌∷◌, [], ℕ, int_le, length, drop, slice_index_or, None, IsNone, IfOk, IfSome, IfNone, OnOk, OnErr};
ghost use Rattle.std.specs.Ordering.{int_eq};
ghost use Rattle.int_domain.specs.Narrowing.{Narrows, DropsValue};
ghost use Rattle.fzn_model.specs.Boxes.{IsBox, domain_at};
ghost use Rattle.mark_set.specs.Marks.{IsUnmarked, IsClear};
ghost use Rattle.dom_store.specs.Stores.{box_size, HasEmpty, latest};
ghost use Rattle.dom_store.specs.Views.{first_store};
ghost use Rattle.dom_store.specs.Narrowing.{AltersOnly, changes_by, touched_by, TakesTouched, Forgets, Settles};
ghost use Rattle.dom_store.specs.Trails.{IsTrail, Saves, DiffersAt};
ghost use Rattle.dom_store.specs.Kept.{Does, Leaves};

use crate::domain::{Cut, high_of, is_idle, low_of, only_value, size_of};
use crate::domains::{Domains, domains_of};
use crate::entry::Entry;
use crate::level::Level;
use crate::trail::Trail;
use fzn_model::{BoxView, Model};
use int_domain::{Domain, Narrow};
use mark_set::MarkSet;
use std::alloc::{AllocError, Global};

/// The domains of all variables, with levels.
#[derive(Drop)]
pub struct Store {
    domains: Domains,
    /// The domains that variables had before they were narrowed.
    trail: Trail,
    /// The places in the trail at each push that was not popped, the latest last.
    levels: Vec<Level>,
    /// How many entries the trail had at the latest settling, where there was one.
    settled: Option<usize>,
    /// The variables whose domains changed, until they are taken.
    touched: MarkSet,
    /// How often a narrowing changed a domain.
    changes: u64,
}

impl std::marker::Model for Store {
    ghost use Rattle.dom_store.specs.Stores.{Stored};
    ghost use Rattle.dom_store.specs.Trails.{stored_of, IsStoreOf};

    ghost Value = { Stored };

    ghost view = { λ s. stored_of s.domains s.trail s.levels.items s.settled s.touched s.changes };

    ghost invariant = { λ s. IsStoreOf s.domains s.trail s.levels.items s.settled s.touched s.changes };
}

/// The count of changes after a narrowing.
fn count_change(changes: u64, answer: Narrow) -> u64
    ensures value { result ≡ changes_by answer changes }
    ensures rises { changes ≤ result }
{
    match answer {
        Narrow::Changed => changes.saturating_add(1),
        Narrow::Same | Narrow::Empty => changes,
    }
}

/// Saves the domain of a variable, where a narrowing may change it and it isn't saved yet.
fn save(trail: &mut Trail, domains: &Domains, var: u32, cut: Cut)
    requires inside { var < length domains.now }
    requires marks { length trail.old.marks ≡ length domains.now }
    requires kept { IsTrail trail.old }
    ensures saves { Saves domains.now trail.old trail.new }
    ensures kept { IsTrail trail.new }
    ensures leaves { IsUnmarked trail.new.marks var → Leaves cut (domain_at domains.now var) }
{
    let domain = &domains.as_slice()[var as usize];
    if is_idle(domain, cut) || trail.has(var) {
        return;
    }
    trail.save(var, domain.copy());
}

/// The entries from one on.
fn from(entries: &[Entry], at: usize) -> &[Entry]
    requires { at ≤ length entries.now }
    ensures { result.now ≡ drop at entries.now }
{
    &entries[at..]
}

/// Marks the variable where its domain changed.
fn touch(touched: &mut MarkSet, var: u32, answer: Narrow)
    requires { var < length touched.old }
    ensures { touched.new ≡ touched_by answer var touched.old }
{
    match answer {
        Narrow::Changed => touched.add(var),
        Narrow::Same | Narrow::Empty => {}
    }
}

impl Store {
    /// The store with the domains of the model; `None` where one of them is empty.
    pub fn new(alloc: Global, model: &Model) -> Result<Option<Store>, AllocError>
        ensures none { IfOk result (λ made. IsNone made ↔ HasEmpty model.now.doms) }
        ensures some { IfOk result (λ made. IfSome made (λ s. s ≡ first_store model.now.doms)) }
    {
        let Some(domains) = domains_of(alloc, model.doms.as_slice())? else {
            return Ok(None);
        };
        let variables = domains.as_slice().len();
        Ok(Some(Store {
            domains,
            trail: Trail::new(alloc, variables)?,
            levels: Vec::new(alloc),
            settled: None,
            touched: MarkSet::new(alloc, variables)?,
            changes: 0,
        }))
    }

    /// The domains, in order.
    pub(crate) fn as_slice(&self) -> &[Domain]
        ensures value { result.now ≡ self.now.box }
        ensures few { length self.now.box ≤ 100000 }
        ensures well_formed { IsBox self.now.box }
    {
        self.domains.as_slice()
    }

    /// How many variables there are.
    pub fn count(&self) -> usize
        ensures value { result ≡ length self.now.box }
        ensures few { result ≤ 100000 }
        ensures well_formed { IsBox self.now.box }
    {
        self.as_slice().len()
    }

    /// How many values all domains have together.
    pub fn total(&self) -> u64
        ensures { result ≡ box_size self.now.box }
    {
        self.domains.total()
    }

    /// How often a narrowing changed a domain. The count is not taken back with a level, and stands still at the
    /// greatest `u64`.
    pub fn changes(&self) -> u64
        ensures { result ≡ self.now.changes }
    {
        self.changes
    }

    /// Narrows the domain of one variable, and counts the change.
    pub(crate) fn narrow(&mut self, var: u32, cut: Cut) -> Narrow
        requires var { var < length self.old.box }
        ensures does { Does cut (domain_at self.old.box var) (domain_at self.new.box var) result }
        ensures others { AltersOnly var result self.old self.new }
        ensures falls { result ≡ Narrow.Changed → box_size self.new.box < box_size self.old.box }
        ensures rises { self.old.changes ≤ self.new.changes }
        ensures well_formed { IsBox self.new.box }
    {
        save(&mut self.trail, &self.domains, var, cut);
        let answer = self.domains.narrow(var, cut);
        touch(&mut self.touched, var, answer);
        self.changes = count_change(self.changes, answer);
        answer
    }

    /// Keeps the values of the variable that are at least `low`. `Empty`, where none is, leaves the store as it was.
    #[tactic(auto, unfolding(crate::specs::Kept::Does))]
    pub fn cut_below(&mut self, var: u32, low: i64) -> Narrow
        requires var { var < length self.old.box }
        ensures narrows { Narrows (λ x. int_le low x) (domain_at self.old.box var) (domain_at self.new.box var) result }
        ensures others { AltersOnly var result self.old self.new }
        ensures falls { result ≡ Narrow.Changed → box_size self.new.box < box_size self.old.box }
        ensures rises { self.old.changes ≤ self.new.changes }
        ensures well_formed { IsBox self.new.box }
    {
        self.narrow(var, Cut::Below(low))
    }

    /// Keeps the values of the variable that are at most `high`. `Empty`, where none is, leaves the store as it was.
    #[tactic(auto, unfolding(crate::specs::Kept::Does))]
    pub fn cut_above(&mut self, var: u32, high: i64) -> Narrow
        requires var { var < length self.old.box }
        ensures narrows { Narrows (λ x. int_le x high) (domain_at self.old.box var) (domain_at self.new.box var) result }
        ensures others { AltersOnly var result self.old self.new }
        ensures falls { result ≡ Narrow.Changed → box_size self.new.box < box_size self.old.box }
        ensures rises { self.old.changes ≤ self.new.changes }
        ensures well_formed { IsBox self.new.box }
    {
        self.narrow(var, Cut::Above(high))
    }

    /// Keeps one value of the variable. `Empty`, where it is no value of its domain, leaves the store as it was.
    #[tactic(auto, unfolding(crate::specs::Kept::Does))]
    pub fn fix(&mut self, var: u32, value: i64) -> Narrow
        requires var { var < length self.old.box }
        ensures narrows { Narrows (λ x. int_eq x value) (domain_at self.old.box var) (domain_at self.new.box var) result }
        ensures others { AltersOnly var result self.old self.new }
        ensures falls { result ≡ Narrow.Changed → box_size self.new.box < box_size self.old.box }
        ensures rises { self.old.changes ≤ self.new.changes }
        ensures well_formed { IsBox self.new.box }
    {
        self.narrow(var, Cut::Fix(value))
    }

    /// Keeps all values of the variable but one. `Empty`, where there is no other, leaves the store as it was. Strictly
    /// between the bounds of a domain whose hull has more than 1,024 numbers, the value stays, and the answer is `Same`.
    #[tactic(auto, unfolding(crate::specs::Kept::Does))]
    pub fn drop_value(&mut self, var: u32, value: i64) -> Narrow
        requires var { var < length self.old.box }
        ensures drops { DropsValue value (domain_at self.old.box var) (domain_at self.new.box var) result }
        ensures others { AltersOnly var result self.old self.new }
        ensures falls { result ≡ Narrow.Changed → box_size self.new.box < box_size self.old.box }
        ensures rises { self.old.changes ≤ self.new.changes }
        ensures well_formed { IsBox self.new.box }
    {
        self.narrow(var, Cut::Drop(value))
    }

    /// How many levels there are.
    #[tactic(auto, using(crate::proofs::Levels::level_count))]
    pub fn levels(&self) -> usize
        ensures { result ≡ length self.now.saved }
    {
        self.levels.len()
    }

    /// Begins a level: the domains as they are now come back at the matching [`Store::pop_level`]. Takes memory for one
    /// domain of each variable, so that no narrowing does.
    pub fn push_level(&mut self) -> Result<(), AllocError>
        ensures ok { OnOk result (self.new ≡ record self.old { saved = self.old.box ∷ self.old.saved; settled = latest self.old.settled ∷ self.old.settled }) }
        ensures err { OnErr result (self.new ≡ self.old) }
    {
        self.levels.reserve(1)?;
        self.trail.renew()?;
        self.levels.push_reserved(Level {
            start: self.trail.as_slice().len(),
            settled: self.settled,
        });
        Ok(())
    }

    /// Ends the latest level: gives back the domains at its [`Store::push_level`].
    pub fn pop_level(&mut self)
        requires pushed { 0 < length self.old.saved }
        ensures domains { self.new.box ≡ slice_index_or self.old.saved 0 [] }
        ensures saved { self.new.saved ≡ drop 1 self.old.saved }
        ensures settled { self.new.settled ≡ drop 1 self.old.settled }
        ensures changes { self.new.changes ≡ self.old.changes }
    {
        let Some(level) = self.levels.pop() else {
            return;
        };
        self.trail.take_back(level.start, &mut self.domains);
        self.settled = level.settled;
    }

    /// Says that the box as it is now is settled: what is known of it is known of the level's boxes from now on, so far as
    /// their domains are the same. Where memory is wanting, nothing changes.
    pub fn settle(&mut self)
        ensures { Settles self.old self.new }
    {
        if let Ok(()) = self.trail.renew() {
            self.settled = Some(self.trail.as_slice().len());
        }
    }

    /// The variables whose domains may differ from those at the latest settling, where there was one.
    pub fn unsettled(&self) -> Option<&[Entry]>
        ensures none { IfNone result (latest self.now.settled ≡ None) }
        ensures some { IfSome result (λ entries. DiffersAt entries.now (latest self.now.settled) self.now.box) }
    {
        match self.settled {
            Some(at) => Some(from(self.trail.as_slice(), at)),
            None => None,
        }
    }

    /// Takes the mark from a variable whose domain changed.
    pub fn take_touched(&mut self) -> Option<u32>
        ensures some { IfSome result (λ var. TakesTouched var self.old self.new) }
        ensures none { IfNone result (IsClear self.old.touched) }
        ensures same { IfNone result (self.new ≡ self.old) }
    {
        self.touched.take()
    }

    /// Takes the marks from all variables.
    pub fn forget_touched(&mut self)
        ensures { Forgets self.old self.new }
    {
        self.touched.clear();
    }
}

/// Does nothing; a caller learns that each domain is as in every store: not empty, rising, within the values of the
/// language, and without a gap where it is wide.
pub fn recall_domains(store: &Store)
    ensures domains { IsBox store.now.box }
{
    let _domains = store.as_slice();
}

impl BoxView for Store {
    ghost shape = { λ s. s.box };

    fn low(&self, var: u32) -> i64 {
        low_of(&self.as_slice()[var as usize])
    }

    fn high(&self, var: u32) -> i64 {
        high_of(&self.as_slice()[var as usize])
    }

    fn has(&self, var: u32, value: i64) -> bool {
        self.as_slice()[var as usize].has(value)
    }

    fn fixed(&self, var: u32) -> Option<i64> {
        only_value(&self.as_slice()[var as usize])
    }

    fn size(&self, var: u32) -> u64 {
        size_of(&self.as_slice()[var as usize])
    }
}
