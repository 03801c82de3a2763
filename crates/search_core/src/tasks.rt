ghost use Rattle.std.specs.Prelude.{◌≡◌, ◌≢◌, ℕ, ◌+◌, ◌<◌, ◌≤◌, ◌↔◌, [], ◌∷◌, ◌++◌, ℤ, List, All, length, slice_index_or, vec_len, IfSome, IfNone, IfErr, OnOk, OnErr, IsTrue};
ghost use Rattle.std.specs.List.{remove};
ghost use Rattle.std.specs.Vec.{vec_capacity};
ghost use Rattle.std.specs.Int.{int_min};
ghost use Rattle.search_core.specs.declared.decision.Decision.{Decision};
ghost use Rattle.search_core.specs.Paths.{opposite};
ghost use Rattle.search_core.specs.Tasks.{as_held, as_settled, Replaced, Joins, task_of, tasks_of, AreNodes};
ghost use Rattle.search_core.specs.Places.{IsPlace, IsSettledPlace, IsSettledBy, IsMissing, CantJoin};

use crate::decision::Decision;
use crate::fault::StepFault;
use crate::stand::Stand;
use crate::tree::Tree;
use std::alloc::{AllocError, Global};
use std::marker::Model;

/// A path, as the number of its node, and how it stands.
#[derive(Clone, Copy, Debug)]
pub(crate) struct Entry {
    node: usize,
    stand: Stand,
}

/// Paths and how each stands. Contracts see the list of tasks. The sides of a cut share their path: their decisions are a tree.
#[derive(Drop)]
pub(crate) struct Tasks {
    tree: Tree,
    entries: Vec<Entry>,
}

impl Model for Tasks {
    ghost use Rattle.std.specs.Prelude.{List};
    ghost use Rattle.search_core.specs.Tasks.{Task, tasks_of, AreNodes};

    ghost Value = { List Task };

    ghost view = { λ tasks. tasks_of tasks.tree tasks.entries.items };

    ghost invariant = { λ tasks. AreNodes tasks.tree tasks.entries.items };
}

/// Whether the entry is this path, held by the worker.
#[tactic(auto, using(crate::proofs::Replacing::task_made, crate::proofs::Replacing::task_path, crate::proofs::Replacing::task_stand))]
fn is_held(tree: &Tree, entry: &Entry, path: &[Decision], worker: u32) -> bool
    requires { entry.now.node < length tree.now }
    ensures { IsTrue result ↔ (task_of tree.now entry.now ≡ as_held worker path.now) }
{
    entry.stand == Stand::Held(worker) && tree.is_path(entry.node, path)
}

/// Whether the worker settled it.
fn is_settled_by(stand: &Stand, worker: u32) -> bool
    ensures yes { IsTrue result → (bound : ℤ) × (stand.now ≡ Stand.Settled worker bound) }
    ensures no { (bound : ℤ) → stand.now ≡ Stand.Settled worker bound → IsTrue result }
{
    match stand {
        Stand::Settled(by, _) => *by == worker,
        Stand::Open | Stand::Held(_) => false,
    }
}

/// Whether the entry is this side of the path, settled by the worker.
#[tactic(auto, using(crate::proofs::Replacing::task_made, crate::proofs::Replacing::task_path, crate::proofs::Replacing::task_stand))]
fn is_settled_side(
    tree: &Tree,
    entry: &Entry,
    path: &[Decision],
    cut: &Decision,
    worker: u32,
) -> bool
    requires { entry.now.node < length tree.now }
    ensures { IsTrue result ↔ IsSettledBy tree.now worker (path.now ++ cut.now ∷ []) entry.now }
{
    is_settled_by(&entry.stand, worker) && tree.is_side(entry.node, path, cut)
}

/// The place of the newest entry that is this path, held by the worker.
fn held_place(tree: &Tree, entries: &[Entry], path: &[Decision], worker: u32) -> Option<usize>
    requires { AreNodes tree.now entries.now }
    ensures some { IfSome result (λ place. IsPlace tree.now entries.now place (as_held worker path.now)) }
    ensures none { IfNone result (IsMissing (tasks_of tree.now entries.now) (as_held worker path.now)) }
{
    let mut left = entries.len();
    while left > 0 {
        left -= 1;
        if is_held(tree, &entries[left], path, worker) {
            return Some(left);
        }
    }
    None
}

/// The place of the newest entry that is this side of the path, settled by the worker.
fn side_place(
    tree: &Tree,
    entries: &[Entry],
    path: &[Decision],
    cut: &Decision,
    worker: u32,
) -> Option<usize>
    requires { AreNodes tree.now entries.now }
    ensures some { IfSome result (λ place. IsSettledPlace tree.now entries.now place worker (path.now ++ cut.now ∷ [])) }
    ensures none { IfNone result ((bound : ℤ) → IsMissing (tasks_of tree.now entries.now) (as_settled worker bound (path.now ++ cut.now ∷ []))) }
{
    let mut left = entries.len();
    while left > 0 {
        left -= 1;
        if is_settled_side(tree, &entries[left], path, cut, worker) {
            return Some(left);
        }
    }
    None
}

/// Settled at the lesser of the bounds at which two are settled.
fn joined(first: &Stand, second: &Stand) -> Stand
    ensures { (w : ℕ) (a b : ℤ) → first.now ≡ Stand.Settled w a → second.now ≡ Stand.Settled w b → result ≡ Stand.Settled w (int_min a b) }
{
    match (first, second) {
        (Stand::Settled(by, a), Stand::Settled(_, b)) => {
            Stand::Settled(*by, if *b < *a { *b } else { *a })
        }
        _ => Stand::Open,
    }
}

/// Takes an entry out, and puts another at the end.
fn replace(entries: &mut Vec<Entry>, at: usize, entry: Entry)
    requires { at < vec_len entries.old }
    ensures items { entries.new.items ≡ remove entries.old.items at ++ entry ∷ [] }
    ensures capacity { vec_capacity entries.new ≡ vec_capacity entries.old }
{
    let _ = entries.remove(at);
    entries.push_reserved(entry);
}

/// In place of an entry there are two, held by the worker.
fn split_entry(entries: &mut Vec<Entry>, at: usize, sides: (usize, usize), worker: u32)
    requires at { at < vec_len entries.old }
    requires room { vec_len entries.old < vec_capacity entries.old }
    ensures { entries.new.items ≡ (remove entries.old.items at ++ record { node = sides.0; stand = Stand.Held worker } ∷ []) ++ record { node = sides.1; stand = Stand.Held worker } ∷ [] }
{
    let stand = Stand::Held(worker);
    let first = Entry {
        node: sides.0,
        stand,
    };
    let second = Entry {
        node: sides.1,
        stand,
    };
    replace(entries, at, first);
    entries.push_reserved(second);
}

/// The place at which an entry stands once another is taken out.
fn moved_place(gone: usize, place: usize) -> usize
    ensures above { gone < place → result + 1 ≡ place }
    ensures below { place ≤ gone → result ≡ place }
{
    if place > gone { place - 1 } else { place }
}

/// In place of the entries of both sides of a path there is one of the path, settled at the lesser of their bounds.
fn join_entries(tree: &Tree, entries: &mut Vec<Entry>, first: usize, second: usize)
    requires nodes { AreNodes tree.now entries.old.items }
    requires first { first < vec_len entries.old }
    requires second { second < vec_len entries.old }
    requires apart { first ≢ second }
    ensures nodes { AreNodes tree.now entries.new.items }
    ensures joins { (w : ℕ) (p : List Decision) (cut : Decision) → IsSettledPlace tree.now entries.old.items first w (p ++ cut ∷ []) → IsSettledPlace tree.now entries.old.items second w (p ++ opposite cut ∷ [])
        → Joins w p (p ++ cut ∷ []) (p ++ opposite cut ∷ []) (tasks_of tree.now entries.old.items) (tasks_of tree.now entries.new.items) }
{
    let entry = Entry {
        node: tree.above(entries[first].node),
        stand: joined(&entries[first].stand, &entries[second].stand),
    };
    let _ = entries.remove(first);
    replace(entries, moved_place(first, second), entry);
}

/// The greatest number of a node; 0 where there is no entry.
#[tactic(auto, using(crate::proofs::Keeping::greatest_more, crate::proofs::Keeping::greatest_all))]
fn greatest_node(entries: &[Entry]) -> usize
    ensures { All (λ e. e.node ≤ result) entries.now }
{
    let mut greatest = 0;
    for entry in entries {
        if entry.node > greatest {
            greatest = entry.node;
        }
    }
    greatest
}

impl Tasks {
    /// No tasks. Takes no memory.
    #[tactic(auto, using(crate::proofs::Keeping::nodes_none, crate::proofs::Keeping::tasks_none))]
    pub(crate) fn new(alloc: Global) -> Tasks
        ensures { result ≡ [] }
    {
        Tasks {
            tree: Tree::new(alloc),
            entries: Vec::new(alloc),
        }
    }

    /// Adds a held path at the end. On refusal nothing changes.
    #[tactic(auto, using(crate::proofs::Keeping::nodes_extend, crate::proofs::Keeping::tasks_extend, crate::proofs::Keeping::nodes_push, crate::proofs::Keeping::tasks_push))]
    pub(crate) fn add(&mut self, path: &[Decision], worker: u32) -> Result<(), AllocError>
        ensures ok { OnOk result (self.new ≡ self.old ++ as_held worker path.now ∷ []) }
        ensures err { OnErr result (self.new ≡ self.old) }
    {
        let node = self.tree.grow(path)?;
        self.entries.push(Entry {
            node,
            stand: Stand::Held(worker),
        })?;
        Ok(())
    }

    /// Cuts off the nodes behind the greatest one that a task names.
    #[tactic(auto, using(crate::proofs::Keeping::nodes_cut, crate::proofs::Keeping::tasks_cut))]
    fn trim(&mut self)
        ensures { self.new ≡ self.old }
    {
        let last = greatest_node(&self.entries);
        self.tree.cut_above(last);
    }

    /// A held path goes.
    #[tactic(auto, using(crate::proofs::Keeping::nodes_remove, crate::proofs::Replacing::place_released))]
    pub(crate) fn release(&mut self, path: &[Decision], worker: u32) -> Result<(), StepFault>
        ensures ok { OnOk result (Replaced self.old (as_held worker path.now) [] self.new) }
        ensures err { OnErr result (self.new ≡ self.old) }
        ensures barred { IfErr result (λ fault. fault ≡ StepFault.NotAllowed → IsMissing self.old (as_held worker path.now)) }
    {
        let Some(at) = held_place(&self.tree, &self.entries, path, worker) else {
            return Err(StepFault::NotAllowed);
        };
        let _ = self.entries.remove(at);
        self.trim();
        Ok(())
    }

    /// A held path is settled.
    #[tactic(auto, using(crate::proofs::Replacing::settle_replaced, crate::proofs::Replacing::settle_nodes))]
    pub(crate) fn settle(
        &mut self,
        path: &[Decision],
        worker: u32,
        bound: &i64,
    ) -> Result<(), StepFault>
        ensures ok { OnOk result (Replaced self.old (as_held worker path.now) (as_settled worker bound.now path.now ∷ []) self.new) }
        ensures err { OnErr result (self.new ≡ self.old) }
        ensures barred { IfErr result (λ fault. fault ≡ StepFault.NotAllowed → IsMissing self.old (as_held worker path.now)) }
    {
        let Some(at) = held_place(&self.tree, &self.entries, path, worker) else {
            return Err(StepFault::NotAllowed);
        };
        let entry = Entry {
            node: self.entries[at].node,
            stand: Stand::Settled(worker, *bound),
        };
        replace(&mut self.entries, at, entry);
        Ok(())
    }

    /// In place of a held path its two sides are held.
    #[tactic(auto, using(crate::proofs::Keeping::nodes_extend, crate::proofs::Keeping::tasks_extend, crate::proofs::Replacing::split_replaced, crate::proofs::Replacing::split_nodes, crate::proofs::Replacing::place_node))]
    pub(crate) fn split(
        &mut self,
        path: &[Decision],
        worker: u32,
        cut: Decision,
    ) -> Result<(), StepFault>
        ensures ok { OnOk result (Replaced self.old (as_held worker path.now) (as_held worker (path.now ++ cut ∷ []) ∷ as_held worker (path.now ++ opposite cut ∷ []) ∷ []) self.new) }
        ensures err { OnErr result (self.new ≡ self.old) }
        ensures barred { IfErr result (λ fault. fault ≡ StepFault.NotAllowed → IsMissing self.old (as_held worker path.now)) }
    {
        let Some(at) = held_place(&self.tree, &self.entries, path, worker) else {
            return Err(StepFault::NotAllowed);
        };
        self.entries.reserve(1)?;
        let (first, second) = self.tree.push_sides(self.entries[at].node, cut)?;
        split_entry(&mut self.entries, at, (first, second), worker);
        Ok(())
    }

    /// In place of both sides of a path, which are settled, the path is settled at the lesser of their bounds.
    #[tactic(auto, using(crate::proofs::Replacing::no_first, crate::proofs::Replacing::no_second, crate::proofs::Replacing::places_differ))]
    pub(crate) fn join(
        &mut self,
        path: &[Decision],
        worker: u32,
        cut: Decision,
    ) -> Result<(), StepFault>
        ensures ok { OnOk result (Joins worker path.now (path.now ++ cut ∷ []) (path.now ++ opposite cut ∷ []) self.old self.new) }
        ensures err { OnErr result (self.new ≡ self.old) }
        ensures barred { IfErr result (λ fault. fault ≡ StepFault.NotAllowed → CantJoin worker path.now (path.now ++ cut ∷ []) (path.now ++ opposite cut ∷ []) self.old) }
    {
        let Some(first) = side_place(&self.tree, &self.entries, path, &cut, worker) else {
            return Err(StepFault::NotAllowed);
        };
        let other = cut.opposite();
        let Some(second) = side_place(&self.tree, &self.entries, path, &other, worker) else {
            return Err(StepFault::NotAllowed);
        };
        join_entries(&self.tree, &mut self.entries, first, second);
        self.trim();
        Ok(())
    }
}
