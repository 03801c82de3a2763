ghost use Rattle.std.specs.Prelude.{◌≡◌, ◌+◌, ◌<◌, ◌≤◌, ◌↔◌, [], ◌∷◌, ◌++◌, List, length, slice_index_or, take, IfOk, OnOk, OnErr, IsTrue};
ghost use Rattle.search_core.specs.declared.decision.Decision.{Decision};
ghost use Rattle.search_core.specs.Trees.{paths_of, IsTree, IsNode};
ghost use Rattle.search_core.specs.Places.{Extends};
ghost use Rattle.search_core.specs.Paths.{opposite};

use crate::decision::Decision;
use std::alloc::{AllocError, Global};
use std::marker::Model;

/// One decision more than the path of the node above.
#[derive(Clone, Copy, Debug)]
pub(crate) struct Node {
    up: usize,
    decision: Decision,
}

/// Paths that share their beginnings. Each node is numbered: the root is 0, and has the empty path. Contracts see the list of
/// the paths of all nodes.
#[derive(Drop)]
pub(crate) struct Tree {
    /// All nodes but the root, each after the node above it.
    nodes: Vec<Node>,
}

impl Model for Tree {
    ghost use Rattle.std.specs.Prelude.{List};
    ghost use Rattle.search_core.specs.declared.decision.Decision.{Decision};

    ghost Value = { List (List Decision) };

    ghost use Rattle.search_core.specs.Trees.{paths_of, IsTree};

    ghost view = { λ tree. paths_of tree.nodes.items };

    ghost invariant = { λ tree. IsTree tree.nodes.items };
}

/// Whether two decisions are the same.
fn is_same(decision: &Decision, other: &Decision) -> bool
    ensures { IsTrue result ↔ (decision.now ≡ other.now) }
{
    decision == other
}

/// Whether it is the path of the node. It walks up from the node, at most as far as the path is long.
fn is_path_of(nodes: &[Node], number: usize, path: &[Decision]) -> bool
    requires tree { IsTree nodes.now }
    requires number { number ≤ length nodes.now }
    ensures { IsTrue result ↔ (slice_index_or (paths_of nodes.now) number [] ≡ path.now) }
{
    let mut number = number;
    let mut left = path.len();
    while left > 0 {
        if number == 0 {
            return false;
        }
        let node = &nodes[number - 1];
        if !is_same(&node.decision, &path[left - 1]) {
            return false;
        }
        number = node.up;
        left -= 1;
    }
    number == 0
}

/// Whether the path of the node is this one and this decision more.
fn is_side_of(nodes: &[Node], number: usize, path: &[Decision], cut: &Decision) -> bool
    requires tree { IsTree nodes.now }
    requires number { number ≤ length nodes.now }
    ensures { IsTrue result ↔ (slice_index_or (paths_of nodes.now) number [] ≡ path.now ++ cut.now ∷ []) }
{
    if number == 0 {
        return false;
    }
    let node = &nodes[number - 1];
    is_same(&node.decision, cut) && is_path_of(nodes, node.up, path)
}

/// The node above a node that isn't the root; the root for the root.
fn above_of(nodes: &[Node], number: usize) -> usize
    requires tree { IsTree nodes.now }
    requires number { number ≤ length nodes.now }
    ensures below { result ≤ length nodes.now }
    ensures path { (p : List Decision) (d : Decision) → slice_index_or (paths_of nodes.now) number [] ≡ p ++ d ∷ [] → slice_index_or (paths_of nodes.now) result [] ≡ p }
{
    if number == 0 {
        return 0;
    }
    nodes[number - 1].up
}

impl Tree {
    /// The root alone. Takes no memory.
    #[tactic(auto, using(crate::proofs::Nodes::paths_none, crate::proofs::Nodes::tree_none))]
    pub(crate) fn new(alloc: Global) -> Tree
        ensures { result ≡ [] ∷ [] }
    {
        Tree {
            nodes: Vec::new(alloc),
        }
    }

    /// Adds a node under another, and answers its number.
    #[tactic(auto, using(crate::proofs::Nodes::paths_push, crate::proofs::Nodes::paths_count, crate::proofs::Nodes::tree_push))]
    pub(crate) fn push(&mut self, up: usize, decision: Decision) -> Result<usize, AllocError>
        requires { up < length self.old }
        ensures ok { OnOk result (self.new ≡ self.old ++ (slice_index_or self.old up [] ++ decision ∷ []) ∷ []) }
        ensures number { IfOk result (λ number. number ≡ length self.old) }
        ensures err { OnErr result (self.new ≡ self.old) }
    {
        self.nodes.push(Node { up, decision })?;
        Ok(self.nodes.len())
    }

    /// Adds the nodes of both sides of a cut under another, and answers their numbers. On refusal there may be one of them.
    #[tactic(auto, using(crate::proofs::Nodes::extends_one, crate::proofs::Nodes::extends_two, crate::proofs::Nodes::first_side, crate::proofs::Nodes::second_side))]
    pub(crate) fn push_sides(
        &mut self,
        up: usize,
        cut: Decision,
    ) -> Result<(usize, usize), AllocError>
        requires { up < length self.old }
        ensures more { Extends self.old self.new }
        ensures first { IfOk result (λ sides. IsNode self.new sides.0 (slice_index_or self.old up [] ++ cut ∷ [])) }
        ensures second { IfOk result (λ sides. IsNode self.new sides.1 (slice_index_or self.old up [] ++ opposite cut ∷ [])) }
    {
        let first = self.push(up, cut)?;
        let second = self.push(up, cut.opposite())?;
        Ok((first, second))
    }

    /// The number of the root.
    #[tactic(auto, using(crate::proofs::Nodes::paths_count, crate::proofs::Nodes::paths_root))]
    fn root(&self) -> usize
        ensures below { result < length self.now }
        ensures path { slice_index_or self.now result [] ≡ [] }
    {
        let _nodes = &self.nodes;
        0
    }

    /// Adds the nodes of a path, and answers the number of its last. On refusal there may be some of them.
    #[tactic(auto, using(crate::proofs::Nodes::added_none, crate::proofs::Nodes::added_more, crate::proofs::Nodes::added_all))]
    pub(crate) fn grow(&mut self, path: &[Decision]) -> Result<usize, AllocError>
        ensures more { Extends self.old self.new }
        ensures number { IfOk result (λ number. number < length self.new) }
        ensures ok { IfOk result (λ number. slice_index_or self.new number [] ≡ path.now) }
    {
        let mut number = self.root();
        for decision in path {
            number = self.push(number, *decision)?;
        }
        Ok(number)
    }

    /// Keeps the nodes of numbers up to this one.
    #[tactic(auto, using(crate::proofs::Nodes::paths_take, crate::proofs::Nodes::tree_take))]
    pub(crate) fn cut_above(&mut self, last: usize)
        ensures { self.new ≡ take (last + 1) self.old }
    {
        self.nodes.truncate(last);
    }

    /// Whether it is the path of the node.
    #[tactic(auto, using(crate::proofs::Nodes::paths_count))]
    pub(crate) fn is_path(&self, number: usize, path: &[Decision]) -> bool
        requires { number < length self.now }
        ensures { IsTrue result ↔ (slice_index_or self.now number [] ≡ path.now) }
    {
        is_path_of(&self.nodes, number, path)
    }

    /// Whether the path of the node is this one and this decision more.
    #[tactic(auto, using(crate::proofs::Nodes::paths_count))]
    pub(crate) fn is_side(&self, number: usize, path: &[Decision], cut: &Decision) -> bool
        requires { number < length self.now }
        ensures { IsTrue result ↔ (slice_index_or self.now number [] ≡ path.now ++ cut.now ∷ []) }
    {
        is_side_of(&self.nodes, number, path, cut)
    }

    /// The node above a node that isn't the root; the root for the root.
    #[tactic(auto, using(crate::proofs::Nodes::paths_count))]
    pub(crate) fn above(&self, number: usize) -> usize
        requires { number < length self.now }
        ensures below { result < length self.now }
        ensures path { (p : List Decision) (d : Decision) → slice_index_or self.now number [] ≡ p ++ d ∷ [] → slice_index_or self.now result [] ≡ p }
    {
        above_of(&self.nodes, number)
    }
}
