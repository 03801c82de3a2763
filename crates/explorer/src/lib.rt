//! Depth-first search of the subtree of a path, with a cache of solved residual problems.
//!
//! What it is for: a worker searches the paths that it holds. [`explore`] settles one of them: it finds the cheapest solution
//! under it, or that there is none cheaper than what is known.
//!
//! What contracts see: a [`Bench`] by its parts (`IsBench` in `specs/Benches.antt`), a [`Found`] as the solution kept
//! (`specs/Offers.antt`), a [`Meter`] as its three figures.
//!
//! What it promises: a path that is settled has no solution cheaper than the bound (`Closes` in `specs/Explored.antt`);
//! what was offered are solutions, of which `found` has the cheapest; each expansion took one credit and one ticket, a
//! miss of the node's own residual problem at the bound that it needs or the word that it is too wide (`Works` in
//! `specs/Works.antt`, `IsExpansion` in `specs/Expansions.antt`); the credits are fewer than the path's assignments,
//! none where it has none; it stops early only for its cause; the bench is as it was. It ends, since each step lessens
//! a measure (`turns_left` in `specs/Turns.antt`).
//!
//! What a log of a search is, as a tree of its nodes (`specs/Trees.antt`), and when it is right (`specs/RightLogs.antt`) is defined
//! here. What a search notes in its journal is such a log, or the beginning of one (`Logged` in `specs/Logged.antt`).
//!
//! What it costs: one propagation, one projection and eight readings a node. It doesn't recurse; memory grows with the depth
//! alone, by what a level of the store keeps and a residual problem.
//!
//! What it stands on: every part of the search. No other crate knows cache and board at once.
#![tactic(auto)]

// What a search works with, and what it counts and keeps.
mod bench;
mod found;
mod meter;
mod ticket;

// Where it stands.
mod frame;
mod stack;
mod task;

// One node, and the ways down and up.
mod down;
mod edge;
mod node;
mod noting;
mod telling;
mod up;
mod walking;

// The whole, and what a log of it says.
mod laws;
mod search;
mod subtree;

pub use bench::Bench;
pub use found::Found;
pub use laws::a_right_log_settles_its_path;
pub use meter::Meter;
pub use subtree::{Explored, explore};
pub use ticket::{Ticket, expand};
