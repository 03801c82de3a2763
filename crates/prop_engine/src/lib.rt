//! Propagation of a whole model to its fixpoint.
//!
//! What it is for: search calls [`Engine::fix`] at each node, with the cost that a solution has to stay below.
//!
//! What contracts see: an engine as its plan, the constraints and the goal of its model (`specs/Plans.antt`); a store as
//! `dom_store` shows it.
//!
//! What it promises: `fix` removes only values that no solution of the box cheaper than the bound has. At `Kept` each
//! constraint has its strength and no cost that the goal's domain allows reaches the bound; `Empty` comes only where no
//! solution of the box is cheaper; `EarlyStop` only where the domains have lost 100,000 values (`specs/Fixing.antt`). The
//! box of each settling that a store keeps has the strength of each constraint (`IsReady` in `specs/Plans.antt`); `fix`
//! needs this and keeps it. It ends because each run either removes values or leaves one propagator fewer waiting.
//!
//! What it costs: one run for each propagator that reads a variable which changed since the store was last settled, and one
//! more each time that such a variable changes in a way that it hears of; where the store wasn't settled, one run for each. A
//! propagator of a linear relation that is different, of a quotient or of a remainder hears only of variables that are
//! fixed, and of domains that had more than 1,024 values; each other one hears of every change (`specs/Events.antt`). A
//! propagator doesn't wait for its own changes. A dear propagator (`rank.rt` says which are) runs only where no cheap one waits.
//! `fix` stops early only after 64 runs for each propagator and 1,000 more, so only where runs creep.
//!
//! What it stands on: dom_store, fzn_model, mark_set, and a crate for each family of propagators. No other crate names those.
#![tactic(auto)]

// One propagator of any kind, and those of a reified base.
mod any;
mod reified;
mod sides;

// The goal, which propagators read a variable and what they hear of, those that wait for a run, and the whole.
mod engine;
mod event;
mod fixed;
mod flat_lists;
mod goal;
mod queue;
mod rank;
mod readers;
mod run;
mod work;

pub use engine::Engine;
pub use fixed::Fixed;
