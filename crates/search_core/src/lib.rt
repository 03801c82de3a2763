//! Paths of the search tree, how many assignments meet one, and one worker's part of the search.
//!
//! What it is for: a search splits its work by decisions on one variable each. A [`Path`] is a list of them and stands for
//! the assignments that obey them all. A [`Local`] keeps which paths one worker holds and which it has settled, and allows
//! only the [`Move`]s that keep such a record true.
//!
//! What contracts see: a path as the list of its decisions, a [`Local`] as `LocalParts` (`specs/Locals.antt`), with one list
//! of tasks (`specs/Tasks.antt`). That a path is settled at a bound is `Settled`, its size is `size`, and what it leaves of
//! a model's domains is `path_box`.
//!
//! What it promises: [`Local::step`] makes exactly the change of the move (`LocalSteps`), or changes nothing; it answers
//! `NotAllowed` exactly where no such change is possible. Three laws on sizes and one on boxes are public functions without
//! parameters.
//!
//! What it costs: a path of at most eight decisions needs no allocator. A `Local` stores once what the two sides of each
//! cut share, so its memory grows with the depth of the search and not with the square of it. A move of a depth-first
//! search finds its tasks among the newest and compares at most the length of its path; one that takes tasks away looks
//! at each task once.
//!
//! What it stands on: fzn_model for models and assignments, int_domain for the values of a set, smallvec for short paths,
//! thiserror.
#![tactic(auto)]

// Decisions and lists of them.
mod decision;
mod path;

// One worker's part of the search: what it can do, how its paths are kept, and the whole.
mod fault;
mod local;
mod moves;
mod stand;
mod tasks;
mod tree;

// What follows from the definitions alone.
mod laws;

pub use decision::Decision;
pub use fault::StepFault;
pub use laws::{
    an_assignment_lies_in_the_box_of_a_path_that_it_meets, met_paths_have_a_size, sizes_split,
    the_size_of_a_model_is_a_product,
};
pub use local::Local;
pub use moves::Move;
pub use path::Path;
pub use stand::Stand;
