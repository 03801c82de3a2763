//! Constraints by name.
//!
//! What this layer is for: the one place that knows the names of constraints in a FlatZinc file. A name has a number;
//! by it a reader asks what each argument has to be and when the arguments may end, and then has the constraint built.
//!
//! What contracts see: a [`Builtin`] as its number, which is below the number of names; arguments, needs and shapes as
//! they are written. The names stand once, as data, in [`TABLE`] (`src/table.rt`), which contracts cite: one line a
//! name, with its needs and the [`Shape`] of its constraint. What each shape makes of its arguments is `constraint_of` in
//! `specs/Constraints.antt`, one case a shape.
//!
//! What it promises: [`find`] gives the number of exactly the names of the table, [`need`] and [`may_end`] say what the
//! table says, and [`build`] gives the constraint of the row, or refuses exactly the lengths that the row refuses. A
//! constraint that is built keeps the limits of a model where its arguments do. Beside the table stand laws:
//! [`names_mean`], what each name says of its arguments, in the words of the standard, a line a name
//! (`specs/Names.antt`), and [`arguments_are_read`], that all arguments that a constraint is made of are there
//! (`specs/Reading.antt`).
//!
//! What it stands on: `fzn_model`, whose constraints it builds.
#![tactic(auto)]

// The table: what is needed, how constraints are made, and all names.
mod needs;
mod shape;
mod table;

// Looking into the table.
mod arg;
mod builtin;
mod fitting;
mod laws;

// Making constraints, one family a file.
mod building;
mod copies;
mod fault;
mod linear;
mod lists;
mod logic;

pub use arg::Arg;
pub use building::build;
pub use builtin::{Builtin, find, may_end, need};
pub use fault::BuildFault;
pub use fitting::fits;
pub use laws::{arguments_are_read, global_names_match, names_mean, reified_names_match};
pub use needs::Need;
pub use shape::{Relation, Shape};
pub use table::{ROWS, Row, TABLE};
