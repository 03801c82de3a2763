//! Propagation of a table: the values of the columns are one of the rows.
//!
//! What it is for: one [`TableProp`] narrows a store for one table.
//!
//! What contracts see: a propagator as its constraint.
//!
//! What it promises: what each propagator does. At `Kept`, each value of a column that is a variable with a bitmap, each
//! bound of one without, and each constant, stands in a row whose entries are all in the domains of their columns.
//!
//! What it costs: a pass reads each row until an entry is not in the domain of its column; then, for each column that isn't
//! fixed, it marks the entries of the rows that are left, and looks at the mark of each value of a variable with a bitmap.
//! The memory for the numbers of these rows, and for the entries of one column, stays for later passes.
//!
//! What it stands on: dom_store for stores and passes in a row, fzn_model for constraints.
#![tactic(auto)]

// Narrowings that leave a term the values of a list.
mod among;
mod marks;

// The rows that are possible, and the columns that they leave.
mod columns;
mod rows;

// A whole pass, and the propagator.
mod pass_table;
mod table_prop;

pub use table_prop::TableProp;
