//! Propagation of one kind of constraint: the member of a list, in the place that an index gives, has the value of a term.
//!
//! What it is for: [`ElementProp`] narrows a store for `Con::Element(index, members, chosen)`. The index counts from 1; where
//! it is outside the list, the constraint is false.
//!
//! What contracts see: the propagator as its constraint.
//!
//! What it promises: what each `Propagator` does. Where it answers `Kept`, each value of the index that is looked at has a
//! member whose hull meets that of the chosen term, whose bounds lie in the hull of the members that the index can have
//! (`ElementIsStrong` of dom_store); and where all terms are fixed, the constraint holds. A pass that removes nothing also
//! leaves the member of a fixed index within the hull of the chosen term, so that both have the same bounds.
//!
//! What it costs: no memory but that of the list. A pass goes twice over the places between the bounds of the index, and
//! from the last of these down to the first that stays.
//!
//! What it stands on: dom_store for stores and terms, fzn_model for constraints.
#![tactic(auto)]

// A term between two numbers, and the index between the numbers of places.
mod between;
mod index;

// The parts of a pass, and a whole pass.
mod ends;
mod pass_element;
mod places;

// The propagator.
mod element_prop;

pub use element_prop::ElementProp;
