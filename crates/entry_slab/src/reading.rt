ghost use Rattle.std.specs.Prelude.{◌≡◌};
ghost use Rattle.fzn_model.specs.Rests.{IsTrueEntry};
ghost use Rattle.entry_slab.specs.Readings.{Says};

use crate::entry::Entry;
use fzn_model::Rest;
use rest_key::dominates;

/// What reading the entry under a key says of a residual problem and of the bound that it needs.
#[derive(Clone, Copy, Debug, PartialEq, Eq)]
pub enum Reading {
    /// The entry dominates the problem, and its bound is at least the one needed.
    Hit(i128),
    /// The entry dominates the problem, and its bound is below the one needed.
    Weak(i128),
    /// The entry doesn't dominate the problem.
    Unlike,
    /// No entry was found under the key.
    Gone,
}

/// Reads an entry in place.
pub(crate) fn read(entry: &Entry, rest: &Rest, need: i128) -> Reading
    ensures says { Says rest.now need entry.now result }
    ensures truth { IsTrueEntry entry.now.rest entry.now.bound }
{
    let bound = entry.bound();
    if !dominates(entry.rest(), rest) {
        Reading::Unlike
    } else if bound >= need {
        Reading::Hit(bound)
    } else {
        Reading::Weak(bound)
    }
}
