//! Whether a term has one value alone.
ghost use Rattle.std.specs.Prelude.{◌↔◌, length, IsTrue};
ghost use Rattle.fzn_model.specs.Limits.{TermIn};
ghost use Rattle.fzn_model.specs.Bounds.{IsAt};

use dom_store::{Store, greatest, least};
use fzn_model::Term;

/// Whether a term has the value alone.
pub(crate) fn is_at(store: &Store, term: Term, value: &i64) -> bool
    requires { TermIn (length store.now.box) term }
    ensures { IsTrue result ↔ IsAt store.now.box term value.now }
{
    least(store, term) == *value && greatest(store, term) == *value
}
