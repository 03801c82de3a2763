ghost use Rattle.std.specs.Prelude.{◌≡◌};
ghost use Rattle.fzn_model.specs.Rests.{IsTrueEntry};
ghost use Rattle.entry_slab.specs.Entries.{near_digest, far_digest};

use fzn_model::Rest;
use rest_key::{far, near};
use std::marker::Model;

/// A residual problem and a bound, which is true: no solution of the problem costs less than the bound. It keeps both
/// digests of the problem, so that they needn't be computed again.
#[derive(Debug, Drop)]
pub struct Entry {
    rest: Rest,
    bound: i128,
    near: u64,
    far: u64,
}

impl Model for Entry {
    ghost use Rattle.std.specs.Prelude.{◌≡◌};
    ghost use Rattle.fzn_model.specs.Rests.{IsTrueEntry};
    ghost use Rattle.entry_slab.specs.Entries.{Bounded, near_digest, far_digest};

    ghost Value = { Bounded };

    ghost view = { λ e. record { rest = e.rest; bound = e.bound } };

    ghost invariant = { λ e. IsTrueEntry e.rest e.bound × (e.near ≡ near_digest e.rest) × (e.far ≡ far_digest e.rest) };
}

impl Entry {
    /// The entry of a residual problem and a bound that none of its solutions costs less than. Takes no memory; two steps
    /// a word of the problem.
    #[tactic(auto, unfolding(crate::specs::Entries::near_digest, crate::specs::Entries::far_digest))]
    pub fn new(rest: Rest, bound: i128) -> Entry
        requires { IsTrueEntry rest bound }
        ensures { result ≡ record { rest = rest; bound = bound } }
    {
        let (near, far) = (near(&rest), far(&rest));
        Entry {
            rest,
            bound,
            near,
            far,
        }
    }

    /// The residual problem.
    pub fn rest(&self) -> &Rest
        ensures { result.now ≡ self.now.rest }
    {
        &self.rest
    }

    /// The bound: no solution of the residual problem costs less.
    pub fn bound(&self) -> i128
        ensures bound { result ≡ self.now.bound }
        ensures truth { IsTrueEntry self.now.rest self.now.bound }
    {
        self.bound
    }

    /// The digest of all words of the residual problem.
    pub fn near(&self) -> u64
        ensures { result ≡ near_digest self.now.rest }
    {
        self.near
    }

    /// The digest of those words that dominating problems mostly share.
    pub fn far(&self) -> u64
        ensures { result ≡ far_digest self.now.rest }
    {
        self.far
    }
}
