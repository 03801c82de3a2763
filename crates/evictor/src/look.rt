ghost use Rattle.std.specs.Prelude.{◌≡◌};

use crate::report::Report;
use fzn_model::Rest;
use std::marker::Model;

/// What a lookup found.
pub enum Look<'a> {
    /// An entry serves: its bound, and the place of its key.
    Hit(i128, u32),
    /// None of the eight words led to one that serves.
    Miss(Missed<'a>),
}

/// The right to expand a node whose residual problem was looked up and missed. It names the problem and the bound that it
/// needs. It can't be copied or dropped: it has to be spent.
pub struct Missed<'a> {
    pub(crate) rest: &'a Rest,
    pub(crate) need: i128,
    pub(crate) reports: [Report; 8],
    pub(crate) places: [u32; 8],
}

impl<'a> Model for Missed<'a> {
    ghost use Rattle.evictor.specs.Misses.{MissedParts};

    ghost Value = { MissedParts };

    ghost view = { λ m. record { rest = m.rest.now; need = m.need; reports = m.reports; places = m.places } };
}

impl<'a> Missed<'a> {
    /// A report for each word that was loaded, in order; `NoCache` eight times where the cache has no words.
    pub fn reports(&self) -> [Report; 8]
        ensures { result ≡ self.now.reports }
    {
        self.reports
    }

    /// The places of the words; 0 eight times where the cache has none.
    pub fn places(&self) -> [u32; 8]
        ensures { result ≡ self.now.places }
    {
        self.places
    }

    /// Ends it and does nothing else.
    pub fn spend(self) {
        let Missed {
            rest: _,
            need: _,
            reports: _,
            places: _,
        } = self;
    }
}
