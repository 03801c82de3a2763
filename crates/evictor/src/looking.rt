//! Lookups and publications.

ghost use Rattle.std.specs.Prelude.{◌≡◌, ◌↔◌, true, false, IfSome};
ghost use Rattle.evictor.specs.Looks.{IsLook};
ghost use Rattle.evictor.specs.Puts.{IsPut};
ghost use Rattle.evictor.specs.Tables.{KeepsTable, FindsExactly};
ghost use Rattle.evictor.specs.Standings.{LooksAt, PutsAt};

use crate::cache::Cache;
use crate::look::{Look, Missed};
use crate::places::{place_by_turn, places_by, places_of};
use crate::put::Put;
use crate::reader::Reader;
use crate::report::Report;
use crate::scan::Scanned;
use crate::storing::place_taken;
use entry_slab::{Entry, Shelf};
use fzn_model::Rest;

impl Cache {
    /// Looks up a residual problem: an entry that dominates it, with a bound of at least `need`, settles it at `need` plus its
    /// offset. Eight words are read, in the order of their places, up to the first that leads to such an entry. Takes no
    /// memory.
    pub fn lookup<'a, H: Shelf>(
        &self,
        reader: &mut Reader<H>,
        rest: &'a Rest,
        need: i128,
    ) -> Look<'a>
        requires { reader.old.pass.cache ≡ self.now }
        ensures look { IsLook rest.now need result reader.old reader.new }
        ensures stands { LooksAt rest.now need result reader.old reader.new }
        ensures cache { reader.new.pass.cache ≡ reader.old.pass.cache }
    {
        if self.ways == 0 {
            return Look::Miss(Missed {
                rest,
                need,
                reports: [Report::NoCache; 8],
                places: [0; 8],
            });
        }
        let places = places_of(self.ways, rest);
        match reader.look(&places, rest, &need) {
            Scanned::Served {
                bound,
                at,
                reports: _,
            } => {
                reader.count_hit();
                Look::Hit(bound, places[at])
            }
            Scanned::Unserved { reports } => Look::Miss(Missed {
                rest,
                need,
                reports,
                places,
            }),
        }
    }

    /// Publishes an entry, unless one that dominates its problem, with at least its bound, is there already. It goes to the
    /// first of its eight places whose entry dominates it with a lesser bound; else to the first that is empty or whose
    /// entry is gone; else to one by turn. The entry that stood there is removed from the shelf. It takes no memory but
    /// what the shelf takes.
    pub fn publish<H: Shelf>(&self, reader: &mut Reader<H>, entry: Entry) -> Put
        requires { reader.old.pass.cache ≡ self.now }
        ensures put { IsPut entry reader.old result reader.new }
        ensures table { KeepsTable result entry reader.old reader.new }
        ensures there { FindsExactly entry reader.old result }
        ensures stands { PutsAt entry result reader.old reader.new }
        ensures cache { reader.new.pass.cache ≡ reader.old.pass.cache }
    {
        if self.ways == 0 {
            return Put::Refused;
        }
        let (near, far) = (entry.near(), entry.far());
        let places = places_by(self.ways, near, far);
        match reader.look(&places, entry.rest(), &entry.bound()) {
            Scanned::Served {
                bound: _,
                at,
                reports: _,
            } => Put::AlreadyThere(places[at]),
            Scanned::Unserved { reports } => {
                let place = place_taken(&places, &reports, place_by_turn(self.ways, near, far));
                reader.store(place, entry)
            }
        }
    }
}
