ghost use Rattle.std.specs.Prelude.{◌≡◌, ◌<◌, All, length};
ghost use Rattle.entry_slab.specs.Entries.{counted};
ghost use Rattle.evictor.specs.Reports.{IsOneOfEight, IsScan, gone_in};
ghost use Rattle.evictor.specs.Readers.{Looked};
ghost use Rattle.evictor.specs.Puts.{IsStored};

use crate::cache::CachePass;
use crate::put::Put;
use crate::scan::{Scanned, scan};
use entry_slab::{Entry, Shelf};
use fzn_model::Rest;
use std::marker::Model;

/// A pass of a cache and a shelf for its entries. It counts lookups that hit, entries that were stored, and readings that
/// found nothing; each count stays at the greatest `u64`.
#[derive(Drop)]
pub struct Reader<H: Shelf> {
    pass: CachePass,
    shelf: H,
    hits: u64,
    stores: u64,
    gone: u64,
}

impl<H: Shelf> Model for Reader<H> {
    ghost use Rattle.evictor.specs.Readers.{ReaderParts};

    ghost Value = { ReaderParts };

    ghost view = { λ r. record { pass = r.pass; contents = H.contents r.shelf; refusals = H.refusals r.shelf; absences = H.absences r.shelf; hits = r.hits; stores = r.stores; gone = r.gone } };
}

impl<H: Shelf> Reader<H> {
    /// A reader whose counts are 0.
    pub fn new(pass: CachePass, shelf: H) -> Reader<H>
        ensures { result ≡ record { pass = pass; contents = H.contents shelf; refusals = H.refusals shelf; absences = H.absences shelf; hits = 0; stores = 0; gone = 0 } }
    {
        Reader {
            pass,
            shelf,
            hits: 0,
            stores: 0,
            gone: 0,
        }
    }

    /// The pass. The shelf is dropped.
    pub fn into_pass(self) -> CachePass
        ensures { result ≡ self.pass }
    {
        self.pass
    }

    /// How many lookups hit.
    pub fn hits(&self) -> u64
        ensures { result ≡ self.now.hits }
    {
        self.hits
    }

    /// How many entries were stored.
    pub fn stores(&self) -> u64
        ensures { result ≡ self.now.stores }
    {
        self.stores
    }

    /// How many readings found nothing.
    pub fn gone(&self) -> u64
        ensures { result ≡ self.now.gone }
    {
        self.gone
    }

    /// Reads the words at eight places in order, up to the first that leads to an entry that serves.
    pub(crate) fn look(&mut self, places: &[u32; 8], rest: &Rest, need: &i128) -> Scanned
        requires { All (λ place. place < self.old.pass.cache.ways) places.now }
        ensures eight { IsOneOfEight result }
        ensures scan { IsScan self.old.contents self.old.pass.words rest.now need.now places.now result }
        ensures looked { Looked (gone_in result) self.old self.new }
        ensures hits { self.new.hits ≡ self.old.hits }
        ensures count { length self.old.pass.words ≡ self.old.pass.cache.ways }
    {
        scan(
            self.pass.words(),
            places,
            &mut self.shelf,
            &mut self.gone,
            rest,
            need,
        )
    }

    /// Counts a lookup that hit.
    pub(crate) fn count_hit(&mut self)
        ensures { self.new ≡ record self.old { hits = counted self.old.hits } }
    {
        self.hits = self.hits.saturating_add(1);
    }

    /// Puts an entry on the shelf and its key into the place, and removes the entry whose key stood there.
    pub(crate) fn store(&mut self, place: u32, entry: Entry) -> Put
        requires { place < self.old.pass.cache.ways }
        ensures { IsStored place entry self.old result self.new }
    {
        let Ok(key) = self.shelf.put(entry) else {
            return Put::Refused;
        };
        let word = self.pass.swap(place, key + 1);
        if word != 0 {
            self.shelf.remove(word - 1);
        }
        self.stores = self.stores.saturating_add(1);
        Put::Stored(place)
    }
}
