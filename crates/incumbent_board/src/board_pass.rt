ghost use Rattle.std.specs.Prelude.{◌≡◌};
ghost use Rattle.incumbent_board.specs.Passes.{IsPass};

use std::marker::Model;

/// What one worker did to the words of a board, and what it saw there. Contracts see it as `Held` in
/// `specs/Passes.antt`. A board has one pass so far, the first, which holds the words themselves.
#[derive(Drop)]
pub struct BoardPass {
    pub(crate) budget: u64,
    pub(crate) room: u32,
    pub(crate) top: i64,
    pub(crate) credits: u64,
    pub(crate) spent: bool,
    pub(crate) best: i64,
    pub(crate) stops_budget: bool,
    pub(crate) stops_memory: bool,
    pub(crate) told_budget: bool,
    pub(crate) told_memory: bool,
}

impl Model for BoardPass {
    ghost use Rattle.std.specs.Prelude.{[], true, false};
    ghost use Rattle.incumbent_board.specs.Passes.{Held};
    ghost use Rattle.incumbent_board.specs.Kept.{IsKept};

    ghost Value = { Held };

    ghost view = { λ p. record {
      board = record { budget = p.budget; room = p.room; top = p.top };
      first = true;
      claims = [];
      none_left = false;
      credits = p.credits;
      spent = p.spent;
      least = p.best;
      seen = p.best;
      stops_budget = p.stops_budget;
      stops_memory = p.stops_memory;
      told_budget = p.told_budget;
      told_memory = p.told_memory;
      out = 0;
      splits = 0;
    } };

    ghost invariant = { λ p. IsKept p.budget p.top p.credits p.spent p.best p.stops_budget p.stops_memory p.told_budget p.told_memory };
}

impl BoardPass {
    /// How many passes were split off this one and not joined back. It also tells what is true of every pass.
    pub fn out(&self) -> u32
        ensures out { result ≡ self.now.out }
        ensures kept { IsPass self.now }
    {
        let _credits = &self.credits;
        0
    }
}
