ghost use Rattle.std.specs.Prelude.{◌≡◌, ◌+◌, ◌^◌, ◌<◌, ◌≤◌, ◌≤ℤ◌, true, IfOk, IfSome, IfNone};
ghost use Rattle.std.specs.Int.{int_min};
ghost use Rattle.fzn_model.specs.Limits.{IsValue};
ghost use Rattle.incumbent_board.specs.Passes.{IsBound, SamePass, IsAlone, first_pass, stopped_by, told, why_of, MayHear, Ends};

use crate::board_pass::BoardPass;
use crate::credit::Credit;
use crate::totals::Totals;
use crate::why::Why;
use std::alloc::{AllocError, Global};
use std::marker::Model;

/// The words that the workers of a search share. Contracts see what it was made with, as `Facts` in
/// `specs/Passes.antt`; what was done to the words is seen in the passes. Each call has the condition that its pass is
/// of this board. Only `new` takes memory, and no call waits.
#[derive(Drop)]
pub struct Board {
    budget: u64,
    room: u32,
    top: i64,
}

impl Model for Board {
    ghost use Rattle.incumbent_board.specs.Passes.{Facts};

    ghost Value = { Facts };

    ghost view = { λ b. record { budget = b.budget; room = b.room; top = b.top } };
}

/// Why to stop, by the two bits.
fn reason(budget: bool, memory: bool) -> Option<Why>
    ensures { result ≡ why_of budget memory }
{
    if memory {
        Some(Why::Memory)
    } else if budget {
        Some(Why::Budget)
    } else {
        None
    }
}

impl Board {
    /// A board with that many credits (at most 2^60) and that many numbers to claim, and its first pass. `top` is more
    /// than each cost to come.
    pub fn new(
        alloc: Global,
        budget: u64,
        claims: u32,
        top: i64,
    ) -> Result<(Board, BoardPass), AllocError>
        requires budget { budget ≤ 2 ^ 60 }
        requires top { IsBound top }
        ensures board { IfOk result (λ made. made.0 ≡ record { budget = budget; room = claims; top = top }) }
        ensures pass { IfOk result (λ made. made.1 ≡ first_pass made.0) }
    {
        let _ = alloc;
        let board = Board {
            budget,
            room: claims,
            top,
        };
        let pass = BoardPass {
            budget,
            room: claims,
            top,
            credits: 0,
            spent: false,
            best: top,
            stops_budget: false,
            stops_memory: false,
            told_budget: false,
            told_memory: false,
        };
        Ok((board, pass))
    }

    /// A credit, where the budget has one left.
    pub fn draw(&self, pass: &mut BoardPass) -> Option<Credit>
        requires { pass.old.board ≡ self.now }
        ensures same { SamePass pass.old pass.new }
        ensures some { IfSome result (λ _. pass.new ≡ record pass.old { credits = pass.old.credits + 1 }) }
        ensures left { IfSome result (λ _. pass.old.credits < self.now.budget) }
        ensures none { IfNone result (pass.new ≡ record pass.old { spent = true }) }
        ensures alone { IsAlone pass.old → IfNone result (pass.old.credits ≡ self.now.budget) }
    {
        if pass.credits < self.budget {
            pass.credits += 1;
            Some(Credit { one: () })
        } else {
            pass.spent = true;
            None
        }
    }

    /// Offers the cost of a solution.
    pub fn offer(&self, pass: &mut BoardPass, cost: i64)
        requires own { pass.old.board ≡ self.now }
        requires cost { IsValue cost }
        ensures { pass.new ≡ record pass.old { least = int_min pass.old.least cost; seen = int_min pass.old.seen cost } }
    {
        pass.best = pass.best.min(cost);
    }

    /// The least of the top and of some costs that were offered, at most what the pass offered or saw before.
    pub fn best(&self, pass: &mut BoardPass) -> i64
        requires { pass.old.board ≡ self.now }
        ensures seen { pass.new ≡ record pass.old { seen = result } }
        ensures low { result ≤ℤ pass.old.seen }
        ensures top { result ≤ℤ self.now.top }
        ensures alone { IsAlone pass.old → result ≡ pass.old.least }
    {
        pass.best
    }

    /// Tells all workers to stop, and why.
    pub fn stop(&self, pass: &mut BoardPass, why: Why)
        requires { pass.old.board ≡ self.now }
        ensures same { SamePass pass.old pass.new }
        ensures set { pass.new ≡ stopped_by why pass.old }
    {
        match why {
            Why::Budget => pass.stops_budget = true,
            Why::Memory => pass.stops_memory = true,
        }
    }

    /// Why to stop, if at all; want of memory where both reasons were given.
    pub fn stopped(&self, pass: &mut BoardPass) -> Option<Why>
        requires { pass.old.board ≡ self.now }
        ensures same { SamePass pass.old pass.new }
        ensures told { pass.new ≡ told result pass.old }
        ensures known { MayHear result pass.old }
        ensures alone { IsAlone pass.old → result ≡ why_of pass.old.stops_budget pass.old.stops_memory }
    {
        let why = reason(pass.stops_budget, pass.stops_memory);
        match why {
            Some(Why::Budget) => pass.told_budget = true,
            Some(Why::Memory) => pass.told_memory = true,
            None => {}
        }
        why
    }

    /// Ends the board, whose other passes were all joined into this one.
    pub fn finish(self, pass: BoardPass) -> Totals
        requires own { pass.board ≡ self }
        requires alone { IsAlone pass }
        ensures { Ends pass result }
    {
        Totals {
            credits: pass.credits,
            best: pass.best,
            why: reason(pass.stops_budget, pass.stops_memory),
        }
    }
}
