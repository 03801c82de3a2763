//! What follows from the definition of a right log.
ghost use Rattle.std.specs.Prelude.{ℕ, List, ℤ};
ghost use Rattle.std.specs.declared.option.Option.{Option};
ghost use Rattle.fzn_model.specs.Parts.{Parts};
ghost use Rattle.entry_slab.specs.Entries.{Bounded};
ghost use Rattle.search_core.specs.declared.decision.Decision.{Decision};
ghost use Rattle.search_core.specs.Paths.{Settled};
ghost use Rattle.run_log.specs.Texts.{Line};
ghost use Rattle.explorer.specs.RightLogs.{IsRightLog};

/// The path of a right log is settled at its bound: no solution on it costs less.
pub fn a_right_log_settles_its_path()
    ensures { (m : Parts) (limit ways : ℕ) (p : List Decision) (least : ℤ) (standing : List (Option Bounded)) (bound : ℤ) (lines : List Line) → IsRightLog m limit ways p least standing bound lines → Settled m p bound }
{}
