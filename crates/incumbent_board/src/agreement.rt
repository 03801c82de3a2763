ghost use Rattle.std.specs.Prelude.{◌≡◌};
ghost use Rattle.fzn_model.specs.Parts.{Parts};
ghost use Rattle.incumbent_board.specs.declared.answer.Answer.{Answer};
ghost use Rattle.incumbent_board.specs.Right.{Right, IsDecided};
ghost use Rattle.incumbent_board.specs.Verdict.{Verdict, IsVerdict, SaysVerdict};

/// The law of right answers: each that is decided says what listing all assignments would say, and that is one verdict, so
/// that any two of them agree.
pub fn right_answers_agree()
    ensures verdict { (m : Parts) (a : Answer) → Right m a → IsDecided a → SaysVerdict m a }
    ensures one { (m : Parts) (v w : Verdict) → IsVerdict m v → IsVerdict m w → v ≡ w }
{}
