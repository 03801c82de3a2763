ghost use Rattle.fzn_parser.specs.Examples.{Examples};

/// Ten small files state the models that are written out beside them (`specs/Examples.antt`).
#[tactic(auto, using(crate::proofs::Examples::examples))]
pub fn examples_state_models()
    ensures { Examples }
{}
