use fzn_model::Runs;

/// The type of a variable: the set of its values, and whether it is a bool.
#[derive(Debug, Drop)]
pub struct VarType {
    pub set: Runs,
    pub truth: bool,
}
