/// The type of a parameter.
#[derive(Clone, Copy, Debug, PartialEq, Eq)]
pub enum ParType {
    Bool,
    Int,
    Set,
}
