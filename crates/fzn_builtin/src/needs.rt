/// What is needed in an argument's place: an int or a bool, a set of ints, or a list of ints or bools. In a place for
/// constants no variable may stand; a place for terms takes constants too.
#[derive(Clone, Copy, Debug, PartialEq, Eq)]
pub enum Need {
    IntConst,
    IntTerm,
    BoolTerm,
    SetConst,
    IntConsts,
    IntTerms,
    BoolConsts,
    BoolTerms,
}
