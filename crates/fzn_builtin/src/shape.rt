use fzn_model::Rel;

/// A constraint that can be reified, by how it is made of arguments. `a`, `b` are the first two terms.
#[derive(Clone, Copy, Debug, PartialEq, Eq)]
pub enum Relation {
    /// `a - b` stands so to 0.
    Difference(Rel),
    /// `a - b` is at most -1.
    Below,
    /// Coefficients, terms, and the constant to which the sum of the products stands so.
    Sum(Rel),
    /// A list of positive and a list of negative literals.
    Disjunction,
    /// A term and a constant set.
    InSet,
}

/// How a constraint is made of the arguments of its name. Where `r` is spoken of, it is the last argument, a bool.
#[derive(Clone, Copy, Debug, PartialEq, Eq)]
pub enum Shape {
    /// The relation itself.
    Posted(Relation),
    /// The relation holds exactly where `r` is true.
    Reified(Relation),
    /// Two bools differ; with a third, exactly where it is true.
    Xor,
    /// `r` is true exactly where both bools are.
    BothTrue,
    /// `r` is true exactly where one of the two bools is.
    EitherTrue,
    /// `r` is true exactly where all bools of the list are.
    AllTrue,
    /// `r` is true exactly where some bool of the list is.
    AnyTrue,
    /// The first term and the second add up to the third.
    Plus,
    /// The product of two terms, and likewise below: the result comes last.
    Times,
    Quotient,
    Remainder,
    Absolute,
    /// The third term is the greater, or the lesser, of the first two.
    Larger,
    Smaller,
    /// The term is the greatest, or the least, of the list behind it.
    Largest,
    Smallest,
    /// The index from 1, the list, and the member at the index.
    Element,
    /// The terms of the list differ in pairs.
    Different,
    /// Starts, lengths, uses and the capacity.
    Cumulative,
    /// Terms, and rows of constants that stand one after the other.
    Rows,
}
