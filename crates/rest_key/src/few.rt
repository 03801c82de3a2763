ghost use Rattle.std.specs.Prelude.{◌≡◌, ◌++◌, [], ◌∷◌};
ghost use Rattle.std.specs.Iterator.{YieldsFirst};
ghost use Rattle.rest_key.specs.Words.{term_words};
ghost use Rattle.rest_key.specs.WordsLeft.{few_words};

use fzn_model::Term;

/// Up to five words that are ready.
#[derive(Clone, Copy, Debug)]
pub(crate) enum Few {
    Zero,
    One(i128),
    Two(i128, i128),
    Three(i128, i128, i128),
    Four(i128, i128, i128, i128),
    Five(i128, i128, i128, i128, i128),
}

impl Few {
    /// Takes the first word.
    pub(crate) fn pop(&mut self) -> Option<i128>
        ensures { YieldsFirst few_words self.old result self.new }
    {
        match *self {
            Few::Zero => None,
            Few::One(a) => {
                *self = Few::Zero;
                Some(a)
            }
            Few::Two(a, b) => {
                *self = Few::One(b);
                Some(a)
            }
            Few::Three(a, b, c) => {
                *self = Few::Two(b, c);
                Some(a)
            }
            Few::Four(a, b, c, d) => {
                *self = Few::Three(b, c, d);
                Some(a)
            }
            Few::Five(a, b, c, d, e) => {
                *self = Few::Four(b, c, d, e);
                Some(a)
            }
        }
    }
}

/// The two words of a term.
pub(crate) fn pair(term: Term) -> (i128, i128)
    ensures { result.0 ∷ result.1 ∷ [] ≡ term_words term }
{
    match term {
        Term::Const(value) => (0, i128::from(value)),
        Term::Var(var) => (1, i128::from(var)),
    }
}

/// The six words of three terms, the first by itself.
pub(crate) fn of_three(first: Term, second: Term, third: Term) -> (i128, Few)
    ensures { result.0 ∷ few_words result.1 ≡ term_words first ++ term_words second ++ term_words third }
{
    let (a, b) = pair(first);
    let (c, d) = pair(second);
    let (e, f) = pair(third);
    (a, Few::Five(b, c, d, e, f))
}
