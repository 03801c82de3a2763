ghost use Rattle.std.specs.Prelude.{◌≡◌, ◌↔◌, ◌∷◌, ◌<◌, [], ℤ, List, IsTrue, IfSome, IfNone, Contains, length};
ghost use Rattle.fzn_model.specs.Boxes.{IsBox, domain_at, low_value, high_value};

/// A view of the domains of all variables, as a store has them at one moment. Contracts see it as the list of the
/// domains, each the rising list of its values: not empty, within -1,000,000..1,000,000, and without a gap where its
/// hull has more than 1,024 numbers. No call takes memory.
pub trait BoxView {
    /// The values of each variable, rising.
    ghost shape: { Self → List (List ℤ) };

    /// The least value of a variable.
    fn low(&self, var: u32) -> i64
        requires { var < length (shape self.now) }
        ensures value { result ≡ low_value (domain_at (shape self.now) var) }
        ensures well_formed { IsBox (shape self.now) };

    /// The greatest value of a variable.
    fn high(&self, var: u32) -> i64
        requires { var < length (shape self.now) }
        ensures value { result ≡ high_value (domain_at (shape self.now) var) }
        ensures well_formed { IsBox (shape self.now) };

    /// Whether the variable can have the value.
    fn has(&self, var: u32, value: i64) -> bool
        requires { var < length (shape self.now) }
        ensures value { IsTrue result ↔ Contains (domain_at (shape self.now) var) value }
        ensures well_formed { IsBox (shape self.now) };

    /// The only value of a variable, where it has one alone.
    fn fixed(&self, var: u32) -> Option<i64>
        requires { var < length (shape self.now) }
        ensures one { IfSome result (λ value. domain_at (shape self.now) var ≡ value ∷ []) }
        ensures open { IfNone result (1 < length (domain_at (shape self.now) var)) }
        ensures well_formed { IsBox (shape self.now) };

    /// How many values a variable has.
    fn size(&self, var: u32) -> u64
        requires { var < length (shape self.now) }
        ensures value { result ≡ length (domain_at (shape self.now) var) }
        ensures well_formed { IsBox (shape self.now) };
}
