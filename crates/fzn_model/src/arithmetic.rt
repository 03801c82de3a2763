ghost use Rattle.std.specs.Prelude.{◌≡◌, ◌↔◌, ◌*ℤ◌, IsTrue, pos, int_div, int_rem, unsigned_abs};

fn product(a: i64, b: i64) -> i128
    ensures { result ≡ a *ℤ b }
{
    i128::from(a) * i128::from(b)
}

fn quotient(a: i64, b: i64) -> i128
    requires { b ≡ pos 0 → ⊥ }
    ensures { result ≡ int_div a b }
{
    i128::from(a) / i128::from(b)
}

fn remainder(a: i64, b: i64) -> i64
    requires { b ≡ pos 0 → ⊥ }
    ensures { result ≡ int_rem a b }
{
    a.wrapping_rem(b)
}

/// Whether `a * b = c`.
pub(crate) fn times_holds(a: i64, b: i64, c: i64) -> bool
    ensures { IsTrue result ↔ (a *ℤ b ≡ c) }
{
    product(a, b) == i128::from(c)
}

/// Whether `b` is `a` without its sign.
pub(crate) fn abs_holds(a: i64, b: i64) -> bool
    ensures { IsTrue result ↔ (b ≡ pos (unsigned_abs a)) }
{
    i128::from(b) == i128::from(a.unsigned_abs())
}

/// Whether `b` isn't 0 and `c` is `a / b`, rounded towards zero.
pub(crate) fn div_holds(a: i64, b: i64, c: i64) -> bool
    ensures { IsTrue result ↔ ((b ≡ pos 0 → ⊥) × (c ≡ int_div a b)) }
{
    b != 0 && i128::from(c) == quotient(a, b)
}

/// Whether `b` isn't 0 and `c` is what division leaves, with the sign of `a`.
pub(crate) fn mod_holds(a: i64, b: i64, c: i64) -> bool
    ensures { IsTrue result ↔ ((b ≡ pos 0 → ⊥) × (c ≡ int_rem a b)) }
{
    b != 0 && c == remainder(a, b)
}
