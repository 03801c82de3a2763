//! Marks for the numbers from one up that stand in a list.
ghost use Rattle.std.specs.Prelude.{◌≡◌, ◌↔◌, ◌+◌, ◌<◌, ◌≤◌, ◌≤ℤ◌, ◌+ℤ◌, pos, length, take, IsTrue, slice_index_or};
ghost use Rattle.fzn_model.specs.Limits.{IsValue};
ghost use Rattle.table_prop.specs.Among.{IsBetween};
ghost use Rattle.table_prop.specs.Marks.{AreUnmarked, AreMarks};

/// Takes away the marks in the first places.
#[tactic(auto, using(crate::proofs::Marking::unmarked_none, crate::proofs::Marking::unmarked_more))]
fn clear_marks(marks: &mut [bool], count: usize)
    requires { count ≤ length marks.old }
    ensures { AreUnmarked count marks.new }
{
    for place in 0..count {
        marks[place] = false;
    }
}

/// Whether the number in a place lies between two others.
fn is_between(values: &[i64], at: usize, low: &i64, high: &i64) -> bool
    requires { at < length values.now }
    ensures { IsTrue result ↔ IsBetween low.now high.now (slice_index_or values.now at (pos 0)) }
{
    *low <= values[at] && values[at] <= *high
}

/// How far the number in a place is above another.
fn steps_above(values: &[i64], at: usize, low: &i64, high: &i64) -> usize
    requires at { at < length values.now }
    requires first { IsValue low.now }
    requires last { IsValue high.now }
    requires between { IsBetween low.now high.now (slice_index_or values.now at (pos 0)) }
    ensures { low.now +ℤ pos result ≡ slice_index_or values.now at (pos 0) }
{
    (values[at] - *low) as usize
}

/// Marks the number in a place, where it lies between the first and the last that have marks.
#[tactic(auto, using(crate::proofs::Marking::marks_pass, crate::proofs::Marking::marks_set))]
fn mark(values: &[i64], at: usize, low: &i64, high: &i64, count: usize, marks: &mut [bool])
    requires at { at < length values.now }
    requires first { IsValue low.now }
    requires last { IsValue high.now }
    requires count { low.now +ℤ pos count ≡ high.now +ℤ pos 1 }
    requires marks { AreMarks (take at values.now) low.now count marks.old }
    ensures { AreMarks (take (at + 1) values.now) low.now count marks.new }
{
    if !is_between(values, at, low, high) {
        return;
    }
    marks[steps_above(values, at, low, high)] = true;
}

/// Marks those of the numbers from one to another that stand in a list.
#[tactic(auto, using(crate::proofs::Marking::marks_none))]
pub(crate) fn put_marks(values: &[i64], low: &i64, high: &i64, count: usize, marks: &mut [bool])
    requires first { IsValue low.now }
    requires last { IsValue high.now }
    requires count { low.now +ℤ pos count ≡ high.now +ℤ pos 1 }
    requires room { count ≤ length marks.old }
    ensures { AreMarks values.now low.now count marks.new }
{
    clear_marks(marks, count);
    for at in 0..values.len() {
        mark(values, at, low, high, count, marks);
    }
}
