ghost use Rattle.std.specs.Prelude.{[], ◌≡◌, ◌↔◌, ◌<◌, IsTrue, IfSome, length, map, position, slice_get, slice_index, slice_index_or};
ghost use Rattle.std.specs.Str.{bytes_eq};
ghost use Rattle.fzn_builtin.specs.Builtins.{numbered, needs_of, shape_of, IsArgumentCount};

use crate::needs::Need;
use crate::shape::Shape;
use crate::table::{ROWS, Row, TABLE};
use std::marker::Model;

/// A name of the table. Contracts see its number, which is below the number of names: they are counted from 0 in the
/// order of the table.
#[derive(Clone, Copy, Debug, PartialEq, Eq)]
pub struct Builtin {
    number: usize,
}

impl Model for Builtin {
    ghost use Rattle.std.specs.Prelude.{ℕ, ◌<◌};
    ghost use Rattle.fzn_builtin.specs.declared.table.TheConstants.{ROWS};

    ghost Value = { ℕ };

    ghost view = { λ builtin. builtin.number };

    ghost invariant = { λ builtin. builtin.number < ROWS };

    ghost inverse = { λ number. record { number = number } };
}

/// The place of the first row of the name.
fn place_of(rows: &[Row], name: &[u8]) -> Option<usize>
    ensures value { result ≡ position (λ row. bytes_eq row.0.now name.now) rows.now }
    ensures below { IfSome result (λ place. place < length rows.now) }
{
    rows.iter().position(|row| row.0 == name)
}

/// The name, if it is in the table. Takes no memory.
pub fn find(name: &[u8]) -> Option<Builtin>
    ensures { result ≡ numbered name.now }
{
    match place_of(&TABLE, name) {
        Some(number) => Some(Builtin { number }),
        None => None,
    }
}

fn needs_in(rows: &[Row], number: usize) -> &[Need]
    requires { number < length rows.now }
    ensures { result.now ≡ slice_index_or (map (λ row. row.1.now) rows.now) number [] }
{
    rows[number].1
}

fn least_in(rows: &[Row], number: usize) -> usize
    requires { number < length rows.now }
    ensures { result ≡ slice_index (map (λ row. row.2) rows.now) number }
{
    rows[number].2
}

fn shape_in(rows: &[Row], number: usize) -> Shape
    requires { number < length rows.now }
    ensures { result ≡ slice_index_or (map (λ row. row.3) rows.now) number Shape.Xor }
{
    rows[number].3
}

/// What the arguments have to be, place by place.
#[tactic(auto, unfolding(crate::specs::Builtins::needs_of))]
pub(crate) fn needs(builtin: Builtin) -> &'static [Need]
    ensures { result.now ≡ needs_of builtin }
{
    needs_in(&TABLE, builtin.number)
}

/// How the constraint is made.
#[tactic(auto, unfolding(crate::specs::Builtins::shape_of))]
pub(crate) fn shape(builtin: Builtin) -> Shape
    ensures value { result ≡ shape_of builtin }
    ensures below { builtin < ROWS }
{
    shape_in(&TABLE, builtin.number)
}

/// Whether so many arguments are a whole list.
#[tactic(auto, unfolding(crate::specs::Builtins::least_of))]
pub(crate) fn is_argument_count(builtin: Builtin, count: usize) -> bool
    ensures { IsTrue result ↔ IsArgumentCount builtin count }
{
    least_in(&TABLE, builtin.number) <= count && count <= needs(builtin).len()
}

/// What the argument in this place, from 0, has to be; none exactly past the last place. Takes no memory.
pub fn need(builtin: Builtin, place: u32) -> Option<Need>
    ensures { result ≡ slice_get (needs_of builtin) place }
{
    needs(builtin).get(place as usize).copied()
}

/// Whether so many arguments are a whole list. Takes no memory.
pub fn may_end(builtin: Builtin, count: u32) -> bool
    ensures { IsTrue result ↔ IsArgumentCount builtin count }
{
    is_argument_count(builtin, count as usize)
}
