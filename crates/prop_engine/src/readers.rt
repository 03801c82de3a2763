//! Which propagators read a variable: those whose constraints name it. A propagator is given by its place among the
//! constraints, from 0, and a variable by its number, which is the place of its list of readers. Those that hear of each
//! change of a variable stand apart from those that hear of fixed variables alone.
ghost use Rattle.std.specs.Prelude.{◌≡◌, ◌<◌, ◌≤◌, ◌∷◌, ◌++◌, [], map, All, Contains, IsTrue, IsFalse, IfOk, OnOk, length, replicate, slice_index_or, slice_set};
ghost use Rattle.fzn_model.specs.Limits.{TermIn, BaseInLimits, ConInLimits, of_model};
ghost use Rattle.fzn_model.specs.Named.{base_terms, con_terms};
ghost use Rattle.prop_engine.specs.Events.{con_event};
ghost use Rattle.prop_engine.specs.Readers.{Reads, IsNotLast, IsNoted, Notes, NotesFor, AreRead, TaskIn};

use crate::event::{Event, event_of};
use crate::flat_lists::FlatLists;
use fzn_model::{Base, Con, CumTask, List, Term};
use std::alloc::{AllocError, Global};

/// For each variable the places of the propagators that read it, none of them twice.
#[derive(Drop)]
pub(crate) struct Readers {
    /// Those that hear of each change of its domain.
    pub(crate) changed: FlatLists,
    /// Those that hear of fixed variables alone.
    pub(crate) fixed: FlatLists,
}

/// Whether the last of some numbers is this one.
#[tactic(auto, unfolding(crate::specs::Readers::IsNotLast))]
fn ends_in(numbers: &[u32], at: u32) -> bool
    ensures last { IsTrue result → Contains numbers.now at }
    ensures not_last { IsFalse result → IsNotLast numbers.now at }
{
    match numbers.last() {
        Some(last) => *last == at,
        None => false,
    }
}

/// Whether the last reader of a variable is this propagator.
fn was_last(readers: &[List<u32>], var: u32, at: u32) -> bool
    requires { var < length readers.now }
    ensures last { IsTrue result → Reads readers.now var at }
    ensures not_last { IsFalse result → IsNotLast (slice_index_or readers.now var []) at }
{
    ends_in(readers[var as usize].as_slice(), at)
}

/// Puts a propagator behind the readers of a variable.
fn put_last(readers: &mut [List<u32>], var: u32, at: u32) -> Result<(), AllocError>
    requires { var < length readers.old }
    ensures { OnOk result (readers.new ≡ slice_set readers.old var (slice_index_or readers.old var [] ++ at ∷ [])) }
{
    readers[var as usize].push(at)?;
    Ok(())
}

/// Notes a propagator for a variable. Nothing is to be done where it is the last reader already, so that a propagator
/// that is noted for all its terms before the next one is noted once for each variable.
#[tactic(auto, using(crate::proofs::Noting::noted_before, crate::proofs::Noting::noted_last))]
fn note(readers: &mut [List<u32>], var: u32, at: u32) -> Result<(), AllocError>
    requires { var < length readers.old }
    ensures { OnOk result (IsNoted var at readers.old readers.new) }
{
    if was_last(readers, var, at) {
        return Ok(());
    }
    put_last(readers, var, at)
}

/// Notes a propagator for a term.
#[tactic(auto, using(crate::proofs::Noting::notes_const, crate::proofs::Noting::notes_var))]
fn note_term(readers: &mut [List<u32>], term: Term, at: u32) -> Result<(), AllocError>
    requires { TermIn (length readers.old) term }
    ensures { OnOk result (Notes (term ∷ []) at readers.old readers.new) }
{
    match term {
        Term::Const(_) => Ok(()),
        Term::Var(var) => note(readers, var, at),
    }
}

/// Notes a propagator for terms.
#[tactic(auto, using(crate::proofs::Noting::notes_none, crate::proofs::Noting::notes_more, crate::proofs::Noting::notes_all))]
fn note_terms(readers: &mut [List<u32>], terms: &[Term], at: u32) -> Result<(), AllocError>
    requires { All (TermIn (length readers.old)) terms.now }
    ensures { OnOk result (Notes terms.now at readers.old readers.new) }
{
    for term in terms {
        note_term(readers, *term, at)?;
    }
    Ok(())
}

/// Notes a propagator for terms, and more terms.
#[tactic(auto, using(crate::proofs::Noting::notes_then))]
fn note_both(
    readers: &mut [List<u32>],
    first: &[Term],
    second: &List<Term>,
    at: u32,
) -> Result<(), AllocError>
    requires first { All (TermIn (length readers.old)) first.now }
    requires second { All (TermIn (length readers.old)) second.now }
    ensures { OnOk result (Notes (first.now ++ second.now) at readers.old readers.new) }
{
    note_terms(readers, first, at)?;
    note_terms(readers, second.as_slice(), at)?;
    Ok(())
}

/// Notes a propagator for the terms of a sum.
#[tactic(auto, using(crate::proofs::Noting::notes_none, crate::proofs::Noting::parts_all))]
fn note_parts(readers: &mut [List<u32>], parts: &[(i64, Term)], at: u32) -> Result<(), AllocError>
    requires { All (λ p. TermIn (length readers.old) p.1) parts.now }
    ensures { OnOk result (Notes (map (λ p. p.1) parts.now) at readers.old readers.new) }
{
    for part in parts {
        note_term(readers, part.1, at)?;
    }
    Ok(())
}

/// Notes a propagator for two terms.
#[tactic(auto, using(crate::proofs::Noting::notes_front))]
fn note_two(readers: &mut [List<u32>], a: Term, b: Term, at: u32) -> Result<(), AllocError>
    requires a { TermIn (length readers.old) a }
    requires b { TermIn (length readers.old) b }
    ensures { OnOk result (Notes (a ∷ b ∷ []) at readers.old readers.new) }
{
    note_term(readers, a, at)?;
    note_term(readers, b, at)?;
    Ok(())
}

/// Notes a propagator for three terms.
#[tactic(auto, using(crate::proofs::Noting::notes_front))]
fn note_three(
    readers: &mut [List<u32>],
    a: Term,
    b: Term,
    c: Term,
    at: u32,
) -> Result<(), AllocError>
    requires a { TermIn (length readers.old) a }
    requires b { TermIn (length readers.old) b }
    requires c { TermIn (length readers.old) c }
    ensures { OnOk result (Notes (a ∷ b ∷ c ∷ []) at readers.old readers.new) }
{
    note_term(readers, a, at)?;
    note_two(readers, b, c, at)?;
    Ok(())
}

/// Notes a propagator for the starts, the lengths and the uses of tasks.
#[tactic(auto, using(crate::proofs::Noting::tasks_none))]
fn note_tasks(readers: &mut [List<u32>], tasks: &[CumTask], at: u32) -> Result<(), AllocError>
    requires { All (TaskIn (length readers.old)) tasks.now }
    ensures { OnOk result (Notes (map (λ k. k.s) tasks.now ++ map (λ k. k.d) tasks.now ++ map (λ k. k.r) tasks.now) at readers.old readers.new) }
{
    for task in tasks {
        note_three(readers, task.s, task.d, task.r, at)?;
    }
    Ok(())
}

/// Notes a propagator for a capacity, and the terms of tasks.
#[tactic(auto, using(crate::proofs::Noting::notes_front))]
fn note_cumulative(
    readers: &mut [List<u32>],
    tasks: &List<CumTask>,
    limit: Term,
    at: u32,
) -> Result<(), AllocError>
    requires limit { TermIn (length readers.old) limit }
    requires tasks { All (TaskIn (length readers.old)) tasks.now }
    ensures { OnOk result (Notes (limit ∷ (map (λ k. k.s) tasks.now ++ map (λ k. k.d) tasks.now ++ map (λ k. k.r) tasks.now)) at readers.old readers.new) }
{
    note_term(readers, limit, at)?;
    note_tasks(readers, tasks.as_slice(), at)?;
    Ok(())
}

/// Notes a propagator for the terms of a base.
#[tactic(auto, using(crate::proofs::Noting::sum_in))]
fn note_base(readers: &mut [List<u32>], base: &Base, at: u32) -> Result<(), AllocError>
    requires { BaseInLimits of_model (length readers.old) base.now }
    ensures { OnOk result (Notes (base_terms base.now) at readers.old readers.new) }
{
    match base {
        Base::Lin(lin) => note_parts(readers, lin.terms.as_slice(), at),
        Base::Clause(clause) => note_both(readers, clause.pos.as_slice(), &clause.neg, at),
        Base::Member(member) => note_term(readers, member.x, at),
    }
}

/// Notes a propagator for the term of a reified base, and its terms.
#[tactic(auto, using(crate::proofs::Noting::notes_front))]
fn note_reified(
    readers: &mut [List<u32>],
    base: &Base,
    truth: Term,
    at: u32,
) -> Result<(), AllocError>
    requires base { BaseInLimits of_model (length readers.old) base.now }
    requires truth { TermIn (length readers.old) truth }
    ensures { OnOk result (Notes (truth ∷ base_terms base.now) at readers.old readers.new) }
{
    note_term(readers, truth, at)?;
    note_base(readers, base, at)?;
    Ok(())
}

/// Notes a propagator for a term, and those of a list.
#[tactic(auto, using(crate::proofs::Noting::notes_front))]
fn note_list(
    readers: &mut [List<u32>],
    term: Term,
    terms: &List<Term>,
    at: u32,
) -> Result<(), AllocError>
    requires term { TermIn (length readers.old) term }
    requires terms { All (TermIn (length readers.old)) terms.now }
    ensures { OnOk result (Notes (term ∷ terms.now) at readers.old readers.new) }
{
    note_term(readers, term, at)?;
    note_terms(readers, terms.as_slice(), at)?;
    Ok(())
}

/// Notes a propagator for an index, a chosen term, and those of a list.
#[tactic(auto, using(crate::proofs::Noting::notes_front))]
fn note_element(
    readers: &mut [List<u32>],
    index: Term,
    terms: &List<Term>,
    chosen: Term,
    at: u32,
) -> Result<(), AllocError>
    requires index { TermIn (length readers.old) index }
    requires terms { All (TermIn (length readers.old)) terms.now }
    requires chosen { TermIn (length readers.old) chosen }
    ensures { OnOk result (Notes (index ∷ chosen ∷ terms.now) at readers.old readers.new) }
{
    note_term(readers, index, at)?;
    note_list(readers, chosen, terms, at)?;
    Ok(())
}

/// Notes a propagator for the variables of its constraint.
#[tactic(auto, using(crate::proofs::Noting::tasks_in))]
fn note_con(readers: &mut [List<u32>], con: &Con, at: u32) -> Result<(), AllocError>
    requires { ConInLimits of_model (length readers.old) con.now }
    ensures { OnOk result (Notes (con_terms con.now) at readers.old readers.new) }
{
    match con {
        Con::Base(base) => note_base(readers, base, at),
        Con::Reif(base, truth, _) => note_reified(readers, base, *truth, at),
        Con::Times(a, b, c) => note_three(readers, *a, *b, *c, at),
        Con::Abs(a, b) => note_two(readers, *a, *b, at),
        Con::Div(a, b, c) => note_three(readers, *a, *b, *c, at),
        Con::Mod(a, b, c) => note_three(readers, *a, *b, *c, at),
        Con::Greatest(m, terms) => note_list(readers, *m, terms, at),
        Con::Least(m, terms) => note_list(readers, *m, terms, at),
        Con::Element(index, terms, c) => note_element(readers, *index, terms, *c, at),
        Con::AllDiffExcept(terms, _) => note_terms(readers, terms.as_slice(), at),
        Con::CumulUsed(tasks, _, limit) => note_cumulative(readers, tasks, *limit, at),
        Con::Table(terms, _) => note_terms(readers, terms.as_slice(), at),
    }
}

/// Notes a propagator for the variables of its constraint, among those that hear of the same event.
#[tactic(auto, using(crate::proofs::Noting::notes_changed, crate::proofs::Noting::notes_fixed))]
fn note_heard(
    changed: &mut [List<u32>],
    fixed: &mut [List<u32>],
    con: &Con,
    at: u32,
) -> Result<(), AllocError>
    requires changed { ConInLimits of_model (length changed.old) con.now }
    requires fixed { ConInLimits of_model (length fixed.old) con.now }
    ensures { OnOk result (NotesFor (con_event con.now) (con_terms con.now) at (record { changed = changed.old; fixed = fixed.old }) (record { changed = changed.new; fixed = fixed.new })) }
{
    match event_of(con) {
        Event::Changed => note_con(changed, con, at),
        Event::Fixed => note_con(fixed, con, at),
    }
}

/// An empty list for each variable.
fn no_readers(alloc: Global, count: usize) -> Result<Vec<List<u32>>, AllocError>
    ensures { IfOk result (λ readers. readers.items ≡ replicate count []) }
{
    let mut readers = Vec::with_capacity(alloc, count)?;
    for _made in 0..count {
        readers.push(List::new(alloc))?;
    }
    Ok(readers)
}

/// Notes each propagator for the variables of its constraint.
#[tactic(auto, using(crate::proofs::Noting::read_more))]
fn note_cons(
    changed: &mut [List<u32>],
    fixed: &mut [List<u32>],
    cons: &[Con],
) -> Result<(), AllocError>
    requires few { length cons.now ≤ 4000000000 }
    requires changed { All (ConInLimits of_model (length changed.old)) cons.now }
    requires fixed { All (ConInLimits of_model (length fixed.old)) cons.now }
    requires none { AreRead cons.now 0 (record { changed = changed.old; fixed = fixed.old }) }
    ensures { OnOk result (AreRead cons.now (length cons.now) (record { changed = changed.new; fixed = fixed.new })) }
{
    for (at, con) in cons.iter().enumerate() {
        note_heard(changed, fixed, con, at as u32)?;
    }
    Ok(())
}

/// For each of `count` variables the places of the propagators that read it.
#[tactic(auto, using(crate::proofs::Noting::read_none))]
pub(crate) fn readers_of(alloc: Global, cons: &[Con], count: usize) -> Result<Readers, AllocError>
    requires few { length cons.now ≤ 4000000000 }
    requires kept { All (ConInLimits of_model count) cons.now }
    ensures { IfOk result (λ readers. AreRead cons.now (length cons.now) readers) }
{
    let mut changed = no_readers(alloc, count)?;
    let mut fixed = no_readers(alloc, count)?;
    note_cons(changed.as_mut_slice(), fixed.as_mut_slice(), cons)?;
    Ok(Readers {
        changed: FlatLists::new(alloc, changed.as_slice())?,
        fixed: FlatLists::new(alloc, fixed.as_slice())?,
    })
}
