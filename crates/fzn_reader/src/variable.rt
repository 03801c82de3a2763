//! `var vartype : name {:: ann} [= expr]`
ghost use Rattle.std.specs.Prelude.{◌≡◌, ◌<◌, ◌+◌, ◌*◌, ◌++◌, ◌∷◌, [], true, Bool, length, None, IfOk, IfErr, IfSome, OnOk, pos, List, ℤ};
ghost use Rattle.fzn_model.specs.Limits.{TermIn, DomainInLimits};
ghost use Rattle.fzn_reader.specs.declared.parse_fault.ParseFault.TheVariants as fault;
ghost use Rattle.fzn_reader.specs.Names.{find_name};
ghost use Rattle.fzn_reader.specs.Drafts.{is_wide, hull, member_of, with_domain, variable_of, equals_of, with_value, out_of, with_out, with_var};
ghost use Rattle.fzn_reader.specs.Answers.{Agrees, Gives};
ghost use Rattle.fzn_reader.specs.Invariants.{SetKept, DeclKept, IsVarType};
ghost use Rattle.fzn_reader.specs.Items.{term_need, initialiser_at, variable_at};

use crate::decl::Decl;
use crate::draft::Draft;
use crate::outputs::variable_anns;
use crate::parse_fault::ParseFault;
use crate::reader::Reader;
use crate::refused::Refused;
use crate::scalar::{Scalar, read_scalar};
use crate::types::{new_name, vartype};
use crate::var_type::VarType;
use fzn_model::{Base, Con, Lin, List, Member, Out, Rel, Runs, Term};
use std::alloc::{AllocError, Global};

/// Whether the set has a gap and a hull of more than 1,024 numbers.
fn is_wide(set: &Runs) -> bool
    requires { SetKept set.now }
    ensures { result ≡ is_wide set.now }
{
    set.runs.as_slice().len() > 1 && set.high() - set.low() >= 1024
}

/// The range from the least number to the greatest.
fn hull(alloc: Global, set: &Runs) -> Result<Runs, AllocError>
    requires { 0 < length set.now }
    ensures { IfOk result (λ dom. dom ≡ hull set.now) }
{
    let mut runs = List::new(alloc);
    runs.push((set.low(), set.high()))?;
    Ok(Runs { runs })
}

fn member_of(var: u32, set: Runs) -> Con
    ensures { result ≡ member_of var set }
{
    Con::Base(Base::Member(Member {
        x: Term::Var(var),
        set,
    }))
}

fn equals_of(alloc: Global, var: u32, value: Term) -> Result<Con, AllocError>
    ensures { IfOk result (λ c. c ≡ equals_of var value) }
{
    let mut terms = List::new(alloc);
    terms.push((1, Term::Var(var)))?;
    terms.push((-1, value))?;
    Ok(Con::Base(Base::Lin(Lin {
        rel: Rel::Eq,
        terms,
        r: 0,
    })))
}

fn variable_of(truth: bool, var: u32) -> Decl
    ensures { result ≡ variable_of truth var }
{
    if truth {
        Decl::Bool(Term::Var(var))
    } else {
        Decl::Int(Term::Var(var))
    }
}

fn out_of(alloc: Global, name: &[u8], truth: bool, var: u32) -> Result<Out, AllocError>
    ensures { IfOk result (λ o. o ≡ out_of name.now truth var) }
{
    let mut terms = List::new(alloc);
    terms.push(Term::Var(var))?;
    Ok(Out {
        name: List::from_vec(Vec::from_slice(alloc, name)?),
        dims: List::new(alloc),
        terms,
        truth,
    })
}

/// The hull as a domain, and the constraint that the variable is a member of the set.
#[tactic(auto, using(crate::proofs::VariableLemmas::member_fits, crate::proofs::VariableLemmas::hull_kept, crate::proofs::VariableLemmas::wide_kept, crate::proofs::VariableLemmas::room_more, crate::proofs::VariableLemmas::wide_some))]
fn add_wide(alloc: Global, draft: &mut Draft, set: Runs) -> Result<(), ParseFault>
    requires room { length draft.old.doms < 100000 }
    requires kept { SetKept set }
    requires wide { is_wide set ≡ true }
    ensures value { OnOk result (draft.new ≡ with_domain draft.old set) }
    ensures room { OnOk result (length draft.new.cons < draft.new.items + 2 * length draft.new.doms) }
    ensures decl { OnOk result ((truth : Bool) → (truth ≡ true → set ≡ (pos 0, pos 1) ∷ []) → DeclKept draft.new.doms (variable_of truth (length draft.old.doms))) }
    ensures err { IfErr result (λ e. e ≡ fault.NoMemory) }
{
    let var = draft.var_count();
    draft.add_dom(hull(alloc, &set)?)?;
    draft.add_con(member_of(var, set))?;
    Ok(())
}

/// The domain of one variable more.
#[tactic(auto, using(crate::proofs::VariableLemmas::narrow_kept, crate::proofs::VariableLemmas::variable_kept, crate::proofs::VariableLemmas::room_dom))]
fn add_domain(alloc: Global, draft: &mut Draft, set: Runs) -> Result<(), ParseFault>
    requires room { length draft.old.doms < 100000 }
    requires kept { SetKept set }
    ensures value { OnOk result (draft.new ≡ with_domain draft.old set) }
    ensures room { OnOk result (length draft.new.cons < draft.new.items + 2 * length draft.new.doms) }
    ensures decl { OnOk result ((truth : Bool) → (truth ≡ true → set ≡ (pos 0, pos 1) ∷ []) → DeclKept draft.new.doms (variable_of truth (length draft.old.doms))) }
    ensures err { IfErr result (λ e. e ≡ fault.NoMemory) }
{
    if is_wide(&set) {
        return add_wide(alloc, draft, set);
    }
    let _var = draft.var_count();
    draft.add_dom(set)?;
    Ok(())
}

/// The constraint of an initialiser, where there is one.
#[tactic(auto, using(crate::proofs::VariableLemmas::equals_fits))]
fn add_value(
    alloc: Global,
    draft: &mut Draft,
    value: Option<Term>,
    var: u32,
) -> Result<(), ParseFault>
    requires within { var < length draft.old.doms }
    requires room { length draft.old.cons < draft.old.items + 2 * length draft.old.doms }
    requires kept { IfSome value (TermIn (length draft.old.doms)) }
    ensures value { OnOk result (draft.new ≡ with_value value var draft.old) }
    ensures err { IfErr result (λ e. e ≡ fault.NoMemory) }
{
    if let Some(term) = value {
        draft.add_con(equals_of(alloc, var, term)?)?;
    }
    Ok(())
}

/// One variable more: its domain, its name, its constraints and its output.
#[tactic(auto, unfolding(crate::specs::Drafts::with_var))]
fn add_variable<'a>(
    alloc: Global,
    draft: &mut Draft<'a>,
    name: &'a [u8],
    ty: VarType,
    output: bool,
    value: Option<Term>,
) -> Result<(), ParseFault>
    requires fresh { find_name draft.old.names name.now ≡ None }
    requires room { length draft.old.doms < 100000 }
    requires kept { IsVarType ty }
    requires value { IfSome value (TermIn (length draft.old.doms)) }
    ensures ok { OnOk result (draft.new ≡ with_var draft.old name.now ty output value) }
    ensures err { IfErr result (λ e. e ≡ fault.NoMemory) }
{
    let VarType { set, truth } = ty;
    let var = draft.var_count();
    add_domain(alloc, draft, set)?;
    draft.add_name(name, variable_of(truth, var))?;
    add_value(alloc, draft, value, var)?;
    if output {
        draft.add_out(out_of(alloc, name, truth, var)?)?;
    }
    Ok(())
}

pub fn term_need(truth: bool) -> Scalar
    ensures { result ≡ term_need truth }
{
    if truth {
        Scalar::BoolTerm
    } else {
        Scalar::IntTerm
    }
}

/// `[= expr]`
#[tactic(auto, unfolding(crate::specs::Items::initialiser_at))]
fn initialiser(reader: &mut Reader, draft: &Draft, need: Scalar) -> Result<Option<Term>, Refused>
    ensures value { Agrees (λ t. (t, reader.new)) result (initialiser_at need draft.now.names reader.old) }
    ensures kept { IfOk result (λ value. IfSome value (TermIn (length draft.now.doms))) }
{
    if !reader.is_mark(b"=") {
        return Ok(None);
    }
    reader.advance();
    let term = read_scalar(reader, draft, need)?;
    Ok(Some(term))
}

/// A variable, from its `var` on.
#[tactic(auto, unfolding(crate::specs::Items::variable_at))]
pub fn variable<'a>(
    alloc: Global,
    reader: &mut Reader<'a>,
    draft: &mut Draft<'a>,
) -> Result<(), ParseFault>
    ensures { Gives (λ _. (draft.new, reader.new)) result (variable_at draft.old reader.old) }
{
    reader.advance();
    let ty = vartype(alloc, reader)?;
    reader.mark(b":")?;
    let room = draft.var_count() < 100_000;
    let name = new_name(reader, draft, room)?;
    let output = variable_anns(reader)?;
    let value = initialiser(reader, draft, term_need(ty.truth))?;
    add_variable(alloc, draft, name, ty, output, value)
}
