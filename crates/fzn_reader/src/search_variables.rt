//! The variables that a search annotation names.
ghost use Rattle.std.specs.Prelude.{◌≡◌, ℕ, ℤ, List, [], IfOk, IfSome, OnOk, All, length, option_map};
ghost use Rattle.fzn_lexer.specs.Spots.{first};
ghost use Rattle.fzn_model.specs.Limits.{TermIn};
ghost use Rattle.fzn_reader.specs.Names.{find_name};
ghost use Rattle.fzn_reader.specs.Exprs.{begins};
ghost use Rattle.fzn_reader.specs.Refusals.{repeat, most};
ghost use Rattle.fzn_reader.specs.Lists.{ends_list};
ghost use Rattle.fzn_reader.specs.Search.{with_variable, with_variables, named_member, member_by, one_variable, array_terms, named_vars, written_vars, vars_by};
ghost use Rattle.fzn_reader.specs.Answers.{Gives};
ghost use Rattle.fzn_reader.specs.Invariants.{DeclKept};

use crate::begin::{Begin, begins};
use crate::code::Code;
use crate::decl::Decl;
use crate::draft::Draft;
use crate::parse_fault::ParseFault;
use crate::reader::{MOST, Reader};
use fzn_model::{List, Term};
use std::alloc::{AllocError, Global};

/// A term more, where it is a variable.
#[tactic(auto, using(crate::proofs::SearchLemmas::terms_push))]
fn add_variable(vars: &mut List<Term>, term: Term) -> Result<(), AllocError>
    ensures value { OnOk result (vars.new ≡ with_variable vars.old term) }
    ensures kept { (n : ℕ) → OnOk result (TermIn n term → All (TermIn n) vars.old → All (TermIn n) vars.new) }
{
    if let Term::Var(_) = term {
        vars.push(term)?;
    }
    Ok(())
}

/// The variables of a list, behind others.
#[tactic(auto, using(crate::proofs::SearchLemmas::variables_step))]
fn add_variables(vars: &mut List<Term>, terms: &[Term]) -> Result<(), AllocError>
    ensures value { OnOk result (vars.new ≡ with_variables vars.old terms.now) }
    ensures kept { OnOk result ((n : ℕ) → All (TermIn n) terms.now → All (TermIn n) vars.old → All (TermIn n) vars.new) }
{
    for term in terms {
        add_variable(vars, *term)?;
    }
    Ok(())
}

/// The name in hand, as a member of a list.
fn named_member(reader: &mut Reader, draft: &Draft, vars: &mut List<Term>) -> Result<(), ParseFault>
    ensures value { Gives (λ _. (vars.new, reader.new)) result (named_member (find_name draft.now.names (first reader.old).text) vars.old reader.old) }
    ensures kept { OnOk result (All (TermIn (length draft.now.doms)) vars.old → All (TermIn (length draft.now.doms)) vars.new) }
{
    match draft.find(reader.here().text) {
        Some(Decl::Int(term)) => {
            add_variable(vars, *term)?;
            reader.advance();
            Ok(())
        }
        Some(Decl::Bool(term)) => {
            add_variable(vars, *term)?;
            reader.advance();
            Ok(())
        }
        _ => Err(reader.refuse(Code::Syntax).into()),
    }
}

/// A member of a list of variables and constants.
fn member(reader: &mut Reader, draft: &Draft, vars: &mut List<Term>) -> Result<(), ParseFault>
    ensures value { Gives (λ _. (vars.new, reader.new)) result (member_by (begins reader.old) draft.now.names vars.old reader.old) }
    ensures kept { OnOk result (All (TermIn (length draft.now.doms)) vars.old → All (TermIn (length draft.now.doms)) vars.new) }
{
    match begins(reader) {
        Begin::Number | Begin::Truth(_) => {
            reader.advance();
            Ok(())
        }
        Begin::Name => named_member(reader, draft, vars),
        Begin::Real | Begin::Brace | Begin::Bracket | Begin::Other => {
            Err(reader.refuse(Code::Syntax).into())
        }
    }
}

/// One member more, and the comma behind it.
#[tactic(auto, unfolding(crate::specs::Search::one_variable))]
fn one_variable(reader: &mut Reader, draft: &Draft, vars: &mut List<Term>) -> Result<(), ParseFault>
    ensures value { Gives (λ _. (vars.new, reader.new)) result (one_variable draft.now.names vars.old reader.old) }
    ensures kept { OnOk result (All (TermIn (length draft.now.doms)) vars.old → All (TermIn (length draft.now.doms)) vars.new) }
{
    member(reader, draft, vars)?;
    reader.separator(b"]")?;
    Ok(())
}

/// The variables of a list, up to its `]`, which stays.
#[tactic(auto, using(crate::proofs::Repeat::repeat_stop, crate::proofs::Repeat::repeat_more, crate::proofs::Repeat::repeat_fail, crate::proofs::Repeat::repeat_none))]
fn variables(alloc: Global, reader: &mut Reader, draft: &Draft) -> Result<List<Term>, ParseFault>
    ensures value { Gives (λ vars. (vars, reader.new)) result (repeat ends_list (one_variable draft.now.names) most [] reader.old) }
    ensures kept { IfOk result (All (TermIn (length draft.now.doms))) }
{
    let mut vars = List::new(alloc);
    for _turn in 0..MOST {
        if reader.is_mark(b"]") {
            return Ok(vars);
        }
        one_variable(reader, draft, &mut vars)?;
    }
    Err(reader.refuse(Code::Syntax).into())
}

/// The variables of a list that is written out, from its `[` on.
#[tactic(auto, unfolding(crate::specs::Search::written_vars))]
fn written_vars(alloc: Global, reader: &mut Reader, draft: &Draft) -> Result<List<Term>, ParseFault>
    ensures value { Gives (λ vars. (vars, reader.new)) result (written_vars draft.now.names reader.old) }
    ensures kept { IfOk result (All (TermIn (length draft.now.doms))) }
{
    reader.advance();
    let vars = variables(alloc, reader, draft)?;
    reader.mark(b"]")?;
    Ok(vars)
}

/// The terms of an array of ints or bools.
#[tactic(auto, using(crate::proofs::SearchLemmas::array_kept))]
fn array_terms(decl: &Decl) -> Option<&[Term]>
    ensures value { option_map (λ ts. ts.now) result ≡ array_terms decl.now }
    ensures kept { (ds : List (List (ℤ × ℤ))) → DeclKept ds decl.now → IfSome result (λ ts. All (TermIn (length ds)) ts.now) }
{
    match decl {
        Decl::Ints(_, terms) => Some(terms.as_slice()),
        Decl::Bools(_, terms) => Some(terms.as_slice()),
        _ => None,
    }
}

/// The variables of a list.
fn variables_of(alloc: Global, terms: &[Term]) -> Result<List<Term>, AllocError>
    ensures value { IfOk result (λ vars. vars ≡ with_variables [] terms.now) }
    ensures kept { IfOk result (λ vars. (n : ℕ) → All (TermIn n) terms.now → All (TermIn n) vars) }
{
    let mut vars = List::new(alloc);
    add_variables(&mut vars, terms)?;
    Ok(vars)
}

/// The variables of the array in hand.
fn named_vars(alloc: Global, reader: &mut Reader, draft: &Draft) -> Result<List<Term>, ParseFault>
    ensures value { Gives (λ vars. (vars, reader.new)) result (named_vars (find_name draft.now.names (first reader.old).text) reader.old) }
    ensures kept { IfOk result (All (TermIn (length draft.now.doms))) }
{
    let Some(decl) = draft.find(reader.here().text) else {
        return Err(reader.refuse(Code::Syntax).into());
    };
    let Some(terms) = array_terms(decl) else {
        return Err(reader.refuse(Code::Syntax).into());
    };
    let vars = variables_of(alloc, terms)?;
    reader.advance();
    Ok(vars)
}

/// The variables of a search annotation.
pub fn vars(alloc: Global, reader: &mut Reader, draft: &Draft) -> Result<List<Term>, ParseFault>
    ensures value { Gives (λ vars. (vars, reader.new)) result (vars_by (begins reader.old) draft.now.names reader.old) }
    ensures kept { IfOk result (All (TermIn (length draft.now.doms))) }
{
    match begins(reader) {
        Begin::Bracket => written_vars(alloc, reader, draft),
        Begin::Name => named_vars(alloc, reader, draft),
        Begin::Number | Begin::Real | Begin::Truth(_) | Begin::Brace | Begin::Other => {
            Err(reader.refuse(Code::Syntax).into())
        }
    }
}
