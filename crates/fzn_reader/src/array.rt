//! `array [1..Number] of [var] type : name {:: ann} = list`
ghost use Rattle.std.specs.Prelude.{◌≡◌, ◌<◌, ◌≤◌, ◌+◌, [], length, None, IfOk, IfErr, IfSome, OnOk, codes};
ghost use Rattle.fzn_model.specs.Shapes.{natural};
ghost use Rattle.fzn_model.specs.Limits.{IsValue, OutInLimits, TermsIn};
ghost use Rattle.fzn_reader.specs.declared.parse_fault.ParseFault.TheVariants as fault;
ghost use Rattle.fzn_reader.specs.Refusals.{repeat, most};
ghost use Rattle.fzn_reader.specs.Names.{find_name};
ghost use Rattle.fzn_reader.specs.Lists.{ends_list};
ghost use Rattle.fzn_reader.specs.Answers.{Agrees, Gives};
ghost use Rattle.fzn_reader.specs.Invariants.{DeclKept, ListInLimits, AreRanges};
ghost use Rattle.fzn_reader.specs.Items.{one_at, length_at, opening_at, closing_at, list_at, one_set, sets_at, values_by, with_array, parameters_at, array_of, array_out, with_array_out, term_need, variables_at, array_at};

use crate::annotations::annotations;
use crate::code::Code;
use crate::decl::Decl;
use crate::draft::Draft;
use crate::elements::{elements, has_room};
use crate::outputs::array_anns;
use crate::par_type::ParType;
use crate::parse_fault::ParseFault;
use crate::reader::{MOST, Reader};
use crate::refused::Refused;
use crate::scalar::Scalar;
use crate::sets::number;
use crate::types::{new_name, partype, set, vartype};
use crate::variable::term_need;
use fzn_lexer::{Kind, Seen};
use fzn_model::{List, Out, Term};
use std::alloc::{AllocError, Global};

/// The number `1`.
#[tactic(auto, unfolding(crate::specs::Items::one_at))]
fn one(reader: &mut Reader) -> Result<(), Refused>
    ensures { Agrees (λ _. reader.new) result (one_at reader.old) }
{
    let here = reader.here();
    if let Seen::Known(Kind::Number) = here.seen {
        if here.text == b"1".as_slice() {
            reader.advance();
            return Ok(());
        }
    }
    Err(reader.refuse(Code::Syntax))
}

fn natural(number: i64) -> u32
    requires { IsValue number }
    ensures value { result ≡ natural number }
    ensures within { result ≤ 2000000 }
{
    if number < 0 { 0 } else { number as u32 }
}

/// `[1..Number] of`: how many elements the array has.
#[tactic(auto, unfolding(crate::specs::Items::length_at))]
fn declared_length(reader: &mut Reader) -> Result<u32, Refused>
    ensures value { Agrees (λ n. (n, reader.new)) result (length_at reader.old) }
    ensures within { IfOk result (λ n. n ≤ 2000000) }
{
    reader.mark(b"[")?;
    one(reader)?;
    reader.mark(b"..")?;
    let count = number(reader)?;
    reader.mark(b"]")?;
    reader.word(b"of")?;
    Ok(natural(count))
}

/// `= [`
#[tactic(auto, unfolding(crate::specs::Items::opening_at))]
fn opening(reader: &mut Reader) -> Result<(), Refused>
    ensures { Agrees (λ _. reader.new) result (opening_at reader.old) }
{
    reader.mark(b"=")?;
    reader.mark(b"[")
}

/// The `]` of a list of so many elements.
#[tactic(auto, unfolding(crate::specs::Items::closing_at))]
fn closing(reader: &mut Reader, count: usize, declared: u32) -> Result<(), Refused>
    ensures value { Agrees (λ _. reader.new) result (closing_at count declared reader.old) }
    ensures same { OnOk result (count ≡ declared) }
{
    if !reader.is_mark(b"]") {
        return Err(reader.refuse(Code::Syntax));
    }
    if count != declared as usize {
        return Err(reader.refuse(Code::Lengths));
    }
    reader.advance();
    Ok(())
}

/// The list of an array of ints or bools.
#[tactic(auto, unfolding(crate::specs::Items::list_at))]
fn list(
    alloc: Global,
    reader: &mut Reader,
    draft: &Draft,
    declared: u32,
    need: Scalar,
) -> Result<List<Term>, ParseFault>
    ensures value { Gives (λ ts. (ts, reader.new)) result (list_at declared draft.now.elements need draft.now.names reader.old) }
    ensures kept { IfOk result (ListInLimits draft.now.elements draft.now.doms need) }
    ensures count { IfOk result (λ ts. length ts ≡ declared) }
{
    opening(reader)?;
    let used = draft.element_count();
    let terms = elements(alloc, reader, draft, used, need)?;
    closing(reader, terms.as_slice().len(), declared)?;
    Ok(terms)
}

/// One set more of a list, and the comma behind it.
#[tactic(auto, unfolding(crate::specs::Items::one_set))]
fn one_set(
    alloc: Global,
    reader: &mut Reader,
    draft: &Draft,
    used: u32,
    count: &mut u32,
) -> Result<(), ParseFault>
    requires { used + count.old ≤ 2000000 }
    ensures value { Gives (λ _. (count.new, reader.new)) result (one_set used draft.now.names count.old reader.old) }
    ensures within { OnOk result (used + count.new ≤ 2000000) }
{
    let room = has_room((used + *count) as usize);
    let _set = set(alloc, reader, draft, room)?;
    reader.separator(b"]")?;
    *count += 1;
    Ok(())
}

/// The sets of a list, up to its `]`, which stays.
#[tactic(auto, using(crate::proofs::Repeat::repeat_stop, crate::proofs::Repeat::repeat_more, crate::proofs::Repeat::repeat_fail, crate::proofs::Repeat::repeat_none))]
fn set_elements(
    alloc: Global,
    reader: &mut Reader,
    draft: &Draft,
    used: u32,
) -> Result<u32, ParseFault>
    requires { used ≤ 2000000 }
    ensures value { Gives (λ n. (n, reader.new)) result (repeat ends_list (one_set used draft.now.names) most 0 reader.old) }
    ensures within { IfOk result (λ n. used + n ≤ 2000000) }
{
    let mut count = 0;
    for _turn in 0..MOST {
        if reader.is_mark(b"]") {
            return Ok(count);
        }
        one_set(alloc, reader, draft, used, &mut count)?;
    }
    Err(reader.refuse(Code::Syntax).into())
}

/// The list of an array of sets: how many there are.
#[tactic(auto, unfolding(crate::specs::Items::sets_at))]
fn sets(alloc: Global, reader: &mut Reader, draft: &Draft, declared: u32) -> Result<u32, ParseFault>
    ensures value { Gives (λ n. (n, reader.new)) result (sets_at declared draft.now.elements draft.now.names reader.old) }
    ensures within { IfOk result (λ n. draft.now.elements + n ≤ 2000000) }
{
    opening(reader)?;
    let used = draft.element_count();
    let count = set_elements(alloc, reader, draft, used)?;
    closing(reader, count as usize, declared)?;
    Ok(count)
}

fn count_of(terms: &[Term], used: u32) -> u32
    requires { used + length terms.now ≤ 2000000 }
    ensures { result ≡ length terms.now }
{
    terms.len() as u32
}

/// The elements of an array of parameters, and how many there are.
#[tactic(auto, using(crate::proofs::ListLemmas::list_terms, crate::proofs::ListLemmas::list_constants))]
fn values(
    alloc: Global,
    reader: &mut Reader,
    draft: &Draft,
    ty: ParType,
    declared: u32,
) -> Result<(Decl, u32), ParseFault>
    ensures value { Gives (λ x. (x, reader.new)) result (values_by ty declared draft.now.elements draft.now.names reader.old) }
    ensures kept { IfOk result (λ x. DeclKept draft.now.doms x.0) }
    ensures within { IfOk result (λ x. draft.now.elements + x.1 ≤ 2000000) }
{
    let used = draft.element_count();
    match ty {
        ParType::Bool => {
            let terms = list(alloc, reader, draft, declared, Scalar::BoolConst)?;
            let count = count_of(terms.as_slice(), used);
            Ok((Decl::Bools(true, terms), count))
        }
        ParType::Int => {
            let terms = list(alloc, reader, draft, declared, Scalar::IntConst)?;
            let count = count_of(terms.as_slice(), used);
            Ok((Decl::Ints(true, terms), count))
        }
        ParType::Set => {
            let count = sets(alloc, reader, draft, declared)?;
            Ok((Decl::Sets, count))
        }
    }
}

/// An array, whose elements are counted.
fn add_array<'a>(
    draft: &mut Draft<'a>,
    name: &'a [u8],
    decl: Decl,
    count: u32,
) -> Result<(), ParseFault>
    requires fresh { find_name draft.old.names name.now ≡ None }
    requires kept { DeclKept draft.old.doms decl }
    requires within { draft.old.elements + count ≤ 2000000 }
    ensures ok { OnOk result (draft.new ≡ with_array draft.old name.now decl count) }
    ensures err { IfErr result (λ e. e ≡ fault.NoMemory) }
{
    let used = draft.element_count();
    draft.add_name(name, decl)?;
    draft.set_elements(used + count);
    Ok(())
}

/// `partype : name {:: ann} = list`
#[tactic(auto, unfolding(crate::specs::Items::parameters_at))]
fn parameters<'a>(
    alloc: Global,
    reader: &mut Reader<'a>,
    draft: &mut Draft<'a>,
    declared: u32,
) -> Result<(), ParseFault>
    ensures { Gives (λ _. (draft.new, reader.new)) result (parameters_at declared draft.old reader.old) }
{
    let ty = partype(reader)?;
    reader.mark(b":")?;
    let name = new_name(reader, draft, true)?;
    annotations(reader)?;
    let (decl, count) = values(alloc, reader, draft, ty, declared)?;
    add_array(draft, name, decl, count)?;
    Ok(())
}

/// An array of variables.
fn array_of(truth: bool, terms: List<Term>) -> Decl
    ensures { result ≡ array_of truth terms }
{
    if truth {
        Decl::Bools(false, terms)
    } else {
        Decl::Ints(false, terms)
    }
}

/// The output of an array.
fn array_out(
    alloc: Global,
    name: &[u8],
    truth: bool,
    terms: &[Term],
    ranges: List<(i64, i64)>,
) -> Result<Out, AllocError>
    ensures { IfOk result (λ o. o ≡ array_out name.now truth terms.now ranges) }
{
    Ok(Out {
        name: List::from_vec(Vec::from_slice(alloc, name)?),
        dims: ranges,
        terms: List::from_vec(Vec::from_slice(alloc, terms)?),
        truth,
    })
}

/// An array of variables, and its output, where an annotation makes one.
#[tactic(auto, using(crate::proofs::ListLemmas::array_kept, crate::proofs::ListLemmas::out_kept))]
fn add_variables<'a>(
    alloc: Global,
    draft: &mut Draft<'a>,
    name: &'a [u8],
    truth: bool,
    terms: List<Term>,
    made: Option<List<(i64, i64)>>,
) -> Result<(), ParseFault>
    requires fresh { find_name draft.old.names name.now ≡ None }
    requires kept { ListInLimits draft.old.elements draft.old.doms (term_need truth) terms }
    requires made { IfSome made (AreRanges (length terms)) }
    ensures ok { OnOk result (draft.new ≡ with_array_out made name.now truth terms (with_array draft.old name.now (array_of truth terms) (length terms))) }
    ensures err { IfErr result (λ e. e ≡ fault.NoMemory) }
{
    let count = count_of(terms.as_slice(), draft.element_count());
    match made {
        None => add_array(draft, name, array_of(truth, terms), count),
        Some(ranges) => {
            let out = array_out(alloc, name, truth, terms.as_slice(), ranges)?;
            add_array(draft, name, array_of(truth, terms), count)?;
            draft.add_out(out)
        }
    }
}

/// `vartype : name {:: ann} = list`
#[tactic(auto, unfolding(crate::specs::Items::variables_at))]
fn variables<'a>(
    alloc: Global,
    reader: &mut Reader<'a>,
    draft: &mut Draft<'a>,
    declared: u32,
) -> Result<(), ParseFault>
    requires { declared ≤ 2000000 }
    ensures { Gives (λ _. (draft.new, reader.new)) result (variables_at declared draft.old reader.old) }
{
    let ty = vartype(alloc, reader)?;
    reader.mark(b":")?;
    let name = new_name(reader, draft, true)?;
    let made = array_anns(alloc, reader, declared)?;
    let terms = list(alloc, reader, draft, declared, term_need(ty.truth))?;
    add_variables(alloc, draft, name, ty.truth, terms, made)
}

/// An array, from its `array` on.
#[tactic(auto, unfolding(crate::specs::Items::array_at))]
pub fn array<'a>(
    alloc: Global,
    reader: &mut Reader<'a>,
    draft: &mut Draft<'a>,
) -> Result<(), ParseFault>
    ensures { Gives (λ _. (draft.new, reader.new)) result (array_at draft.old reader.old) }
{
    reader.advance();
    let declared = declared_length(reader)?;
    if reader.is_word(b"var") {
        reader.advance();
        return variables(alloc, reader, draft, declared);
    }
    parameters(alloc, reader, draft, declared)
}
