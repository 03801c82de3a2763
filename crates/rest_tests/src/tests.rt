use dom_store::Store;
use fzn_model::{Model, Rest, top_of};
use fzn_parser::parse;
use rest_global::{Projected, project};
use rest_key::{count, dominates, far, near, weaker, words};
use std::alloc::{AllocError, Global};
use std::process::Abort;
use std::test::Fail;

/// The projection of all domains of a model, with its greatest bound.
#[tactic(auto, using(dom_store::proofs::Made::none_empty, dom_store::proofs::Inside::lies_within))]
fn project_all(alloc: Global, model: &Model, limit: u32) -> Result<Projected, Fail> {
    let Some(store) = Store::new(alloc, model)? else {
        return Err("a domain is empty")?;
    };
    Ok(project(alloc, model, &store, top_of(model), limit)?)
}

/// The projection of the model that a text states.
fn projected(alloc: Global, text: &str, limit: u32) -> Result<Projected, Fail> {
    match parse(alloc, text.as_bytes()) {
        Ok(model) => project_all(alloc, &model, limit),
        Err(_) => Err("the text is refused")?,
    }
}

/// Fails where the rest has other words, or other digests.
fn is_rest(
    rt: &impl Abort,
    alloc: Global,
    rest: &Rest,
    expected: &[i128],
    digests: (u64, u64),
) -> Result<(), Fail> {
    let found: Vec<i128> = words(rest).collect(alloc)?;
    assert!(rt; found.as_slice() == expected, "{found:?}");
    assert_eq!(rt;
        (count(rest), near(rest), far(rest)),
        (expected.len() as u64, digests.0, digests.1)
    );
    Ok(())
}

/// Fails where the rest of the text's model has other words, another offset, or other digests.
fn gives(
    rt: &impl Abort,
    alloc: Global,
    text: &str,
    expected: &[i128],
    offset: i128,
    digests: (u64, u64),
) -> Result<(), Fail> {
    match projected(alloc, text, 1 << 20)? {
        Projected::Whole(rest, found) => {
            assert_eq!(rt; found, offset);
            is_rest(rt, alloc, &rest, expected, digests)
        }
        Projected::Wide(_) => Err("the rest is wide")?,
    }
}

/// The text of a model, the words of the rest of its domains, the offset, and both digests.
type Row = (&'static str, &'static [i128], i128, (u64, u64));

/// Fails where a row's rest is another one.
fn all_give(rt: &impl Abort, alloc: Global, rows: &[Row]) -> Result<(), Fail> {
    for (text, expected, offset, digests) in rows {
        gives(rt, alloc, text, expected, *offset, *digests)?;
    }
    Ok(())
}

/// A rest of as many words as the limit is whole, and one of more is wide.
#[test]
fn limits(rt: HostRuntime) -> Result<(), Fail> {
    let text =
        "var 1..1: x1; var 0..1: x2; var 0..0: x3; var 0..0: x4; var 3..7: z; constraint int_lin_le([2,3,4,5],[x1,x2,x3,x4],5); constraint int_lin_eq([3,4,5,6,-1],[x1,x2,x3,x4,z],0); solve maximize z;";
    let wide = projected(rt.alloc(), text, 16)?;
    assert!(rt; matches!(&wide, Projected::Wide(rest) if rest.count() == 21 && rest.limit() == 16));
    let whole = projected(rt.alloc(), text, 21)?;
    assert!(rt; matches!(&whole, Projected::Whole(_, 0)));
    Ok(())
}

#[rattlefmt::skip]
static LINEAR_RELATIONS: [Row; 6] = [
    ("var 1..1: x; var 0..2: y; constraint int_lin_le([2,3],[x,y],6); solve satisfy;", &[1, 1, 0, 2, 0, 1, 0, 1, 1, 3, 1, 0, 4], 0, (11_197_569_237_202_457_504, 10_466_196_504_161_435_613)),
    ("var 0..0: x; var 0..2: y; constraint int_lin_le([2,3],[x,y],6); solve satisfy;", &[1, 1, 0, 2, 0, 0], 0, (1_824_083_132_254_196_413, 15_034_026_112_158_478_604)),
    ("var 1..1: x; var 0..2: y; constraint int_lin_le([2,3],[x,y],8); constraint int_lin_le([2,3],[x,y],7); constraint int_lin_le([2,-3],[x,y],-5); solve satisfy;", &[1, 1, 0, 2, 0, 2, 1, 1, 1, 3, 1, 0, 5, 2, 4, 0, 0], 0, (3_416_974_485_301_669_009, 7_986_174_999_931_076_279)),
    ("var 1..1: x; var 0..2: y; constraint int_lin_eq([2,3],[x,y],5); constraint int_lin_eq([2,3],[x,y],9); constraint int_lin_eq([2,3],[x,y],1); constraint int_lin_eq([4],[x],4); constraint int_lin_eq([4],[x],5); solve satisfy;", &[1, 1, 0, 2, 0, 4, 0, 2, 1, 3, 1, 0, 3, 1, 4, 0, 0, 2, 4, 0, 0, 4, 4, 0, 0], 0, (8_200_918_251_292_263_236, 15_520_359_355_054_487_051)),
    ("var 1..1: x; var 0..2: y; constraint int_lin_ne([2,3],[x,y],5); constraint int_lin_ne([2,3],[x,y],9); constraint int_lin_ne([2,3],[x,y],1); constraint int_lin_ne([4],[x],4); constraint int_lin_ne([4],[x],5); solve satisfy;", &[1, 1, 0, 2, 0, 2, 0, 3, 1, 3, 1, 0, 3, 3, 4, 0, 0], 0, (10_238_723_455_653_857_267, 13_414_037_804_349_751_684)),
    ("var 1..1: x; var 0..2: y; constraint int_lin_le([0,1,-1],[y,y,y],1); constraint int_lin_eq([0,1],[y,x],1); solve satisfy;", &[1, 1, 0, 2, 0, 2, 0, 1, 3, 0, 1, 0, 1, 1, 0, -1, 1, 0, 1, 1, 2, 1, 0, 1, 0, 0], 0, (12_424_574_654_099_630_860, 17_299_397_207_191_527_278)),
];

/// Each relation: it holds, it can't, it is left; a coefficient 0, and a variable that stands twice.
#[test]
fn linear_relations(rt: HostRuntime) -> Result<(), Fail> {
    all_give(&rt, rt.alloc(), &LINEAR_RELATIONS)
}

#[rattlefmt::skip]
static CLAUSES_AND_MEMBERS: [Row; 3] = [
    ("var bool: a; var bool: b; constraint bool_clause([a,true],[b]); constraint bool_clause([a],[false]); constraint bool_clause([a,false],[b,true]); constraint bool_clause([false],[true]); constraint bool_clause([],[]); solve satisfy;", &[2, 1, 0, 1, 1, 0, 1, 0, 3, 2, 4, 1, 1, 0, 1, 1, 1, 3, 4, 0, 0, 4, 4, 0, 0], 0, (3_861_849_300_339_521_666, 3_127_674_478_210_485_141)),
    ("var 0..9: x; var {1,3,5}: y; var 4..4: z; constraint set_in(x,{2,3,7,12}); constraint set_in(x,0..9); constraint set_in(x,{10,11}); constraint set_in(y,1..4); constraint set_in(y,{1,3,5}); constraint set_in(y,{2,4}); constraint set_in(z,{4,6}); constraint set_in(z,{5,6}); solve satisfy;", &[2, 1, 0, 9, 3, 1, 1, 3, 3, 5, 5, 0, 5, 0, 5, 1, 0, 2, 2, 3, 7, 7, 2, 4, 0, 0, 3, 5, 1, 1, 2, 1, 1, 3, 3, 5, 4, 0, 0, 7, 4, 0, 0], 0, (2_668_278_015_841_283_850, 11_081_715_012_666_054_754)),
    ("var 0..5000: x; constraint set_in(x,3..9000); constraint set_in(x,{-1,0,1,7,5000,5001}); constraint set_in(x,{6000,7000}); solve satisfy;", &[1, 1, 0, 5000, 0, 3, 0, 5, 1, 0, 1, 3, 5000, 1, 5, 1, 0, 3, 0, 1, 7, 7, 5000, 5000, 2, 4, 0, 0], 0, (451_724_632_879_024_143, 9_194_150_160_836_539_538)),
];

/// A literal that is true, none, some; a set that has all values, none, some; runs, and a variable without a bitmap.
#[test]
fn clauses_and_members(rt: HostRuntime) -> Result<(), Fail> {
    all_give(&rt, rt.alloc(), &CLAUSES_AND_MEMBERS)
}

#[rattlefmt::skip]
static REIFIED_BASES: [Row; 5] = [
    ("var 1..3: x; var bool: r; constraint int_lin_le_reif([1],[x],2,r); constraint int_lin_le_reif([1],[x],3,r); constraint int_lin_le_reif([1],[x],0,r); constraint int_lin_eq_reif([2],[x],4,r); solve satisfy;", &[2, 1, 1, 3, 1, 0, 1, 0, 4, 0, 6, 1, 1, 1, 1, 0, 2, 1, 1, 1, 1, 2, 1, 1, 1, 1, 1, 2, 2, 1, 1, 1, 1, 0, 3, 6, 2, 1, 2, 1, 0, 4, 1, 1, 1], 0, (14_199_187_789_300_871_307, 15_104_986_941_895_302_682)),
    ("var 1..3: x; var 2..2: y; constraint int_lin_le_reif([1,1],[x,y],4,true); constraint int_lin_le_reif([1,1],[x,y],5,true); constraint int_lin_le_reif([1,1],[x,y],2,true); solve satisfy;", &[1, 1, 1, 3, 0, 2, 0, 1, 1, 1, 1, 0, 2, 2, 4, 0, 0], 0, (7_862_025_270_126_319_355, 1_444_129_463_852_508_168)),
    ("var 1..3: x; var 2..2: y; constraint int_lin_le_reif([1,1],[x,y],4,false); constraint int_lin_le_reif([1,1],[x,y],5,false); constraint int_lin_le_reif([1,1],[x,y],2,false); constraint int_lin_eq_reif([1,1],[x,y],4,false); constraint int_lin_ne_reif([1,1],[x,y],4,false); solve satisfy;", &[1, 1, 1, 3, 0, 4, 0, 1, 1, -1, 1, 0, -3, 1, 4, 0, 0, 3, 3, 1, 1, 1, 0, 2, 4, 2, 1, 1, 1, 0, 2], 0, (6_093_021_923_380_803_747, 6_818_581_126_957_970_365)),
    ("var bool: a; var bool: b; var 0..9: x; constraint bool_clause_reif([a],[b],false); constraint bool_clause_reif([a],[b],true); constraint set_in_reif(x,{2,12},false); constraint set_in_reif(x,{2,12},true); constraint set_in_reif(x,0..20,false); constraint set_in_reif(x,{20},false); solve satisfy;", &[3, 1, 0, 1, 1, 0, 1, 1, 0, 9, 0, 5, 0, 6, 4, 1, 1, 0, 1, 1, 1, 0, 0, 1, 1, 4, 1, 1, 0, 1, 1, 1, 2, 6, 5, 1, 2, 1, 2, 2, 0, 0, 1, 3, 5, 1, 2, 1, 2, 2, 4, 4, 0, 0], 0, (5_458_728_006_511_610_463, 16_947_328_496_501_946_373)),
    ("var bool: a; var bool: b; var bool: r; constraint array_bool_and([a,b],r); constraint array_bool_and([a,b],true); constraint array_bool_and([a,b],false); constraint array_bool_and([a,false],r); constraint array_bool_and([true,true],r); solve satisfy;", &[3, 1, 0, 1, 1, 0, 1, 1, 0, 1, 0, 5, 0, 6, 4, 0, 2, 1, 0, 1, 1, 1, 2, 0, 1, 6, 4, 0, 2, 1, 0, 1, 1, 0, 1, 0, 2, 4, 0, 2, 1, 0, 1, 1, 3, 2, 1, 1, 1, 2, 0, 4, 2, 1, 1, 1, 2, 1], 0, (3_264_252_164_612_665_025, 16_848_602_829_953_859_328)),
];

/// The term open or fixed, with and without the flag; the base holds, fails or is left; opposites.
#[test]
fn reified_bases(rt: HostRuntime) -> Result<(), Fail> {
    all_give(&rt, rt.alloc(), &REIFIED_BASES)
}

#[rattlefmt::skip]
static ARITHMETIC: [Row; 2] = [
    ("var 2..3: x; var 4..4: y; var 8..12: z; constraint int_times(x,y,z); constraint int_times(y,y,16); constraint int_times(y,y,15); constraint int_abs(x,z); constraint int_abs(-4,y); constraint int_abs(y,-4); solve satisfy;", &[2, 1, 2, 3, 1, 8, 12, 0, 4, 0, 7, 1, 0, 0, 4, 1, 1, 2, 4, 0, 0, 3, 8, 1, 0, 1, 1, 5, 4, 0, 0], 0, (8_412_139_003_746_334_299, 11_926_200_335_715_048_032)),
    ("var -7..-7: x; var 2..2: y; var 0..9: z; constraint int_div(x,y,z); constraint int_div(x,y,-3); constraint int_div(x,y,-4); constraint int_mod(x,y,z); constraint int_mod(x,y,-1); constraint int_mod(x,y,1); constraint int_div(x,0,0); constraint int_mod(x,0,0); solve satisfy;", &[1, 1, 0, 9, 0, 6, 0, 9, 0, -7, 0, 2, 1, 0, 2, 4, 0, 0, 3, 10, 0, -7, 0, 2, 1, 0, 5, 4, 0, 0, 6, 4, 0, 0, 7, 4, 0, 0], 0, (16_485_513_562_535_302_398, 7_846_492_624_402_489_390)),
];

/// Left as it stands while a term is open, with fixed ones as constants; else whether it holds.
#[test]
fn arithmetic(rt: HostRuntime) -> Result<(), Fail> {
    all_give(&rt, rt.alloc(), &ARITHMETIC)
}

#[rattlefmt::skip]
static EXTREMES_AND_ELEMENTS: [Row; 4] = [
    ("var 1..5: x; var 3..3: y; var 2..6: z; constraint array_int_maximum(z,[x,y,4,z]); constraint array_int_maximum(4,[x,x]); constraint array_int_maximum(4,[y,4]); constraint array_int_maximum(5,[y,4]); constraint array_int_maximum(z,[y,4]); solve satisfy;", &[2, 1, 1, 5, 1, 2, 6, 0, 4, 0, 11, 1, 1, 3, 1, 0, 1, 1, 0, 4, 1, 11, 0, 4, 2, 1, 0, 1, 0, 3, 4, 0, 0, 4, 11, 1, 1, 1, 0, 4], 0, (10_322_637_077_810_639_317, 2_317_582_602_695_667_697)),
    ("var 1..5: x; var 3..3: y; var 2..6: z; constraint array_int_minimum(z,[x,y,4,z]); constraint array_int_minimum(3,[y,4]); constraint array_int_minimum(2,[y,4]); solve satisfy;", &[2, 1, 1, 5, 1, 2, 6, 0, 2, 0, 12, 1, 1, 3, 1, 0, 1, 1, 0, 3, 2, 4, 0, 0], 0, (3_320_417_637_356_282_814, 12_158_330_949_647_597_234)),
    ("var {1,3,9}: i; var 3..3: y; var 2..6: z; constraint array_var_int_element(i,[z,z,y,7],z); constraint array_var_int_element(i,[1,2,3],5); solve satisfy;", &[2, 3, 1, 1, 3, 3, 9, 9, 1, 2, 6, 0, 2, 0, 13, 1, 0, 4, 1, 1, 0, 0, 0, 3, 0, 0, 1, 1, 1, 13, 1, 0, 3, 0, 1, 0, 0, 0, 3, 0, 5], 0, (13_206_789_760_024_304_557, 3_541_513_614_601_568_615)),
    ("var 2..6: z; var 4..5: c; constraint array_var_int_element(2,[1,z,3],c); constraint array_var_int_element(1,[9,z,3],c); constraint array_var_int_element(3,[1,z,4],4); constraint array_var_int_element(0,[1,z,3],c); constraint array_var_int_element(4,[1,z,3],c); constraint array_var_int_element(2,[1,c,3],c); solve satisfy;", &[2, 1, 2, 6, 1, 4, 5, 0, 5, 0, 2, 2, 1, 1, 0, -1, 1, 1, 0, 1, 4, 0, 0, 3, 4, 0, 0, 4, 4, 0, 0, 5, 2, 2, 1, 1, 1, -1, 1, 1, 0], 0, (14_181_154_862_504_371_603, 16_195_652_664_793_560_002)),
];

/// The fixed members as one constant; members whose place the index can't have; an index that is fixed.
#[test]
fn extremes_and_elements(rt: HostRuntime) -> Result<(), Fail> {
    all_give(&rt, rt.alloc(), &EXTREMES_AND_ELEMENTS)
}

#[rattlefmt::skip]
static VALUES_THAT_DIFFER: [Row; 3] = [
    ("var 1..1: x; var 2..3: y; constraint fzn_all_different_int([x,y]); solve satisfy;", &[1, 1, 2, 3, 0, 0], 0, (12_541_314_266_744_463_428, 15_034_026_112_158_478_604)),
    ("var 1..1: x; var 1..3: y; constraint fzn_all_different_int([x,y]); constraint fzn_all_different_int([x,4,1]); constraint fzn_all_different_int([x,4,5]); constraint fzn_all_different_int([x,4,5,4,y]); constraint fzn_all_different_int([]); solve satisfy;", &[1, 1, 1, 3, 0, 3, 0, 14, 1, 1, 0, 1, 1, 1, 4, 0, 0, 3, 4, 0, 0], 0, (4_318_070_284_768_415_990, 10_468_745_315_470_137_869)),
    ("var {1,4,7}: x; var 0..5000: y; var {2,9}: z; constraint fzn_all_different_int([9,x,4,z,1,8]); constraint fzn_all_different_int([6001,x,7,y,-3,4999,z,2]); constraint fzn_all_different_int([x,x]); constraint fzn_all_different_int([5,x]); solve satisfy;", &[3, 3, 1, 1, 4, 4, 7, 7, 1, 0, 5000, 2, 2, 2, 9, 9, 0, 3, 0, 14, 2, 1, 0, 1, 2, 3, 1, 4, 9, 1, 14, 3, 1, 0, 1, 1, 1, 2, 3, 2, 7, 4999, 2, 14, 2, 1, 0, 1, 0, 0], 0, (3_455_217_490_496_564_329, 3_916_879_841_230_436_401)),
];

/// Equal fixed values; one open member with free values; taken values that an open member has, rising.
#[test]
fn values_that_differ(rt: HostRuntime) -> Result<(), Fail> {
    all_give(&rt, rt.alloc(), &VALUES_THAT_DIFFER)
}

#[rattlefmt::skip]
static CUMULATIVE_TASKS: [Row; 4] = [
    ("var 0..4: s; constraint fzn_cumulative([0,s],[3,2],[1,2],2); solve satisfy;", &[1, 1, 0, 4, 0, 1, 0, 15, 1, 1, 0, 0, 2, 0, 2, 1, 0, 3, 1, 0, 2], 0, (2_651_098_607_821_631_282, 2_094_679_813_519_058_260)),
    ("var 0..4: s; constraint fzn_cumulative([0,s],[3,2],[1,2],3); constraint fzn_cumulative([0,s],[3,2],[1,2],2); constraint fzn_cumulative([s],[-1],[1],9); constraint fzn_cumulative([s,2],[1,1],[1,-1],9); solve satisfy;", &[1, 1, 0, 4, 0, 3, 1, 15, 1, 1, 0, 0, 2, 0, 2, 1, 0, 3, 1, 0, 2, 2, 4, 0, 0, 3, 4, 0, 0], 0, (2_941_857_543_283_046_426, 16_670_968_610_112_004_616)),
    ("var 0..4: s; constraint fzn_cumulative([0,1,4,s],[3,2,1,2],[1,2,1,2],3); constraint fzn_cumulative([5,0,2,s,7,8],[2,2,3,2,0,3],[2,2,2,2,2,0],3); solve satisfy;", &[1, 1, 0, 4, 0, 2, 0, 15, 1, 1, 0, 0, 2, 0, 2, 3, 0, 1, 1, 1, 3, 3, 4, 5, 1, 0, 3, 1, 15, 1, 1, 0, 0, 2, 0, 2, 1, 0, 7, 2, 0, 3], 0, (7_245_379_453_855_567_974, 1_677_897_800_959_727_499)),
    ("var 1..3: d; var 0..2: r; var 2..6: b; constraint fzn_cumulative([0,1],[3,2],[1,2],3); constraint fzn_cumulative([0,1],[3,2],[1,2],2); constraint fzn_cumulative([0,1],[3,2],[1,2],b); constraint fzn_cumulative([4,0],[d,2],[r,2],b); constraint fzn_cumulative([],[],[],0); constraint fzn_cumulative([],[],[],-1); solve satisfy;", &[3, 1, 1, 3, 1, 0, 2, 1, 2, 6, 0, 4, 1, 4, 0, 0, 2, 15, 0, 2, 0, 1, 1, 1, 3, 3, 1, 2, 3, 15, 1, 0, 4, 1, 0, 1, 1, 1, 0, 2, 2, 1, 2, 5, 4, 0, 0], 0, (3_201_840_681_661_458_530, 7_635_286_895_218_615_185)),
];

/// Room for all; a negative length; fixed tasks as used amounts, touching, overlapping, without length or use.
#[test]
fn cumulative_tasks(rt: HostRuntime) -> Result<(), Fail> {
    all_give(&rt, rt.alloc(), &CUMULATIVE_TASKS)
}

#[rattlefmt::skip]
static TABLES: [Row; 1] = [
    ("var 1..3: x; var 1..3: y; var 2..2: z; constraint fzn_table_int([x,y],[3,1,1,2,4,4,3,1,2,5]); constraint fzn_table_int([x,z],[1,2,2,2,3,2,3,3]); constraint fzn_table_int([x,z],[3,2,1,2,2,3]); constraint fzn_table_int([x,z],[1,3]); constraint fzn_table_int([z],[2,3]); constraint fzn_table_int([z],[3]); constraint fzn_table_int([x,x],[1,1,2,2,3,3]); solve satisfy;", &[2, 1, 1, 3, 1, 1, 3, 0, 5, 0, 16, 2, 1, 0, 1, 1, 4, 1, 2, 3, 1, 2, 16, 1, 1, 0, 2, 1, 3, 3, 4, 0, 0, 5, 4, 0, 0, 6, 16, 2, 1, 0, 1, 0, 6, 1, 1, 2, 2, 3, 3], 0, (16_070_068_948_295_436_390, 13_632_631_400_088_748_389)),
];

/// Rows that are left, rising, once each, in the open columns; none; a row for each value.
#[test]
fn tables(rt: HostRuntime) -> Result<(), Fail> {
    all_give(&rt, rt.alloc(), &TABLES)
}

#[rattlefmt::skip]
static RESTS_OF_BOXES: [Row; 5] = [
    ("var 1..1: x1; var 0..1: x2; var 0..0: x3; var 0..0: x4; var 3..7: z; constraint int_lin_le([2,3,4,5],[x1,x2,x3,x4],5); constraint int_lin_eq([3,4,5,6,-1],[x1,x2,x3,x4,z],0); solve maximize z;", &[2, 1, 0, 1, 1, 3, 7, 1, -1, 1, 1, 1, 2, 2, 4, 1, 0, -1, 1, 1, -3], 0, (5_317_096_778_364_782_876, 13_991_452_752_944_494_637)),
    ("var 1..3: x; solve minimize x;", &[1, 1, 1, 3, 1, 1, 0, 0], 0, (14_882_483_951_933_314_045, 8_025_024_995_210_706_130)),
    ("var 4..4: x; var {1,2,5}: y; constraint int_lin_le([1,1],[x,y],6); solve minimize x;", &[1, 2, 1, 2, 5, 5, 0, 1, 0, 1, 1, 1, 1, 0, 2], 4, (1_918_944_623_584_972_906, 11_714_527_030_921_542_963)),
    ("var 4..4: x; var 0..1: u; var {1,2,5}: y; constraint int_lin_le([1],[x],6); constraint int_lin_le([2,1],[u,y],6); constraint int_lin_ne([1,1],[y,u],3); solve maximize x;", &[2, 1, 0, 1, 2, 1, 2, 5, 5, 0, 2, 1, 1, 2, 2, 1, 0, 1, 1, 1, 6, 2, 3, 2, 1, 1, 1, 1, 1, 0, 3], -4, (1_960_972_115_971_819_177, 13_507_660_151_438_808_138)),
    ("var 4..4: x; solve maximize 7;", &[0, 0, 0], -7, (15_658_191_375_538_532_279, 15_658_191_375_538_532_279)),
];

/// Open variables in order, renumbered; the cost, and the offset where the goal is fixed; labels by place.
#[test]
fn rests_of_boxes(rt: HostRuntime) -> Result<(), Fail> {
    all_give(&rt, rt.alloc(), &RESTS_OF_BOXES)
}

/// A model of some variables with one more item.
fn with_item(alloc: Global, item: &str) -> Result<String, AllocError> {
    format!(in alloc;
        "var 0..5: x; var 0..5: y; var 2..9: m; var bool: a; var bool: b; var bool: c; {item}; solve minimize x;"
    )
}

/// The rest of that model.
fn rest_with(alloc: Global, item: &str) -> Result<Rest, Fail> {
    let text = with_item(alloc, item)?;
    match projected(alloc, text.as_str(), 1 << 20)? {
        Projected::Whole(rest, _) => Ok(rest),
        Projected::Wide(_) => Err("the rest is wide")?,
    }
}

/// Fails where one of the rests with these items dominates the other otherwise.
fn compare(
    rt: &impl Abort,
    alloc: Global,
    first: &str,
    second: &str,
    expected: (bool, bool),
) -> Result<(), Fail> {
    let one = rest_with(alloc, first)?;
    let other = rest_with(alloc, second)?;
    assert_eq!(rt;
        (dominates(&one, &other), dominates(&other, &one)),
        expected,
        "{first}"
    );
    Ok(())
}

/// Whether the first constraint of the one is weaker than that of the other.
#[tactic(auto, using(rest_key::proofs::Comparable::can_compare))]
fn is_weaker(first: &Rest, second: &Rest) -> bool {
    let cons = first.cons.as_slice();
    let others = second.cons.as_slice();
    !cons.is_empty() && !others.is_empty() && weaker(&cons[0], &others[0])
}

#[test]
fn more_taken_values_are_stronger(rt: HostRuntime) -> Result<(), Fail> {
    let alloc = rt.alloc();
    let fewer = rest_with(alloc, "constraint fzn_all_different_int([x,y,1])")?;
    let more = rest_with(alloc, "constraint fzn_all_different_int([x,y,1,4])")?;
    assert!(rt; is_weaker(&fewer, &more) && !is_weaker(&more, &fewer));
    Ok(())
}

const WEAKER: (bool, bool) = (true, false);

const EQUAL: (bool, bool) = (true, true);

const APART: (bool, bool) = (false, false);

/// Two items, and whether the rest with the first dominates that with the second, and the other way.
type Pair = (&'static str, &'static str, (bool, bool));

/// Fails where a pair compares otherwise.
fn all_compare(rt: &impl Abort, alloc: Global, pairs: &[Pair]) -> Result<(), Fail> {
    for (first, second, expected) in pairs {
        compare(rt, alloc, first, second, *expected)?;
    }
    Ok(())
}

#[rattlefmt::skip]
static DOMINANCE_OF_BASES: [Pair; 12] = [
    ("constraint int_lin_le([1,-2],[x,y],2)", "constraint int_lin_le([1,-2],[x,y],1)", WEAKER),
    ("constraint int_lin_le([1,-2],[x,y],2)", "constraint int_lin_le([1,-2],[x,y],2)", EQUAL),
    ("constraint int_lin_le([1,-2],[x,y],2)", "constraint int_lin_le([-2,1],[y,x],2)", APART),
    ("constraint int_lin_le([1,-2],[x,y],2)", "constraint int_lin_eq([1,-2],[x,y],2)", APART),
    ("constraint int_lin_eq([1,1],[x,y],4)", "constraint int_lin_eq([1,1],[x,y],5)", APART),
    ("constraint int_lin_ne([1,1],[x,y],4)", "constraint int_lin_ne([1,1],[x,y],5)", APART),
    ("constraint bool_clause([a,b],[c])", "constraint bool_clause([b],[])", WEAKER),
    ("constraint bool_clause([a,b],[])", "constraint bool_clause([b,a,b],[])", EQUAL),
    ("constraint bool_clause([a],[])", "constraint bool_clause([],[a])", APART),
    ("constraint set_in(x,{0,1,2,4})", "constraint set_in(x,{1,2})", WEAKER),
    ("constraint set_in(x,{0,1,3})", "constraint set_in(x,{1,2})", APART),
    ("constraint int_lin_le_reif([1],[x],2,a)", "constraint int_lin_le_reif([1],[x],1,a)", APART),
];

/// Sums, literals, sets and reified bases.
#[test]
fn dominance_of_bases(rt: HostRuntime) -> Result<(), Fail> {
    all_compare(&rt, rt.alloc(), &DOMINANCE_OF_BASES)
}

#[rattlefmt::skip]
static DOMINANCE_OF_LISTS: [Pair; 10] = [
    ("constraint fzn_all_different_int([x,y,1])", "constraint fzn_all_different_int([x,y,1,4])", WEAKER),
    ("constraint fzn_all_different_int([x,y,2])", "constraint fzn_all_different_int([x,y,1,4])", APART),
    ("constraint fzn_cumulative([0,x],[2,2],[1,2],2)", "constraint fzn_cumulative([0,x],[3,2],[1,2],2)", WEAKER),
    ("constraint fzn_cumulative([0,x],[3,2],[2,2],3)", "constraint fzn_cumulative([0,x],[3,2],[1,2],2)", WEAKER),
    ("constraint fzn_cumulative([0,x],[3,2],[2,2],3)", "constraint fzn_cumulative([1,x],[3,2],[1,2],2)", APART),
    ("constraint fzn_cumulative([0,x],[3,2],[1,2],m)", "constraint fzn_cumulative([0,x],[3,2],[2,2],m)", WEAKER),
    ("constraint fzn_table_int([x,y],[0,0,1,2,3,4])", "constraint fzn_table_int([x,y],[3,4,0,0])", WEAKER),
    ("constraint fzn_table_int([x,y],[0,0,1,2])", "constraint fzn_table_int([x,y],[3,4])", APART),
    ("constraint int_times(x,y,m)", "constraint int_times(y,x,m)", APART),
    ("constraint array_int_maximum(m,[x,y])", "constraint array_int_maximum(m,[x,y])", EQUAL),
];

/// Constraints over lists, and equal ones.
#[test]
fn dominance_of_lists(rt: HostRuntime) -> Result<(), Fail> {
    all_compare(&rt, rt.alloc(), &DOMINANCE_OF_LISTS)
}

#[rattlefmt::skip]
static DOMINANCE_OF_RESTS: [Pair; 6] = [
    ("var 0..3: z", "var {0,2,3}: z", WEAKER),
    ("var 0..3: z", "var 2..5: z", APART),
    ("var 0..3: z", "var 2..2: z", APART),
    ("constraint int_lin_le([1],[x],9)", "constraint int_lin_le([1],[x],2)", WEAKER),
    ("constraint int_lin_le([1],[x],2)", "constraint int_lin_le([1],[x],9); constraint int_lin_le([1],[x],2)", APART),
    ("var 0..3: z; constraint int_lin_le([1],[x],1)", "var 0..2: z; constraint int_lin_le([1],[x],2)", APART),
];

/// A lesser domain, another number of variables, another label, a constraint fewer, and both ways at once.
#[test]
fn dominance_of_rests(rt: HostRuntime) -> Result<(), Fail> {
    all_compare(&rt, rt.alloc(), &DOMINANCE_OF_RESTS)
}

/// The cost is equal too.
#[test]
fn dominance_of_costs(rt: HostRuntime) -> Result<(), Fail> {
    let alloc = rt.alloc();
    let text = "var 0..5: x; var 0..5: y; solve maximize x;";
    match projected(alloc, text, 100)? {
        Projected::Whole(rest, 0) => {
            let other = projected(alloc, "var 0..5: x; var 0..5: y; solve minimize x;", 100)?;
            assert!(rt; matches!(&other, Projected::Whole(other, 0) if !dominates(&rest, other)));
            Ok(())
        }
        _ => Err("another offset, or wide")?,
    }
}
