//! Files that are read: how many variables, constraints, outputs and search annotations their models have.

use fzn_parser::parse;
use std::alloc::Global;
use std::test::Fail;

/// A file, and how many variables, constraints, outputs and search annotations its model has.
type Read = (&'static [u8], usize, usize, usize, usize);

#[rattlefmt::skip]
static READ: [Read; 12] = [
    (b"var 1..3: int_eq; solve satisfy;", 1, 0, 0, 0),
    (b"array [1..0] of int: a = []; array [1..-5] of int: b = []; solve satisfy;", 0, 0, 0, 0),
    (b"array [1..0] of var int: a :: output_array([5..3,1..9]) = []; solve satisfy;", 0, 0, 1, 0),
    (b"constraint int_lin_le([],[],3); constraint bool_clause([],[]); constraint fzn_all_different_int([]); solve satisfy;", 0, 3, 0, 0),
    (b"array [1..1] of int: c = [1]; constraint int_lin_le(c,c,3); solve satisfy;", 0, 1, 0, 0),
    (b"solve satisfy;", 0, 0, 0, 0),
    (b"predicate p(var int: x;\nsolve satisfy;", 0, 0, 0, 0),
    (b"int: n = -0x10; var bool: b = true; solve minimize n;", 1, 1, 0, 0),
    (b"var {1,1024}: x :: output_var; var {1,1025}: y :: output_var :: output_var; solve satisfy;", 2, 1, 2, 0),
    (b"var {1,3000}: x = 3; solve satisfy;", 1, 2, 0, 0),
    (b"var 0..1: x; array [1..2] of var int: a :: output_array([1..1,1..2]) = [x,7,]; constraint int_le(x,3) :: domain([[1,2.5],\"t\"]); constraint bool_clause([],[true]); solve maximize x;", 1, 2, 1, 0),
    (b"var 0..1: x; solve :: seq_search([int_search(a,first_fail,indomain_max),int_search([y],smallest,f),bool_search([x,1],largest,indomain_split,complete)]) satisfy; array [1..1] of var int: a = [x];", 1, 0, 0, 2),
];

fn is_read(alloc: Global, case: &Read) -> bool {
    let (bytes, vars, cons, outs, picks) = *case;
    match parse(alloc, bytes) {
        Ok(model) => {
            model.doms.as_slice().len() == vars
                && model.cons.as_slice().len() == cons
                && model.outs.as_slice().len() == outs
                && model.order.as_slice().len() == picks
        }
        Err(_) => false,
    }
}

#[test]
fn files_are_read(rt: HostRuntime) -> Result<(), Fail> {
    for case in &READ {
        assert!(rt; is_read(rt.alloc(), case), "{case:?}");
    }
    Ok(())
}
