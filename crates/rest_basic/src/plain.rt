ghost use Rattle.std.specs.Prelude.{◌≡◌, IfOk};
ghost use Rattle.fzn_model.specs.Booleans.{FitsBox};
ghost use Rattle.rest_basic.specs.Forms.{plain_form};
ghost use Rattle.rest_basic.specs.Equivalence.{IsPlain};

use crate::arithmetic::{form_of_abs, form_of_div, form_of_mod, form_of_times};
use crate::base::{form_of, of_form};
use crate::reduced::Reduced;
use crate::reified::form_of_reif;
use fzn_model::{BoxView, Con};
use std::alloc::{AllocError, Global};

/// What is left in a box of a base, a reified base or an arithmetic constraint: fixed variables are their values, and what
/// the bounds decide is left out. The one error is that memory runs out.
pub fn reduce_plain<V: BoxView>(alloc: Global, con: &Con, view: &V) -> Result<Reduced, AllocError>
    requires plain { IsPlain con.now }
    requires fits_box { FitsBox (V.shape view.now) con.now }
    ensures form { IfOk result (λ left. left ≡ plain_form (V.shape view.now) con.now) }
{
    match con {
        Con::Base(base) => Ok(of_form(alloc, form_of(alloc, base, view)?)),
        Con::Reif(base, truth, flag) => form_of_reif(alloc, base, *truth, *flag, view),
        Con::Times(a, b, c) => Ok(form_of_times(alloc, *a, *b, *c, view)),
        Con::Abs(a, b) => Ok(form_of_abs(alloc, *a, *b, view)),
        Con::Div(a, b, c) => Ok(form_of_div(alloc, *a, *b, *c, view)),
        Con::Mod(a, b, c) => Ok(form_of_mod(alloc, *a, *b, *c, view)),
        _ => unreachable!(),
    }
}
