//! Laws of whole numbers that the standard library lacks. Each law is a call without a body: who makes the call
//! knows the law.
#![tactic(auto)]

pub mod division;
pub mod products;
pub mod rounding;

pub use division::{
    ceilings_stay_below, multiples_divide, multiples_leave_nothing, next_quotients_round_up,
    quotients_round_up,
};
pub use products::{
    multiples_skip, products_associate, products_cancel, products_commute, products_distribute,
    products_keep_order, products_keep_signs, products_stay_nonnegative, products_vanish,
    sums_associate, sums_commute,
};
pub use rounding::{ceilings_bound, ceilings_keep_order, one_ceiling};
