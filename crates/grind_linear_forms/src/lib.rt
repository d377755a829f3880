//! Linear forms over the nodes of a term table: sums of nodes with coefficients, and a constant. A term is read as a
//! form, forms are added and multiplied by numbers, and a form is divided by a number that divides its coefficients.
//! Every number is one of 128 bits, and a call says where one does not fit.
#![tactic(auto)]

pub mod cutting;
pub mod form;
pub mod laws;
mod numbers;
pub mod reading;
pub mod sum;

pub use cutting::{cut, divides};
pub use form::{Form, FormRefusal, Part};
pub use laws::{
    cuts_name_numbers, cuts_stay_below, forms_by_node, one_cut, readings_have_their_values,
    readings_name_numbers, readings_stay, refusals_by_node, sums_by_node, sums_have_their_values,
    sums_name_numbers,
};
pub use reading::{linear_of, linear_of_all};
pub use sum::{add_scaled, scale};
