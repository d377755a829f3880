//! The single calls on linear forms and polynomials, on differences of readings, on tables of values, and on a few parts of the checker,
//! compared with what they must answer.
#![tactic(auto)]

#[cfg(test)]
mod difference_tests;
#[cfg(test)]
mod form_tests;
#[cfg(test)]
mod kernel_tests;
#[cfg(test)]
mod polynomial_tests;
#[cfg(test)]
mod value_table_tests;
