//! Worked vectors, made outside, against the public calls of the crates up to `alc`, and of
//! `losses`.
#![tactic(auto)]

#[cfg(test)]
mod field_tests;
#[cfg(test)]
mod kernel_tests;
#[cfg(test)]
mod loss_tests;
#[cfg(test)]
mod matrix_tests;
#[cfg(test)]
mod packet_tests;
#[cfg(test)]
mod partition_tests;
#[cfg(test)]
mod polynomial_tests;

#[cfg(test)]
use std::alloc::{AllocError, Global};
#[cfg(test)]
use std::fmt::Display;

// Whether a value's text is this.
#[cfg(test)]
pub(crate) fn is_shown_as<T: Display + Drop>(
    alloc: Global,
    value: T,
    text: &str,
) -> Result<bool, AllocError> {
    match value.to_string(alloc) {
        Ok(shown) => Ok(shown.as_str() == text),
        Err(error) => Err(error),
    }
}
