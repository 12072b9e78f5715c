//! Worked vectors, made outside, against the public calls of `streams`, `session` and the crates
//! above them, up to `coder`, `file_check` among them.
#![tactic(auto)]

#[cfg(test)]
mod certificate_tests;
#[cfg(test)]
mod check_tests;
#[cfg(test)]
mod checked_file_tests;
#[cfg(test)]
mod converting_tests;
#[cfg(test)]
mod decoding_tests;
#[cfg(test)]
mod file_receiver_tests;
#[cfg(test)]
mod file_tests;
#[cfg(test)]
mod hostile_tests;
#[cfg(test)]
mod reading_tests;
#[cfg(test)]
mod receiver_tests;
#[cfg(test)]
mod sending_tests;
#[cfg(test)]
mod session_tests;

// Whose packets most vectors are.
#[cfg(test)]
pub(crate) const ONE: reception::Identity = reception::Identity { tsi: 1, toi: 1 };

#[cfg(test)]
use std::alloc::{AllocError, Global};
#[cfg(test)]
use std::fmt::Display;

// Whether a value's text is this.
#[cfg(test)]
pub(crate) fn is_shown_as<T: Display + Drop>(
    alloc: Global,
    value: T,
    text: &str,
) -> Result<bool, AllocError> {
    match value.to_string(alloc) {
        Ok(shown) => Ok(shown.as_str() == text),
        Err(error) => Err(error),
    }
}
