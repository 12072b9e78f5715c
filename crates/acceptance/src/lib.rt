//! Whole commands over files in memory whose inputs a program makes, or whose output has little
//! room. What is data stands in the transcripts of the crate `transcripts`.
#![tactic(auto)]

#[cfg(test)]
mod check_tests;
#[cfg(test)]
mod command;
#[cfg(test)]
mod loss_tests;
#[cfg(test)]
mod output_tests;
#[cfg(test)]
mod sessions;
