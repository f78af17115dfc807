//! Tests of values: packed words, searches of a space, scripts, and texts of results. Tests of the
//! program that no process can show: streams in memory that fail, gates, CPUs, a command line that
//! couldn't be read, and the machine that is kept.
//!
//! The calls on spaces and tables, and the texts of scripts, stand in examples/.
#![tactic(auto)]

#[cfg(test)]
mod crew_tests;
#[cfg(test)]
mod gate_tests;
#[cfg(test)]
mod line_tests;
#[cfg(test)]
mod report_tests;
#[cfg(test)]
mod runs;
#[cfg(test)]
mod script_tests;
#[cfg(test)]
mod search_tests;
#[cfg(test)]
mod stream_tests;
#[cfg(test)]
mod version_tests;
#[cfg(test)]
mod word_tests;
