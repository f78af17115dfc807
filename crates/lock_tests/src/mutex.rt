//! Tests of a mutex without an object.
mod handoff_tests;
mod interrupt_tests;
mod lockers;
mod release_tests;
