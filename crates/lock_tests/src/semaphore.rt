//! Tests of a semaphore without an object.
mod handoff_tests;
mod pairs;
mod quit_tests;
mod wake_tests;
