//! Tests of calls on objects under an owner word, a mutex and a semaphore, on threads too.
#![tactic(auto)]

#[cfg(test)]
mod batch_tests;
#[cfg(test)]
mod gate_tests;
#[cfg(test)]
mod interrupt_tests;
#[cfg(test)]
mod owner_calls;
#[cfg(test)]
mod owner_rounds;
#[cfg(test)]
mod owner_site_tests;
#[cfg(test)]
mod serve_tests;
#[cfg(test)]
mod sleeper_tests;
#[cfg(test)]
mod tally_tests;
#[cfg(test)]
mod threads_tests;
