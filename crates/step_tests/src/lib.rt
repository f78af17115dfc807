//! Tests of single steps and of courses of them; of CPUs, crews and gates; of sites with a count; of
//! the per-CPU semaphore; and of faults without the lock.
#![tactic(auto)]

#[cfg(test)]
mod count_tests;
#[cfg(test)]
mod course_tests;
#[cfg(test)]
mod cpu_tests;
#[cfg(test)]
mod faults_tests;
#[cfg(test)]
mod percpu_calls;
#[cfg(test)]
mod percpu_plans;
#[cfg(test)]
mod percpu_tests;
#[cfg(test)]
mod percpu_thread_tests;
#[cfg(test)]
mod seq_calls;
#[cfg(test)]
mod seq_tests;
#[cfg(test)]
mod site_tests;
