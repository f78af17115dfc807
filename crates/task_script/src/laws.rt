//! Laws of the grammar. Each is the contract of a function that does nothing.
ghost use Rattle.task_script.specs.Padding.{PaddingIsPassedOver};

/// Blanks, comments, carriage returns and lines without words change nothing of what is read.
#[tactic(auto, using(crate::proofs::Padding::padding_is_passed_over))]
pub fn padding_is_passed_over()
    ensures { PaddingIsPassedOver }
{}
