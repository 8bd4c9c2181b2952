//! A law on the result of verifying given steps, for proofs above it. No function here does anything.

ghost use Rattle.in_certificates.specs.Laws.{StepsAreJudgedOnce};

/// A text, an item of it and steps have one result: yes, no, or the text's one refusal. The law doesn't cover running out of memory.
pub fn steps_are_judged_once()
    ensures { StepsAreJudgedOnce }
{}
