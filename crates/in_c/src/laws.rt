//! Laws on the results of the calls, for proofs above them. No function here does anything.

ghost use Rattle.in_c.specs.Laws.{DiagnosesHaveOneStatus, ExportAnswersAreOne, RefusalNumbersAreOne, ReportsAreOne, RunAnswersAreOne, RunByAnswersAreOne, VerdictsAreOne};

use in_certificates::laws::steps_are_judged_once;
use in_chosen_runs::laws::{
    chosen_runs_are_machines, chosen_runs_are_one, starts_are_refused_once,
};
use in_export::laws::texts_are_exported_once;
use in_print::laws::texts_are_same;
use in_program::laws::texts_are_answered_once;

/// The room, the length and the status after `inet_check`, `inet_derive`, `inet_run` and `inet_export` are a function of the text, of the two numbers
/// of a run, and of the room before, if memory didn't run out.
pub fn calls_answer_once()
    ensures reports { ReportsAreOne }
    ensures runs { RunAnswersAreOne }
    ensures exports { ExportAnswersAreOne }
{
    texts_are_answered_once();
    texts_are_exported_once();
}

/// So are the room, the length, the numbers and the status after `inet_run_by`, of these and of the choices.
pub fn chosen_runs_answer_once()
    ensures { RunByAnswersAreOne }
{
    chosen_runs_are_one();
    chosen_runs_are_machines();
    starts_are_refused_once();
    texts_are_same();
}

/// So are the status of both diagnoses (their words are open), and the numbers and the status of `inet_refusal`.
pub fn refusals_are_told_once()
    ensures diagnoses { DiagnosesHaveOneStatus }
    ensures numbers { RefusalNumbersAreOne }
{}

/// So is the status of `inet_verify` for the same steps.
pub fn verdicts_are_one()
    ensures { VerdictsAreOne }
{
    steps_are_judged_once();
}
