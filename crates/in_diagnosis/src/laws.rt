//! A law on diagnoses as data. The function here does nothing.

ghost use Rattle.in_diagnosis.specs.Laws.{DataBeginsAlike};

/// `diagnosis_data` on a text returns none each time, or lines that begin with one head: the refusal of a text is one, and the head is a function of
/// it. The words behind it are open.
pub fn data_begins_alike()
    ensures { DataBeginsAlike }
{}
