ghost use Rattle.in_c.specs.Answers.{IsDiagnosis, IsDiagnosisData};

use crate::answers::{ACCEPTED, Answer, MEMORY, REFUSED};
use in_diagnosis::{diagnosis, diagnosis_data};
use in_syntax::TextLimits;
use std::alloc::Global;

/// The diagnosis of a refused text.
pub fn told(alloc: Global, text_limits: TextLimits, text: &[u8]) -> Answer
    ensures { IsDiagnosis text_limits text.now result.bytes.items result.status }
{
    match diagnosis(alloc, text_limits, text) {
        Ok(Some(words)) => Answer {
            bytes: words.into_bytes(),
            status: REFUSED,
        },
        Ok(None) => Answer {
            bytes: Vec::new(alloc),
            status: ACCEPTED,
        },
        Err(_) => Answer {
            bytes: Vec::new(alloc),
            status: MEMORY,
        },
    }
}

/// The same as data.
pub fn told_as_data(alloc: Global, text_limits: TextLimits, text: &[u8]) -> Answer
    ensures { IsDiagnosisData text_limits text.now result.bytes.items result.status }
{
    match diagnosis_data(alloc, text_limits, text) {
        Ok(Some(line)) => Answer {
            bytes: line,
            status: REFUSED,
        },
        Ok(None) => Answer {
            bytes: Vec::new(alloc),
            status: ACCEPTED,
        },
        Err(_) => Answer {
            bytes: Vec::new(alloc),
            status: MEMORY,
        },
    }
}
