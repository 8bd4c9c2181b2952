//! The diagnosis of a program's text.
ghost use Rattle.std.specs.Prelude.{◌≡◌, IfOk, is_some};
ghost use Rattle.in_syntax.specs.Parsing.{IsOfText};
ghost use Rattle.in_diagnosis.specs.Data.{IsDataOf, IsToldAsData};
ghost use Rattle.in_diagnosis.specs.Programs.{Refuses, RefusesTree, IsToldOfText};

use crate::heads::head;
use crate::sentences;
use crate::stuck::add_stuck;
use crate::wires::add_misfit;
use in_check::{Evidence, Findings, Misfit, StuckPart, refusal_of};
use in_diagnosis_words::{
    Report, add_larger, add_more_than, add_text_fault, add_tree_fault, rule_at,
};
use in_syntax::{
    Code, Expected, Fault, Place, Refusal, Source, TextLimits, parse, parse_expecting,
};
use std::alloc::{AllocError, Global};

/// Adds that there are more agents than a right member or the net may have.
fn add_agents(report: &mut Report, source: &Source, place: Place) {
    let (most, what) = match rule_at(source, place.from as usize) {
        Some(_) => (
            report.limits.member_agents(),
            "agents in the right member of a rule",
        ),
        None => (report.limits.agents(), "agents in the net"),
    };
    add_more_than(report, place, most, what);
    report.help(sentences::BUILD_LATER);
    add_larger(report);
}

/// Adds the refusal of a program that has a tree, except for a wire that doesn't fit and for a stuck part.
fn add_fault(report: &mut Report, source: &Source, refusal: Refusal) {
    match refusal.code {
        Code::E03 => add_agents(report, source, refusal.place),
        _ => add_tree_fault(report, source, refusal),
    }
}

/// The ends of the wire that doesn't fit.
fn misfit_in(evidence: Option<&Evidence>) -> Option<&Misfit> {
    match evidence {
        Some(Evidence::Misfit(misfit)) => Some(misfit),
        _ => None,
    }
}

/// The part that no steps build.
fn stuck_in(evidence: Option<&Evidence>) -> Option<&StuckPart> {
    match evidence {
        Some(Evidence::Stuck(part)) => Some(part),
        _ => None,
    }
}

/// Adds a wire that doesn't fit, or a stuck rule or net, with the evidence of the refusal.
// Apart from `add_fault`: if a function with a contract takes an open net, its view takes 18 seconds to check.
fn add_shape_fault(
    report: &mut Report,
    source: &Source,
    refusal: Refusal,
    evidence: Option<&Evidence>,
) {
    let place = refusal.place;
    match refusal.code {
        Code::E10 => add_misfit(report, source, misfit_in(evidence), place),
        Code::E12 => add_stuck(report, source, stuck_in(evidence), "this rule", place),
        Code::E13 => add_stuck(report, source, stuck_in(evidence), "this net", place),
        _ => (),
    }
}

/// Adds the reason why a program that has a tree is refused, with the evidence of the refusal.
fn add_reason(report: &mut Report, source: &Source, refusal: Refusal, evidence: Option<&Evidence>) {
    add_fault(report, source, refusal);
    add_shape_fault(report, source, refusal, evidence);
}

/// Adds the reason why a program that has a tree is refused, and returns the refusal; `None` if the program is accepted.
fn add_refusal(report: &mut Report, source: &Source) -> Result<Option<Refusal>, AllocError>
    requires { IsOfText source.now }
    ensures { IfOk result (RefusesTree source.now) }
{
    let mut evidence = None;
    let told = match refusal_of(report.alloc, source, &mut evidence) {
        Ok(Some(refusal)) => {
            add_reason(report, source, refusal, evidence.as_ref());
            Ok(Some(refusal))
        }
        Ok(None) => Ok(None),
        Err(error) => Err(error),
    };
    drop(evidence);
    told
}

/// Adds the reason why the report's text is refused, and returns the refusal; `None` if the text is accepted.
fn add_first_fault(
    report: &mut Report,
    limits: TextLimits,
    text: &[u8],
) -> Result<Option<Refusal>, AllocError>
    ensures { IfOk result (Refuses limits text.now) }
{
    let mut expected = Expected::Item;
    match parse_expecting(report.alloc, limits, text, &mut expected) {
        Ok(source) => add_refusal(report, &source),
        Err(Fault::Refused(refusal)) => {
            add_text_fault(report, refusal, expected);
            Ok(Some(refusal))
        }
        Err(Fault::Memory(error)) => Err(error),
    }
}

/// The diagnosis of a program's text with these limits, in words for people: the fault in one sentence, the line of the text with a mark under its place, notes
/// and help. `None` if `in_check::check` accepts the text. Its only error is running out of memory.
///
/// The fault is the one for which `in_check::check` refuses the text. The words are this project's own choice: a clause says
/// that there are some exactly when the text is refused, and no clause says which.
pub fn diagnosis(
    alloc: Global,
    limits: TextLimits,
    text: &[u8],
) -> Result<Option<String>, AllocError>
    ensures { IfOk result (λ found. IsToldOfText limits text.now (is_some found)) }
{
    let mut report = Report::new(alloc, limits, text);
    match add_first_fault(&mut report, limits, text)? {
        Some(_refusal) => Ok(Some(report.into_text()?)),
        None => Ok(None),
    }
}

/// Adds the reason why passes that have no tree refuse the report's text, which is parsed again.
fn add_late_fault(report: &mut Report, text: &[u8], refusal: Refusal, evidence: Option<&Evidence>) {
    match parse(report.alloc, report.limits, text) {
        Ok(source) => add_reason(report, &source, refusal, evidence),
        Err(Fault::Memory(error)) => report.fail(error),
        // A text that these passes refuse has a tree.
        Err(Fault::Refused(_)) => (),
    }
}

/// Adds the reason why the report's text is refused, from what a check found of it.
fn add_found(report: &mut Report, text: &[u8], refusal: Refusal, findings: &Findings) {
    match (findings.source(), refusal.code) {
        (Some(source), _) => add_reason(report, source, refusal, findings.evidence()),
        (None, Code::E01) | (None, Code::E02) | (None, Code::E03) => {
            add_text_fault(report, refusal, findings.expected())
        }
        (None, _) => add_late_fault(report, text, refusal, findings.evidence()),
    }
}

/// As `diagnosis`, from what `in_check::check_finding` found of the text with the same limits, which isn't checked again. `None` if that is no refusal.
pub fn diagnosis_of(
    alloc: Global,
    limits: TextLimits,
    text: &[u8],
    findings: &Findings,
) -> Result<Option<String>, AllocError>
    ensures { IfOk result (λ found. is_some found ≡ is_some findings.now) }
{
    match findings.refusal() {
        Some(refusal) => {
            let mut report = Report::new(alloc, limits, text);
            add_found(&mut report, text, refusal, findings);
            Ok(Some(report.into_text()?))
        }
        None => Ok(None),
    }
}

/// The line of data on a refusal.
fn line_of(alloc: Global, refusal: Refusal, report: Report) -> Result<Vec<u8>, AllocError>
    ensures { IfOk result (λ line. IsDataOf refusal line.items) }
{
    let parts = report.into_data()?;
    let mut line = head(alloc, refusal)?;
    line.extend_from_slice(parts.as_bytes())?;
    Ok(line)
}

/// The diagnosis of a program's text with these limits as data: one JSON object and a line feed, in UTF-8. It begins with the number of this form, the code, the
/// line, the column and the bytes of the refusal; then come the sentences of the diagnosis, which are those of `diagnosis`, each with its place
/// and with the change of the text that it suggests. `None` if `in_check::check` accepts the text. Its only error is running out of memory.
///
/// The refusal is that of `in_check::check`. The form and the words are this project's own choice: a clause says how the line begins, and no
/// clause says how it goes on.
pub fn diagnosis_data(
    alloc: Global,
    limits: TextLimits,
    text: &[u8],
) -> Result<Option<Vec<u8>>, AllocError>
    ensures { IfOk result (IsToldAsData limits text.now) }
{
    let mut report = Report::new(alloc, limits, text);
    match add_first_fault(&mut report, limits, text)? {
        Some(refusal) => Ok(Some(line_of(alloc, refusal, report)?)),
        None => Ok(None),
    }
}
