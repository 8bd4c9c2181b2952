//! Wires whose two ends don't fit.
use crate::sentences;
use in_check::{Misfit, WireEnd};
use in_diagnosis_words::{Report, ToldEnd, agent_end, free_end, head_end, say_ends};
use in_syntax::{Place, Source, SourceSymbol, SymbolNo};

/// The declaration of a symbol.
fn declared(source: &Source, symbol: SymbolNo) -> Option<&SourceSymbol> {
    source.symbols.get(symbol.0 as usize)
}

/// An end of a wire, for a message.
fn told<'a>(source: &'a Source, end: WireEnd) -> Option<ToldEnd<'a>> {
    match end {
        WireEnd::Agent {
            symbol,
            port,
            place,
        } => agent_end(declared(source, symbol)?, port, place),
        WireEnd::Head {
            symbol,
            port,
            place,
        } => head_end(declared(source, symbol)?, port, place),
        WireEnd::Free(number) => free_end(source, number),
    }
}

/// The two ends of a wire, for a message.
fn told_both<'a>(
    source: &'a Source,
    misfit: Option<&Misfit>,
) -> Option<(ToldEnd<'a>, ToldEnd<'a>)> {
    let misfit = misfit?;
    Some((told(source, misfit.one)?, told(source, misfit.other)?))
}

/// Adds a wire whose two ends don't fit.
pub(crate) fn add_misfit(
    report: &mut Report,
    source: &Source,
    misfit: Option<&Misfit>,
    place: Place,
) {
    match told_both(source, misfit) {
        Some((one, other)) => say_ends(report, place, &one, &other),
        None => report.wrong(place, sentences::MISFIT),
    }
}
