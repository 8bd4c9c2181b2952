//! Other braces with which a program that no steps build is accepted: each is tried before it is suggested.
ghost use Rattle.std.specs.Prelude.{◌≡◌, IfOk};
ghost use Rattle.in_diagnosis.specs.Remedies.{IsAnsweredWith, is_stuck};

use crate::sentences;
use in_check::check;
use in_diagnosis_words::{
    Braces, Change, Changed, Kind, Report, Value, Words, declaration_with, has_usual_braces,
    place_at, rule_at,
};
use in_syntax::{Code, Fault, Place, Source, SourceSymbol, TextLimits};
use std::alloc::{AllocError, Global};

/// The most declarations that are tried. Each takes a check, which may go further than the one that refused the text.
pub(crate) const MOST_TRIED: usize = 4;

/// The most bytes that are checked for all declarations that are tried, so that a diagnosis takes no more than some checks.
const MOST_CHECKED: usize = 32_768;

/// The most declarations that are suggested at once.
const MOST_DECLARED: usize = 6;

/// A symbol with other braces.
#[derive(Clone, Copy)]
pub(crate) struct Remedy<'a> {
    pub(crate) symbol: &'a SourceSymbol,
    pub(crate) braces: Braces,
}

/// Whether two remedies are one.
fn is_one(one: &Remedy, other: &Remedy) -> bool {
    one.symbol.name.place.from == other.symbol.name.place.from && one.braces == other.braces
}

/// Whether a remedy is among these.
fn is_among(remedies: &[Remedy], remedy: &Remedy) -> bool {
    for other in remedies {
        if is_one(other, remedy) {
            return true;
        }
    }
    false
}

/// Adds a remedy to try, if it is another one and there is room.
pub(crate) fn add_remedy<'a>(
    remedies: &mut Vec<Remedy<'a>>,
    remedy: Remedy<'a>,
) -> Result<(), AllocError> {
    if remedies.len() < MOST_TRIED && !is_among(remedies.as_slice(), &remedy) {
        remedies.push(remedy)?;
    }
    Ok(())
}

/// The result of `in_check::check` on a text with other braces.
#[derive(Clone, Copy)]
enum Verdict {
    /// It is accepted.
    Accepted,
    /// It is refused at this byte, since no steps build a rule or the net.
    Stuck(usize),
    /// It is refused for another fault.
    Refused,
}

/// Whether a code is that of a rule or a net that no steps build.
fn is_stuck(code: Code) -> bool
    ensures { result ≡ is_stuck code }
{
    match code {
        Code::E12 | Code::E13 => true,
        _ => false,
    }
}

/// The outcome of `in_check::check` on a text.
fn answer_to(alloc: Global, limits: TextLimits, text: &[u8]) -> Result<Verdict, AllocError>
    ensures { IfOk result (IsAnsweredWith limits text.now) }
{
    match check(alloc, limits, text) {
        Ok(_program) => Ok(Verdict::Accepted),
        Err(Fault::Refused(refusal)) if is_stuck(refusal.code) => {
            Ok(Verdict::Stuck(refusal.place.from as usize))
        }
        Err(Fault::Refused(_)) => Ok(Verdict::Refused),
        Err(Fault::Memory(error)) => Err(error),
    }
}

/// A refused rule or net, with its place and its text.
#[derive(Clone, Copy)]
pub(crate) struct Refused<'a> {
    pub(crate) text: &'a [u8],
    pub(crate) source: &'a Source,
    pub(crate) what: &'a str,
    pub(crate) place: Place,
}

/// The effect of a change.
#[derive(Clone, Copy, PartialEq, Eq)]
enum Effect {
    /// The program is accepted with it.
    Accepts,
    /// The refused rule is built, and a later rule or the net is not.
    Builds,
    /// An earlier rule, around this byte of the text, is not built.
    BreaksRuleAt(usize),
    /// The refused rule or net is still not built.
    Nothing,
}

impl Refused<'_> {
    /// The number of the rule around a byte; the number of the net is larger.
    fn number(&self, at: usize) -> usize {
        rule_at(self.source, at).unwrap_or(usize::MAX)
    }

    /// The effect of a change after which the rule or the net around this byte of the text is refused.
    fn effect_at(&self, at: usize) -> Effect {
        let here = self.number(self.place.from as usize);
        let there = self.number(at);
        if here < there {
            Effect::Builds
        } else if there < here {
            Effect::BreaksRuleAt(at)
        } else {
            Effect::Nothing
        }
    }

    /// The effect of a change, found by a check of the changed text.
    fn effect(&self, alloc: Global, change: Change) -> Result<Effect, AllocError> {
        let edits = change.edits(alloc, self.text, self.source)?;
        let changed = Changed::new(alloc, self.text, edits.as_slice())?;
        match answer_to(alloc, self.source.limits, changed.text()) {
            Ok(Verdict::Accepted) => Ok(Effect::Accepts),
            Ok(Verdict::Stuck(at)) => Ok(self.effect_at(changed.before(at))),
            Ok(Verdict::Refused) => Ok(Effect::Nothing),
            Err(error) => Err(error),
        }
    }

    /// The effect of the usual braces, if some symbol is declared with other ones.
    fn usual_effect(&self, alloc: Global) -> Result<Effect, AllocError> {
        if Change::AllUsual.count(self.source) == 0 {
            return Ok(Effect::Nothing);
        }
        self.effect(alloc, Change::AllUsual)
    }
}

/// A remedy and its effect.
#[derive(Clone, Copy)]
struct Trial<'a> {
    remedy: Remedy<'a>,
    effect: Effect,
}

/// The rank of an effect: a better one is higher.
fn rank(effect: Effect) -> u8 {
    match effect {
        Effect::Accepts => 3,
        Effect::Builds => 2,
        Effect::BreaksRuleAt(_) => 1,
        Effect::Nothing => 0,
    }
}

/// The better of two remedies; the first if they are equally good.
fn better<'a>(best: Option<Trial<'a>>, tried: Trial<'a>) -> Trial<'a> {
    match best {
        Some(best) if rank(tried.effect) <= rank(best.effect) => best,
        _ => tried,
    }
}

/// The first of these remedies after which the text is accepted; if there is none, the first of the highest rank.
fn best_of<'a>(
    alloc: Global,
    refused: Refused,
    remedies: &[Remedy<'a>],
) -> Result<Option<Trial<'a>>, AllocError> {
    let mut best = None;
    for remedy in remedies {
        let effect = refused.effect(alloc, Change::One(remedy.symbol, remedy.braces))?;
        let tried = Trial {
            remedy: *remedy,
            effect,
        };
        best = Some(better(best, tried));
        if effect == Effect::Accepts {
            break;
        }
    }
    Ok(best)
}

/// The remedies among these that are tried for a text.
fn to_try<'r, 'a>(text: &[u8], remedies: &'r [Remedy<'a>]) -> &'r [Remedy<'a>] {
    let most = MOST_CHECKED.checked_div(text.len()).unwrap_or(0);
    remedies.get(..most).unwrap_or(remedies)
}

/// Writes a sentence with the declaration of a remedy, the refused rule or net, and a place.
fn say_remedy<'s>(
    words: &mut Words,
    sentence: &str,
    declaration: &'s str,
    what: &'s str,
    place: Place,
) {
    let slots = [
        ("declaration", Value::Text(declaration)),
        ("what", Value::Text(what)),
        ("place", Value::Spot(place)),
    ];
    words.fill(sentence, &slots);
}

/// Adds a sentence on a remedy, with its declaration.
fn add_declaration(
    report: &mut Report,
    kind: Kind,
    sentence: &str,
    remedy: Remedy,
    what: &str,
    place: Place,
) {
    match declaration_with(report.alloc, remedy.symbol, remedy.braces) {
        Ok(declaration) => {
            let mut words = Words::new(report.alloc);
            say_remedy(&mut words, sentence, declaration.as_str(), what, place);
            report.add(kind, None, words);
        }
        Err(error) => report.fail(error),
    }
}

/// Adds a change of the text, which was tried, to the last message.
fn add_change(report: &mut Report, refused: Refused, change: Change, accepted: bool) {
    match change.edits(report.alloc, refused.text, refused.source) {
        Ok(edits) => report.change_by(edits, accepted),
        Err(error) => report.fail(error),
    }
}

/// Adds a remedy that builds the refused rule or net, by a sentence with its declaration.
fn add_mending(
    report: &mut Report,
    refused: Refused,
    sentence: &str,
    remedy: Remedy,
    accepted: bool,
) {
    let Refused { what, place, .. } = refused;
    add_declaration(report, Kind::Help, sentence, remedy, what, place);
    let change = Change::One(remedy.symbol, remedy.braces);
    add_change(report, refused, change, accepted);
}

/// Adds the effect of a remedy, if it has one. Returns whether the remedy builds the refused rule or net.
fn add_tried(report: &mut Report, refused: Refused, tried: Trial) -> bool {
    let remedy = tried.remedy;
    match tried.effect {
        Effect::Accepts => add_mending(report, refused, sentences::MENDS, remedy, true),
        Effect::Builds => add_mending(report, refused, sentences::BUILDS, remedy, false),
        Effect::BreaksRuleAt(at) => {
            let there = place_at(refused.text, at);
            add_declaration(
                report,
                Kind::Note,
                sentences::REFUSED_BEFORE,
                remedy,
                refused.what,
                there,
            );
        }
        Effect::Nothing => (),
    }
    rank(tried.effect) > 1
}

/// Adds the declarations that the usual braces change, by a sentence on the effect of these braces.
fn add_usual(report: &mut Report, refused: Refused, sentence: &str, accepted: bool) {
    let mut words = Words::new(report.alloc);
    words.fill(sentence, &[("what", Value::Text(refused.what))]);
    Change::AllUsual.say(&mut words, refused.source, MOST_DECLARED);
    let count = Change::AllUsual.count(refused.source);
    if count > MOST_DECLARED {
        let more = Value::Number(count - MOST_DECLARED);
        words.fill(sentences::AND_MORE, &[("count", more)]);
    }
    report.add(Kind::Help, None, words);
    add_change(report, refused, Change::AllUsual, accepted);
}

/// The first symbol of a program that has no usual braces.
fn first_without(source: &Source) -> Option<&SourceSymbol> {
    for symbol in source.symbols.as_slice() {
        if !has_usual_braces(symbol) {
            return Some(symbol);
        }
    }
    None
}

/// Adds general help if nothing that was tried helps, or nothing was tried.
fn add_without(report: &mut Report, source: &Source, best: Option<Trial>) {
    report.help(match best {
        Some(_) => sentences::NO_BRACES_TRIED,
        None => sentences::CONNECT_OTHERS,
    });
    if let Some(symbol) = first_without(source) {
        let sentence = if symbol.port.output {
            sentences::CONSTRUCTOR_WITH_OUTPUTS
        } else {
            sentences::OUTPUTS_APART
        };
        report.help_with(
            sentence,
            &[("symbol", Value::Text(symbol.name.text.as_str()))],
        );
    }
}

/// Adds the effect of the usual braces if they help, otherwise one declaration that was tried, otherwise general help.
fn add_usual_or(report: &mut Report, refused: Refused, best: Option<Trial>, usual: Effect) {
    match (usual, best) {
        (Effect::Accepts, _) => add_usual(report, refused, sentences::USUAL_MENDS, true),
        (Effect::Builds, _) => add_usual(report, refused, sentences::USUAL_BUILDS, false),
        (_, Some(tried)) if add_tried(report, refused, tried) => (),
        _ => add_without(report, refused.source, best),
    }
}

/// Adds help if no single declaration makes the program accepted.
fn add_other_help(report: &mut Report, refused: Refused, best: Option<Trial>) {
    match refused.usual_effect(report.alloc) {
        Ok(usual) => add_usual_or(report, refused, best, usual),
        Err(error) => report.fail(error),
    }
}

/// Adds help: the first of these remedies with which the text is accepted, otherwise the usual braces if they build the refused rule or net, else
/// the best of the remedies.
pub(crate) fn add_help(report: &mut Report, remedies: &[Remedy], refused: Refused) {
    match best_of(report.alloc, refused, to_try(refused.text, remedies)) {
        Ok(Some(tried)) if tried.effect == Effect::Accepts => {
            add_tried(report, refused, tried);
        }
        Ok(best) => add_other_help(report, refused, best),
        Err(error) => report.fail(error),
    }
}

/// Adds help against a directed circle: the first of these remedies that builds the refused rule or net. In the usual braces the circle stays.
pub(crate) fn add_help_for_value(report: &mut Report, remedies: &[Remedy], refused: Refused) {
    if remedies.is_empty() {
        report.help(sentences::NO_BRACES);
        return;
    }
    match best_of(report.alloc, refused, to_try(refused.text, remedies)) {
        Ok(Some(tried)) if add_tried(report, refused, tried) => (),
        Ok(_) => report.help(sentences::ONLY_JOINED),
        Err(error) => report.fail(error),
    }
}
