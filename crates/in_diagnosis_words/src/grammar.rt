//! The tokens that the grammar expects, and its limits.
use crate::before::{
    begin_symbol, end_with_name_at, kind_after, last_kind, last_name, open_bracket, place_after,
    tokens_before,
};
use crate::near::distance;
use crate::reports::Report;
use crate::sentences;
use crate::slots::Value;
use in_syntax::{
    Expected, MAX_DEPTH, MAX_PORTS, MAX_TYPES, PartOf, Place, TextLimits, Token, TokenKind,
};
use std::alloc::{AllocError, Global};

/// The tokens that may follow a name alone, or a whole term.
fn after_term(part: PartOf, name: bool) -> &'static str {
    match (part, name) {
        (PartOf::Left, true) => "`(` or `~`",
        (PartOf::Left, false) => "`~`",
        (PartOf::Right, true) => "`(` or `;`",
        (PartOf::Right, false) => "`;`",
        (PartOf::Head, true) => "`(`, `,` or `]`",
        (PartOf::Head, false) => "`,` or `]`",
        (PartOf::Agent, true) => "`(`, `,` or `)`",
        (PartOf::Agent, false) => "`,` or `)`",
    }
}

/// The expected token, in words.
fn words(expected: Expected) -> &'static str {
    match expected {
        Expected::Item => "`type`, `symbol`, `rule` or `net`",
        Expected::TypeName => "the name of a type",
        Expected::TypeEnd => "`,` or `;`",
        Expected::SymbolName => "the name of a symbol",
        Expected::Colon => "`:`",
        Expected::PortType => "the name of a port's type",
        Expected::PortSign => "`+` or `-`",
        Expected::SymbolEnd => "`{` or `;`",
        Expected::ClassEnd => "`,` or `}`",
        Expected::HeadName => "the symbol of a head",
        Expected::HeadOpen => "`[`",
        Expected::HeadFirst => "a term or `]`",
        Expected::Meets => "`><`",
        Expected::RuleEnd => "`;` or `with`",
        Expected::RuleClose => "`;`",
        Expected::NetOpen => "`(`",
        Expected::FreeFirst => "the name of a free end or `)`",
        Expected::FreeName => "the name of a free end",
        Expected::FreeEnd => "`,` or `)`",
        Expected::BodyOpen => "`{`",
        Expected::Equation => "an equation or `}`",
        Expected::Term => "a term",
        Expected::AfterName(part) => after_term(part, true),
        Expected::AfterTerm(part) => after_term(part, false),
        Expected::Nothing => "the end of the text",
    }
}

/// Whether the word is reserved.
fn is_reserved(word: &str) -> bool {
    matches!(word, "type" | "symbol" | "rule" | "net")
}

/// The reserved word that is near to this one.
fn reserved_near(alloc: Global, found: &str) -> Result<Option<&'static str>, AllocError> {
    for word in ["type", "symbol", "rule", "net"] {
        if distance(alloc, found, word)?.is_some() {
            return Ok(Some(word));
        }
    }
    Ok(None)
}

/// Whether a token is a sign of the grammar and no word: no word begins as a sign does.
fn is_sign(token: &str) -> bool {
    matches!(
        token.as_bytes().first(),
        Some(
            b',' | b';' | b':' | b'+' | b'-' | b'{' | b'}' | b'(' | b')' | b'[' | b']' | b'~' | b'>'
        )
    )
}

/// A token, or the end of the text, that the grammar doesn't allow at its place.
#[derive(Clone, Copy)]
struct Unexpected<'a> {
    place: Place,
    found: &'a str,
    expected: Expected,
    before: &'a [Token],
    after: Option<TokenKind>,
}

impl Unexpected<'_> {
    /// Whether a name is expected, and the token is a reserved word.
    fn is_no_name(&self) -> bool {
        is_reserved(self.found)
            && matches!(
                self.expected,
                Expected::TypeName
                    | Expected::SymbolName
                    | Expected::HeadName
                    | Expected::PortType
                    | Expected::FreeFirst
                    | Expected::FreeName
                    | Expected::HeadFirst
                    | Expected::Term
            )
    }

    /// Whether the token is the end of the text, or begins an item or the net.
    fn is_next_item(&self) -> bool {
        self.found.is_empty() || is_reserved(self.found)
    }

    /// Whether a `;` is missing before it.
    fn misses_semicolon(&self) -> bool {
        match self.expected {
            Expected::TypeEnd | Expected::SymbolEnd | Expected::RuleEnd | Expected::RuleClose => {
                self.is_next_item()
            }
            Expected::AfterName(PartOf::Right) | Expected::AfterTerm(PartOf::Right) => {
                self.found == "}" || !is_sign(self.found)
            }
            _ => false,
        }
    }

    /// Whether a bracket that is open before the token may lack its end.
    fn may_be_open(&self) -> bool {
        self.is_next_item() && !self.is_no_name()
            || matches!(
                (self.expected, self.found),
                (
                    Expected::ClassEnd
                        | Expected::FreeFirst
                        | Expected::FreeEnd
                        | Expected::HeadFirst
                        | Expected::AfterName(PartOf::Head | PartOf::Agent)
                        | Expected::AfterTerm(PartOf::Head | PartOf::Agent),
                    ";" | "{" | "}" | ")" | "]" | "~" | "><"
                )
            )
    }

    /// Whether a name is cut in two by it.
    fn cuts_name(&self) -> bool {
        self.found == "-"
            && self.expected != Expected::PortSign
            && end_with_name_at(self.before, self.place.from)
    }

    /// The name before it, if it begins brackets with nothing in them, as a head has them.
    fn bare_name(&self) -> Option<Place> {
        match (self.expected, self.found, self.after) {
            (Expected::AfterName(_), "[", Some(TokenKind::CloseBracket)) => last_name(self.before),
            _ => None,
        }
    }

    /// The word of the grammar that may have been meant, if one is expected.
    fn meant(&self, alloc: Global) -> Result<Option<&'static str>, AllocError> {
        match (self.expected, self.after) {
            (Expected::Item, Some(TokenKind::Name | TokenKind::OpenParenthesis)) => {
                reserved_near(alloc, self.found)
            }
            _ => Ok(None),
        }
    }

    /// Help for brackets that close after a comma, or with nothing in them.
    fn help_with_closing(&self) -> Option<&'static str> {
        match (self.expected, last_kind(self.before)?) {
            (Expected::Term, TokenKind::Comma) => Some(sentences::TERM_AFTER_COMMA),
            (Expected::PortType, TokenKind::Comma) => Some(sentences::PORT_AFTER_COMMA),
            (Expected::FreeName, TokenKind::Comma) => Some(sentences::FREE_END_AFTER_COMMA),
            (Expected::Term, TokenKind::OpenParenthesis) => Some(sentences::NO_ARGUMENTS),
            (Expected::PortType, TokenKind::OpenBrace) => Some(sentences::NO_EMPTY_BRACES),
            _ => None,
        }
    }

    /// Help for a token in the place of brackets, or one that closes brackets that are empty or end with a comma.
    fn help_with_brackets(&self) -> Option<&'static str> {
        match (self.expected, self.found) {
            (_, ")" | "]" | "}") => self.help_with_closing(),
            (Expected::HeadOpen, "(") => Some(sentences::HEAD_BRACKETS),
            (Expected::HeadOpen, _) => Some(sentences::EMPTY_HEAD),
            (Expected::AfterName(_) | Expected::AfterTerm(_), "[") => Some(
                sentences::ARGUMENT_BRACKETS,
            ),
            (Expected::NetOpen, _) => Some(sentences::NET_BRACKETS),
            _ => None,
        }
    }

    /// Help for a token in the place of a name, or of a token after one.
    fn help_with_name(&self) -> Option<&'static str> {
        match self.expected {
            Expected::Colon if begin_symbol(self.before) => Some(sentences::SYMBOL_DECLARATION),
            Expected::Colon => Some(sentences::FREE_END_DECLARATION),
            _ if self.is_no_name() => Some(sentences::RESERVED_WORD),
            _ => None,
        }
    }

    /// Help for a token in the place of a section, or after the last one.
    fn help_with_section(&self) -> Option<&'static str> {
        match (self.expected, self.found, self.after) {
            (Expected::Item, "", _) => Some(sentences::ENDS_WITH_NET),
            (Expected::Item, ";", _) => Some(sentences::ONE_SEMICOLON),
            (Expected::Item, _, Some(TokenKind::OpenBracket)) if !is_sign(self.found) => Some(
                sentences::RULE_BEGINS,
            ),
            (Expected::Item, _, _) => Some(sentences::WHERE_EQUATIONS_STAND),
            (Expected::Nothing, ";", _) => Some(sentences::NOTHING_AFTER_NET),
            (Expected::Nothing, _, _) => Some(sentences::NET_COMES_LAST),
            _ => None,
        }
    }

    /// Help for a token in any other place.
    fn help_with_other(&self) -> &'static str {
        match self.expected {
            Expected::AfterName(PartOf::Left) | Expected::AfterTerm(PartOf::Left) =>
                sentences::EQUATION_FORM,
            Expected::AfterName(PartOf::Right) | Expected::AfterTerm(PartOf::Right) =>
                sentences::EQUATION_END,
            Expected::Equation if self.found == ";" => sentences::ONE_EQUATION_END,
            Expected::BodyOpen | Expected::Equation => sentences::EQUATIONS_FORM,
            Expected::ClassEnd
            | Expected::FreeEnd
            | Expected::AfterName(_)
            | Expected::AfterTerm(_) => sentences::COMMAS,
            _ => self.help_with_declaration(),
        }
    }

    /// Help for a token within a declaration or a rule.
    fn help_with_declaration(&self) -> &'static str {
        match self.expected {
            Expected::PortSign => sentences::PORT_FORM,
            Expected::TypeEnd => sentences::TYPES_FORM,
            Expected::SymbolEnd if self.is_next_item() => sentences::DECLARATION_END,
            Expected::SymbolEnd => sentences::BRACES_FORM,
            Expected::Meets => sentences::RULE_FORM,
            Expected::RuleEnd => sentences::RULE_END,
            Expected::RuleClose => sentences::RULE_CLOSE,
            _ => sentences::LOOK_BEFORE,
        }
    }

    /// The help for the token.
    fn help(&self) -> &'static str {
        if self.cuts_name() {
            return sentences::NO_MINUS_IN_NAMES;
        }
        if let Some(help) = self.help_with_section() {
            return help;
        }
        if let Some(help) = self.help_with_brackets() {
            return help;
        }
        match self.help_with_name() {
            Some(help) => help,
            None => self.help_with_other(),
        }
    }
}

/// Adds the place of a missing `;`: after the last token.
fn add_missing_semicolon(report: &mut Report, before: &[Token]) {
    if let Some(place) = place_after(before) {
        report.note(place, sentences::SEMICOLON_HERE);
        report.change(place, ";");
    }
}

/// The sign that closes a bracket.
fn closing(kind: TokenKind) -> &'static str {
    match kind {
        TokenKind::OpenBrace => "`}`",
        TokenKind::OpenBracket => "`]`",
        _ => "`)`",
    }
}

/// Adds the bracket that is open, and the sign that closes it.
fn add_open(report: &mut Report, bracket: Token) {
    report.note_on(bracket.place, sentences::IS_OPEN, report.at(bracket.place));
    report.help_on(sentences::CLOSED_BY, closing(bracket.kind));
}

/// The last open bracket, if it may have been meant to be closed before this.
fn open_before(unexpected: &Unexpected) -> Option<Token> {
    if unexpected.may_be_open() {
        open_bracket(unexpected.before)
    } else {
        None
    }
}

/// Adds the word that may have been meant at a place.
fn add_meant(report: &mut Report, place: Place, word: &str) {
    report.help_on(sentences::MEANT_WORD, word);
    report.change(place, word);
}

/// Adds help for a token that wasn't expected.
fn add_help(report: &mut Report, unexpected: &Unexpected) {
    if let Some(name) = unexpected.bare_name() {
        report.help_on(sentences::BARE_AGENT, report.at(name));
        return;
    }
    match unexpected.meant(report.alloc) {
        Ok(Some(word)) => add_meant(report, unexpected.place, word),
        Ok(None) => report.help(unexpected.help()),
        Err(error) => report.fail(error),
    }
}

/// Adds the notes on an unexpected token, and help.
fn add_reasons(report: &mut Report, unexpected: &Unexpected) {
    if unexpected.misses_semicolon() {
        add_missing_semicolon(report, unexpected.before);
    }
    match open_before(unexpected) {
        Some(bracket) => add_open(report, bracket),
        None => add_help(report, unexpected),
    }
}

/// The tokens before a place, and the kind of the one right after it.
fn around(report: &Report, place: Place) -> Result<(Vec<Token>, Option<TokenKind>), AllocError> {
    let before = tokens_before(report, place)?;
    let after = kind_after(report, place)?;
    Ok((before, after))
}

/// Adds the token that was found in the place of an expected one.
fn wrong_token(report: &mut Report, place: Place, found: &str, expected: Expected) {
    let sentence = if found.is_empty() {
        sentences::ENDS_HERE
    } else {
        sentences::UNEXPECTED
    };
    let slots = [
        ("found", Value::Text(found)),
        ("expected", Value::Text(words(expected))),
    ];
    report.wrong_with(place, sentence, &slots);
}

/// Adds an unexpected token, at a place where this is expected.
pub(crate) fn add_unexpected(report: &mut Report, place: Place, expected: Expected) {
    let found = report.at(place);
    wrong_token(report, place, found, expected);
    match around(report, place) {
        Ok((before, after)) => add_reasons(
            report,
            &Unexpected {
                place,
                found,
                expected,
                before: before.as_slice(),
                after,
            },
        ),
        Err(error) => report.fail(error),
    }
}

/// Adds that a text has too many bytes, or a word too many characters, by this sentence with the most allowed. Their number is not known, since
/// reading stops past the limit.
pub(crate) fn add_too_long(report: &mut Report, place: Place, sentence: &str, most: usize) {
    report.wrong_with(place, sentence, &[("most", Value::Number(most))]);
}

/// The limit that is passed when the grammar expects this, and the things that it counts.
fn limit(limits: TextLimits, expected: Expected) -> (usize, &'static str) {
    match expected {
        Expected::TypeName => (MAX_TYPES, "types"),
        Expected::SymbolName => (limits.symbols(), "symbols"),
        Expected::Item => (limits.rules(), "rules"),
        Expected::PortType => (MAX_PORTS, "auxiliary ports of one symbol"),
        Expected::FreeName => (limits.free_names(), "free ends"),
        _ => (MAX_DEPTH, "terms within each other"),
    }
}

/// Help at that limit, if there is any.
fn limit_help(expected: Expected) -> Option<&'static str> {
    match expected {
        Expected::Term => Some(sentences::NAME_AN_INNER_TERM),
        Expected::PortType => Some(sentences::AGENT_FOR_SEVERAL),
        Expected::FreeName => Some(sentences::FREE_END_FOR_SEVERAL),
        _ => None,
    }
}

/// Whether the large limits allow more of what is expected at that limit.
fn is_larger(expected: Expected) -> bool {
    match expected {
        Expected::SymbolName | Expected::Item | Expected::FreeName => true,
        _ => false,
    }
}

/// Adds that larger programs are allowed by the other limits, if the text was read by the usual ones.
pub fn add_larger(report: &mut Report) {
    if let TextLimits::Usual = report.limits {
        report.help(sentences::LARGER);
    }
}

/// Adds that there are more things than the most allowed.
pub fn add_more_than(report: &mut Report, place: Place, most: usize, what: &str) {
    let slots = [("most", Value::Number(most)), ("what", Value::Text(what))];
    report.wrong_with(place, sentences::MORE_THAN, &slots);
}

/// Adds the limit of the grammar that is passed when this is expected.
pub(crate) fn add_limit(report: &mut Report, place: Place, expected: Expected) {
    let (most, what) = limit(report.limits, expected);
    add_more_than(report, place, most, what);
    if let Some(sentence) = limit_help(expected) {
        report.help(sentence);
    }
    if is_larger(expected) {
        add_larger(report);
    }
}
