ghost use Rattle.std.specs.Prelude.{◌≡◌, [], ◌∷◌, IfOk, OnOk};
ghost use Rattle.in_syntax.specs.Steps as steps;
ghost use Rattle.in_syntax.specs.Steps.{move_of, led};
ghost use Rattle.in_syntax.specs.Moves as move;
ghost use Rattle.in_syntax.specs.Grammar as grammar;
ghost use Rattle.in_syntax.specs.Trees.{bare_rule, with_argument};

use crate::counts::Counts;
use crate::faults::Code;
use crate::places::Place;
use crate::signs::Sign;
use crate::stack::Stack;
use crate::states::{
    EquationsOf, HeadOf, Nest, PortOf, State, TermOf, put_away, put_away_body, put_away_head,
    put_away_nest, put_away_port, put_away_term,
};
use crate::tree::{
    Equation, Equations, Head, Name, SourceClass, SourceClasses, SourceFree, SourceFrees,
    SourceNet, SourcePort, SourceRule, SourceSymbol, Term, TypeNames,
};
use crate::words::TokenKind;
use sqlite_items::Boxed;
use std::alloc::{AllocError, Global};
use std::mem;

/// The greatest number of types, by any `TextLimits`. This project's own choice, as the other limits are.
pub const MAX_TYPES: usize = 256;

/// The greatest number of auxiliary ports of a symbol.
pub const MAX_PORTS: usize = 16;

/// The greatest depth of a term.
pub const MAX_DEPTH: usize = 200;

/// The event after a token.
#[derive(Drop)]
pub enum Event {
    /// The next token is read in the state that was written.
    Goes,
    /// A `type` item is whole.
    Types(TypeNames),
    /// A `symbol` item is whole.
    Symbol(Boxed<SourceSymbol>),
    /// A `rule` item is whole.
    Rule(Boxed<SourceRule>),
    /// The token is the fault.
    Refuses(Code),
}

/// Writes the state in which the next token is read.
pub fn write(state: &mut State, next: State)
    ensures { state.new ≡ next }
{
    match mem::replace(state, next) {
        State::Item => {}
        before => put_away(before),
    }
}

// Reads the next token in this state.
fn goes(state: &mut State, next: State) -> Event
    ensures { led result state.new ≡ move.Goes next }
{
    write(state, next);
    Event::Goes
}

/// The event after this sign in this state, with these numbers of declarations before the item. It also writes the next state. Its only error is
/// running out of memory.
///
/// Most tokens are in terms. The parts of all other states are in another function, since a function clears its room for all parts first.
pub fn step(
    state: &mut State,
    alloc: Global,
    counts: Counts,
    sign: Sign,
) -> Result<Event, AllocError>
    ensures { IfOk result (λ m. led m state.new ≡ move_of (steps.step counts state.old sign)) }
{
    match mem::replace(state, State::Item) {
        State::TermName(nest) => Ok(at_term_name(state, nest, sign)),
        State::TermOpen(nest, name) => at_term_open(state, alloc, nest, name, sign),
        State::TermEnd(nest, term) => at_term_end(state, alloc, nest, term, sign),
        before => step_from(state, before, alloc, counts, sign),
    }
}

/// The same from the state `before`. The old value of `state` doesn't matter.
#[inline(never)]
fn step_from(
    state: &mut State,
    before: State,
    alloc: Global,
    counts: Counts,
    sign: Sign,
) -> Result<Event, AllocError>
    ensures { IfOk result (λ m. led m state.new ≡ move_of (steps.step counts before sign)) }
{
    match before {
        State::Item => Ok(at_item(state, alloc, counts, sign)),
        State::TypeName(names) => at_type_name(state, counts, names, sign),
        State::TypeEnd(names) => Ok(at_type_end(state, names, sign)),
        State::SymbolName => Ok(at_symbol_name(state, counts, sign)),
        State::SymbolColon(name) => at_symbol_colon(state, alloc, name, sign),
        State::PortKind(port_of) => Ok(at_port_kind(state, port_of, sign)),
        State::PortSign(port_of, kind) => at_port_sign(state, alloc, port_of, kind, sign),
        State::SymbolEnd(symbol, number) => Ok(at_symbol_end(state, alloc, symbol, number, sign)),
        State::ClassEnd(symbol, class, number) => at_class_end(
            state, alloc, symbol, class, number, sign,
        ),
        State::HeadName(head_of) => Ok(at_head_name(state, head_of, sign)),
        State::HeadOpen(head_of, name) => Ok(at_head_open(state, head_of, name, sign)),
        State::HeadFirst(head_of, name) => at_head_first(state, alloc, head_of, name, sign),
        State::HeadEnd(head_of, head) => at_head_end(state, alloc, head_of, head, sign),
        State::RuleOpen(first, second, word) => at_rule_open(
            state, alloc, first, second, word, sign,
        ),
        State::RuleClose(rule, _) => Ok(at_rule_close(state, rule, sign)),
        State::NetOpen => Ok(at_net_open(state, sign)),
        State::FreeFirst => Ok(at_free_first(state, alloc, sign)),
        State::FreeName(frees) => Ok(at_free_name(state, counts, frees, sign)),
        State::FreeColon(frees, name) => at_free_colon(state, alloc, frees, name, sign),
        State::FreeEnd(frees) => Ok(at_free_end(state, frees, sign)),
        State::BodyOpen(frees) => Ok(at_body_open(state, alloc, frees, sign)),
        State::Equation(body) => at_equation(state, alloc, body, sign),
        State::TermName(nest) => Ok(at_term_name(state, nest, sign)),
        State::TermOpen(nest, name) => at_term_open(state, alloc, nest, name, sign),
        State::TermEnd(nest, term) => at_term_end(state, alloc, nest, term, sign),
        State::Done(_net) => Ok(Event::Refuses(Code::E02)),
    }
}

fn at_item(state: &mut State, alloc: Global, counts: Counts, sign: Sign) -> Event
    ensures { led result state.new ≡ move_of (steps.at_item counts sign) }
{
    match sign {
        Sign::Plain(TokenKind::Type) => goes(state, State::TypeName(TypeNames::new(alloc))),
        Sign::Plain(TokenKind::Symbol) => goes(state, State::SymbolName),
        Sign::Plain(TokenKind::Rule) => {
            if counts.rules >= counts.limits.rules() {
                Event::Refuses(Code::E03)
            } else {
                goes(state, State::HeadName(HeadOf::First))
            }
        }
        Sign::Plain(TokenKind::Net) => goes(state, State::NetOpen),
        _ => Event::Refuses(Code::E02),
    }
}

fn at_type_name(
    state: &mut State,
    counts: Counts,
    mut names: TypeNames,
    sign: Sign,
) -> Result<Event, AllocError>
    ensures { IfOk result (λ m. led m state.new ≡ move_of (steps.at_type_name counts names sign)) }
{
    match sign {
        Sign::Named(name) => {
            if names.len() >= MAX_TYPES.saturating_sub(counts.types) {
                return Ok(Event::Refuses(Code::E03));
            }
            names.push(name)?;
            Ok(goes(state, State::TypeEnd(names)))
        }
        _ => Ok(Event::Refuses(Code::E02)),
    }
}

fn at_type_end(state: &mut State, names: TypeNames, sign: Sign) -> Event
    ensures { led result state.new ≡ move_of (steps.at_type_end names sign) }
{
    match sign {
        Sign::Plain(TokenKind::Comma) => goes(state, State::TypeName(names)),
        Sign::Plain(TokenKind::Semicolon) => Event::Types(names),
        _ => Event::Refuses(Code::E02),
    }
}

fn at_symbol_name(state: &mut State, counts: Counts, sign: Sign) -> Event
    ensures { led result state.new ≡ move_of (steps.at_symbol_name counts sign) }
{
    match sign {
        Sign::Named(name) => {
            if counts.symbols >= counts.limits.symbols() {
                Event::Refuses(Code::E03)
            } else {
                goes(state, State::SymbolColon(name))
            }
        }
        _ => Event::Refuses(Code::E02),
    }
}

fn at_symbol_colon(
    state: &mut State,
    alloc: Global,
    name: Name,
    sign: Sign,
) -> Result<Event, AllocError>
    ensures { IfOk result (λ m. led m state.new ≡ move_of (steps.at_symbol_colon name sign)) }
{
    match sign {
        Sign::Plain(TokenKind::Colon) => {
            let of = PortOf::Principal(Boxed::new(alloc, name)?);
            Ok(goes(state, State::PortKind(of)))
        }
        _ => Ok(Event::Refuses(Code::E02)),
    }
}

fn at_port_kind(state: &mut State, port_of: PortOf, sign: Sign) -> Event
    ensures { led result state.new ≡ move_of (steps.at_port_kind port_of sign) }
{
    match sign {
        Sign::Named(kind) => match port_of {
            PortOf::Auxiliary(symbol, class, number) => {
                if number > MAX_PORTS {
                    Event::Refuses(Code::E03)
                } else {
                    let port_of = PortOf::Auxiliary(symbol, class, number + 1);
                    goes(state, State::PortSign(port_of, kind))
                }
            }
            port_of => goes(state, State::PortSign(port_of, kind)),
        },
        _ => {
            put_away_port(port_of);
            Event::Refuses(Code::E02)
        }
    }
}

fn at_port_sign(
    state: &mut State,
    alloc: Global,
    port_of: PortOf,
    kind: Name,
    sign: Sign,
) -> Result<Event, AllocError>
    ensures { IfOk result (λ m. led m state.new ≡ move_of (steps.at_port_sign port_of kind sign)) }
{
    let output = match sign {
        Sign::Plain(TokenKind::Plus) => true,
        Sign::Plain(TokenKind::Minus) => false,
        _ => {
            put_away_port(port_of);
            return Ok(Event::Refuses(Code::E02));
        }
    };
    after_port(state, alloc, port_of, SourcePort { kind, output })
}

fn after_port(
    state: &mut State,
    alloc: Global,
    port_of: PortOf,
    port: SourcePort,
) -> Result<Event, AllocError>
    ensures { IfOk result (λ m. led m state.new ≡ move_of (steps.on (steps.after_port port_of port))) }
{
    match port_of {
        PortOf::Principal(name) => {
            let classes = SourceClasses::new(alloc);
            let symbol = SourceSymbol {
                name: name.into_inner(),
                port,
                classes,
            };
            Ok(goes(state, State::SymbolEnd(Boxed::new(alloc, symbol)?, 1)))
        }
        PortOf::Auxiliary(symbol, mut class, number) => {
            class.push(port)?;
            Ok(goes(state, State::ClassEnd(symbol, class, number)))
        }
        PortOf::Free(mut frees, name) => {
            let name = name.into_inner();
            frees.push(SourceFree { name, port })?;
            Ok(goes(state, State::FreeEnd(frees)))
        }
    }
}

fn at_symbol_end(
    state: &mut State,
    alloc: Global,
    symbol: Boxed<SourceSymbol>,
    number: usize,
    sign: Sign,
) -> Event
    ensures { led result state.new ≡ move_of (steps.at_symbol_end symbol number sign) }
{
    match sign {
        Sign::Plain(TokenKind::OpenBrace) => goes(
            state,
            State::PortKind(PortOf::Auxiliary(symbol, SourceClass::new(alloc), number)),
        ),
        Sign::Plain(TokenKind::Semicolon) => Event::Symbol(symbol),
        _ => Event::Refuses(Code::E02),
    }
}

fn at_class_end(
    state: &mut State,
    alloc: Global,
    symbol: Boxed<SourceSymbol>,
    class: SourceClass,
    number: usize,
    sign: Sign,
) -> Result<Event, AllocError>
    ensures { IfOk result (λ m. led m state.new ≡ move_of (steps.at_class_end symbol class number sign)) }
{
    match sign {
        Sign::Plain(TokenKind::Comma) => Ok(goes(
            state,
            State::PortKind(PortOf::Auxiliary(symbol, class, number)),
        )),
        Sign::Plain(TokenKind::CloseBrace) => {
            let symbol = symbol.into_inner().with_class(class)?;
            Ok(goes(state, State::SymbolEnd(Boxed::new(alloc, symbol)?, number)))
        }
        _ => Ok(Event::Refuses(Code::E02)),
    }
}

fn at_head_name(state: &mut State, head_of: HeadOf, sign: Sign) -> Event
    ensures { led result state.new ≡ move_of (steps.at_head_name head_of sign) }
{
    match sign {
        Sign::Named(name) => goes(state, State::HeadOpen(head_of, name)),
        _ => Event::Refuses(Code::E02),
    }
}

fn at_head_open(state: &mut State, head_of: HeadOf, name: Name, sign: Sign) -> Event
    ensures { led result state.new ≡ move_of (steps.at_head_open head_of name sign) }
{
    match sign {
        Sign::Plain(TokenKind::OpenBracket) => goes(state, State::HeadFirst(head_of, name)),
        _ => Event::Refuses(Code::E02),
    }
}

fn at_head_first(
    state: &mut State,
    alloc: Global,
    head_of: HeadOf,
    name: Name,
    sign: Sign,
) -> Result<Event, AllocError>
    ensures { IfOk result (λ m. led m state.new ≡ move_of (steps.at_head_first head_of name sign)) }
{
    let head = Head::bare(alloc, name);
    match sign {
        Sign::Named(first) => {
            let of = Boxed::new(alloc, TermOf::Inside(head_of, head))?;
            let around = Stack::new(alloc);
            Ok(goes(state, State::TermOpen(Nest { of, around }, first)))
        }
        Sign::Plain(TokenKind::CloseBracket) => Ok(goes(state, State::HeadEnd(head_of, head))),
        _ => Ok(Event::Refuses(Code::E02)),
    }
}

fn at_head_end(
    state: &mut State,
    alloc: Global,
    head_of: HeadOf,
    head: Head,
    sign: Sign,
) -> Result<Event, AllocError>
    ensures { IfOk result (λ m. led m state.new ≡ move_of (steps.at_head_end head_of head sign)) }
{
    match (head_of, sign) {
        (HeadOf::First, Sign::Plain(TokenKind::Meets)) => {
            let head = Boxed::new(alloc, head)?;
            Ok(goes(state, State::HeadName(HeadOf::Second(head))))
        }
        (HeadOf::Second(first), Sign::Plain(TokenKind::Semicolon)) => {
            Ok(Event::Rule(bare_rule_of(alloc, first, head)?))
        }
        (HeadOf::Second(first), Sign::Named(name)) => Ok(at_with(state, first, head, name)),
        _ => Ok(Event::Refuses(Code::E02)),
    }
}

// A rule of these heads without equations.
fn bare_rule_of(
    alloc: Global,
    first: Boxed<Head>,
    second: Head,
) -> Result<Boxed<SourceRule>, AllocError>
    ensures { IfOk result (λ r. r ≡ bare_rule first second) }
{
    Boxed::new(alloc, SourceRule::bare(alloc, first.into_inner(), second))
}

// Whether a name is the word before the equations of a rule.
fn is_with(name: &Name) -> bool
    ensures { result ≡ grammar.is_with name.now }
{
    name.text.as_str() == "with"
}

fn at_with(state: &mut State, first: Boxed<Head>, second: Head, name: Name) -> Event
    ensures { led result state.new ≡ move_of (steps.at_with first second name.place (grammar.is_with name)) }
{
    if is_with(&name) {
        goes(state, State::RuleOpen(first, second, name.place))
    } else {
        Event::Refuses(Code::E02)
    }
}

fn at_rule_open(
    state: &mut State,
    alloc: Global,
    first: Boxed<Head>,
    second: Head,
    word: Place,
    sign: Sign,
) -> Result<Event, AllocError>
    ensures { IfOk result (λ m. led m state.new ≡ move_of (steps.at_rule_open first second word sign)) }
{
    match sign {
        Sign::Plain(TokenKind::OpenBrace) => {
            let rule = bare_rule_of(alloc, first, second)?;
            Ok(goes(state, State::Equation(EquationsOf::Rule(rule, word))))
        }
        _ => Ok(Event::Refuses(Code::E02)),
    }
}

fn at_rule_close(state: &mut State, rule: Boxed<SourceRule>, sign: Sign) -> Event
    ensures { led result state.new ≡ move_of (steps.at_rule_close rule sign) }
{
    match sign {
        Sign::Plain(TokenKind::Semicolon) => Event::Rule(rule),
        _ => Event::Refuses(Code::E02),
    }
}

fn at_net_open(state: &mut State, sign: Sign) -> Event
    ensures { led result state.new ≡ move_of (steps.at_net_open sign) }
{
    match sign {
        Sign::Plain(TokenKind::OpenParenthesis) => goes(state, State::FreeFirst),
        _ => Event::Refuses(Code::E02),
    }
}

fn at_free_first(state: &mut State, alloc: Global, sign: Sign) -> Event
    ensures { led result state.new ≡ move_of (steps.at_free_first sign) }
{
    match sign {
        Sign::Named(name) => goes(state, State::FreeColon(SourceFrees::new(alloc), name)),
        Sign::Plain(TokenKind::CloseParenthesis) => {
            goes(state, State::BodyOpen(SourceFrees::new(alloc)))
        }
        _ => Event::Refuses(Code::E02),
    }
}

fn at_free_name(state: &mut State, counts: Counts, frees: SourceFrees, sign: Sign) -> Event
    ensures { led result state.new ≡ move_of (steps.at_free_name counts frees sign) }
{
    match sign {
        Sign::Named(name) => {
            if frees.len() >= counts.limits.free_names() {
                Event::Refuses(Code::E03)
            } else {
                goes(state, State::FreeColon(frees, name))
            }
        }
        _ => Event::Refuses(Code::E02),
    }
}

fn at_free_colon(
    state: &mut State,
    alloc: Global,
    frees: SourceFrees,
    name: Name,
    sign: Sign,
) -> Result<Event, AllocError>
    ensures { IfOk result (λ m. led m state.new ≡ move_of (steps.at_free_colon frees name sign)) }
{
    match sign {
        Sign::Plain(TokenKind::Colon) => {
            let of = PortOf::Free(frees, Boxed::new(alloc, name)?);
            Ok(goes(state, State::PortKind(of)))
        }
        _ => Ok(Event::Refuses(Code::E02)),
    }
}

fn at_free_end(state: &mut State, frees: SourceFrees, sign: Sign) -> Event
    ensures { led result state.new ≡ move_of (steps.at_free_end frees sign) }
{
    match sign {
        Sign::Plain(TokenKind::Comma) => goes(state, State::FreeName(frees)),
        Sign::Plain(TokenKind::CloseParenthesis) => goes(state, State::BodyOpen(frees)),
        _ => Event::Refuses(Code::E02),
    }
}

fn at_body_open(state: &mut State, alloc: Global, free: SourceFrees, sign: Sign) -> Event
    ensures { led result state.new ≡ move_of (steps.at_body_open free sign) }
{
    match sign {
        Sign::Plain(TokenKind::OpenBrace) => {
            let equations = Equations::new(alloc);
            goes(
                state,
                State::Equation(EquationsOf::Net(SourceNet { free, equations })),
            )
        }
        _ => Event::Refuses(Code::E02),
    }
}

fn at_equation(
    state: &mut State,
    alloc: Global,
    body: EquationsOf,
    sign: Sign,
) -> Result<Event, AllocError>
    ensures { IfOk result (λ m. led m state.new ≡ move_of (steps.at_equation body sign)) }
{
    match sign {
        Sign::Named(name) => {
            let of = Boxed::new(alloc, TermOf::Left(body))?;
            let around = Stack::new(alloc);
            Ok(goes(state, State::TermOpen(Nest { of, around }, name)))
        }
        Sign::Plain(TokenKind::CloseBrace) => Ok(goes(state, after_equations(body))),
        _ => {
            put_away_body(body);
            Ok(Event::Refuses(Code::E02))
        }
    }
}

// After the `}` of the equations.
fn after_equations(body: EquationsOf) -> State
    ensures { result ≡ steps.after_equations body }
{
    match body {
        EquationsOf::Net(net) => State::Done(net),
        EquationsOf::Rule(rule, word) => State::RuleClose(rule, word),
    }
}

fn at_term_name(state: &mut State, nest: Nest, sign: Sign) -> Event
    ensures { led result state.new ≡ move_of (steps.at_term_name nest sign) }
{
    match sign {
        Sign::Named(name) => {
            if nest.around.len() >= MAX_DEPTH {
                put_away_nest(nest);
                Event::Refuses(Code::E03)
            } else {
                goes(state, State::TermOpen(nest, name))
            }
        }
        _ => {
            put_away_nest(nest);
            Event::Refuses(Code::E02)
        }
    }
}

fn at_term_open(
    state: &mut State,
    alloc: Global,
    nest: Nest,
    name: Name,
    sign: Sign,
) -> Result<Event, AllocError>
    ensures { IfOk result (λ m. led m state.new ≡ move_of (steps.at_term_open nest name sign)) }
{
    let term = Term::bare(alloc, name);
    match sign {
        Sign::Plain(TokenKind::OpenParenthesis) => {
            let Nest { of, mut around } = nest;
            match around.push(term) {
                Ok(()) => Ok(goes(state, State::TermName(Nest { of, around }))),
                Err(error) => {
                    put_away_nest(Nest { of, around });
                    Err(error)
                }
            }
        }
        sign => at_term_end(state, alloc, nest, term, sign),
    }
}

fn at_term_end(
    state: &mut State,
    alloc: Global,
    nest: Nest,
    term: Term,
    sign: Sign,
) -> Result<Event, AllocError>
    ensures { IfOk result (λ m. led m state.new ≡ move_of (steps.at_term_end nest term sign)) }
{
    let Nest { of, mut around } = nest;
    match around.pop() {
        Some(outer) => after_argument(state, alloc, of, around, outer, term, sign),
        None => after_outermost(state, alloc, of.into_inner(), around, term, sign),
    }
}

// Opens this term again, with one argument more. Another one follows.
fn reopen(
    alloc: Global,
    around: &mut Stack,
    mut outer: Term,
    argument: Term,
) -> Result<(), AllocError>
    ensures { OnOk result (around.new ≡ with_argument outer argument ∷ around.old) }
{
    outer.add_argument(alloc, argument, 2)?;
    around.push(outer)
}

fn after_argument(
    state: &mut State,
    alloc: Global,
    of: Boxed<TermOf>,
    mut around: Stack,
    mut outer: Term,
    term: Term,
    sign: Sign,
) -> Result<Event, AllocError>
    ensures { IfOk result (λ m. led m state.new ≡ move_of (steps.after_argument of around outer term sign)) }
{
    match sign {
        Sign::Plain(TokenKind::Comma) => match reopen(alloc, &mut around, outer, term) {
            Ok(()) => Ok(goes(state, State::TermName(Nest { of, around }))),
            Err(error) => {
                put_away_nest(Nest { of, around });
                Err(error)
            }
        },
        Sign::Plain(TokenKind::CloseParenthesis) => match outer.add_argument(alloc, term, 1) {
            Ok(()) => Ok(goes(state, State::TermEnd(Nest { of, around }, outer))),
            Err(error) => {
                put_away_nest(Nest { of, around });
                Err(error)
            }
        },
        _ => {
            put_away_nest(Nest { of, around });
            Ok(Event::Refuses(Code::E02))
        }
    }
}

fn after_outermost(
    state: &mut State,
    alloc: Global,
    of: TermOf,
    around: Stack,
    term: Term,
    sign: Sign,
) -> Result<Event, AllocError>
    requires { around ≡ [] }
    ensures { IfOk result (λ m. led m state.new ≡ move_of (steps.after_outermost of term sign)) }
{
    match of {
        TermOf::Left(body) => after_left(state, alloc, body, around, term, sign),
        TermOf::Right(body, left, tilde) => after_right(
            state, alloc, body, left, tilde, term, sign,
        ),
        TermOf::Inside(head_of, head) => after_head_term(
            state, alloc, head_of, head, around, term, sign,
        ),
    }
}

fn after_left(
    state: &mut State,
    alloc: Global,
    body: EquationsOf,
    around: Stack,
    term: Term,
    sign: Sign,
) -> Result<Event, AllocError>
    requires { around ≡ [] }
    ensures { IfOk result (λ m. led m state.new ≡ move_of (steps.after_left body term sign)) }
{
    match sign {
        Sign::Tilde(tilde) => {
            let of = Boxed::new(alloc, TermOf::Right(body, term, tilde))?;
            Ok(goes(state, State::TermName(Nest { of, around })))
        }
        _ => {
            put_away_body(body);
            Ok(Event::Refuses(Code::E02))
        }
    }
}

fn after_right(
    state: &mut State,
    alloc: Global,
    body: EquationsOf,
    left: Term,
    tilde: Place,
    right: Term,
    sign: Sign,
) -> Result<Event, AllocError>
    ensures { IfOk result (λ m. led m state.new ≡ move_of (steps.after_right body left tilde right sign)) }
{
    match sign {
        Sign::Plain(TokenKind::Semicolon) => {
            let equation = Equation { left, tilde, right };
            Ok(goes(state, State::Equation(body_with(alloc, body, equation)?)))
        }
        _ => {
            put_away_body(body);
            Ok(Event::Refuses(Code::E02))
        }
    }
}

// The equations with one more.
fn body_with(
    alloc: Global,
    body: EquationsOf,
    equation: Equation,
) -> Result<EquationsOf, AllocError>
    ensures { IfOk result (λ b. b ≡ steps.body_with body equation) }
{
    match body {
        EquationsOf::Net(net) => Ok(EquationsOf::Net(net.with_equation(equation)?)),
        EquationsOf::Rule(rule, word) => {
            let rule = rule.into_inner().with_equation(equation)?;
            Ok(EquationsOf::Rule(Boxed::new(alloc, rule)?, word))
        }
    }
}

fn after_head_term(
    state: &mut State,
    alloc: Global,
    head_of: HeadOf,
    head: Head,
    around: Stack,
    term: Term,
    sign: Sign,
) -> Result<Event, AllocError>
    requires { around ≡ [] }
    ensures { IfOk result (λ m. led m state.new ≡ move_of (steps.after_head_term head_of head term sign)) }
{
    match sign {
        Sign::Plain(TokenKind::Comma) => match head.with_term(alloc, term, 2) {
            Ok(head) => {
                let of = Boxed::new(alloc, TermOf::Inside(head_of, head))?;
                Ok(goes(state, State::TermName(Nest { of, around })))
            }
            Err(error) => {
                put_away_head(head_of);
                Err(error)
            }
        },
        Sign::Plain(TokenKind::CloseBracket) => match head.with_term(alloc, term, 1) {
            Ok(head) => Ok(goes(state, State::HeadEnd(head_of, head))),
            Err(error) => {
                put_away_head(head_of);
                Err(error)
            }
        },
        _ => {
            put_away_head(head_of);
            Ok(Event::Refuses(Code::E02))
        }
    }
}
