use crate::places::Place;
use crate::stack::Stack;
use crate::tree::{
    Head, Name, SourceClass, SourceFrees, SourceNet, SourceRule, SourceSymbol, Term, TypeNames,
};
use sqlite_items::Boxed;

// Large parts that seldom change are boxed, since a state is moved at each token.

/// The declaration that a port's type is part of.
#[derive(Drop)]
pub enum PortOf {
    /// The principal port of the symbol of this name.
    Principal(Boxed<Name>),
    /// A port of a class, after the symbol so far and the class so far, with the number of the auxiliary port
    /// whose type is named next.
    Auxiliary(Boxed<SourceSymbol>, SourceClass, usize),
    /// A free name, after those before it.
    Free(SourceFrees, Boxed<Name>),
}

/// The head of a rule that is read.
#[derive(Drop)]
pub enum HeadOf {
    First,
    /// After the first head.
    Second(Boxed<Head>),
}

/// The item that equations belong to, with those so far.
#[derive(Drop)]
pub enum EquationsOf {
    /// The net.
    Net(SourceNet),
    /// A rule, with the place of its word `with`.
    Rule(Boxed<SourceRule>, Place),
}

/// The item that a term belongs to.
#[derive(Drop)]
pub enum TermOf {
    /// The left side of an equation, after those so far.
    Left(EquationsOf),
    /// The right side of an equation, after those so far, the left side and the `~`.
    Right(EquationsOf, Term, Place),
    /// A head, after its terms so far.
    Inside(HeadOf, Head),
}

/// The position of a term: the part of the program around it, and the terms that are open around it.
#[derive(Drop)]
pub struct Nest {
    pub of: Boxed<TermOf>,
    pub around: Stack,
}

/// The position of the next token in a program, with the parts of the item or net around it that were read.
#[derive(Drop)]
pub enum State {
    /// An item or the net begins.
    Item,
    /// After `type`, or after a `,` in its list.
    TypeName(TypeNames),
    /// After a name of that list.
    TypeEnd(TypeNames),
    /// After `symbol`.
    SymbolName,
    /// After the symbol's name.
    SymbolColon(Name),
    /// The type's name of a port comes.
    PortKind(PortOf),
    /// The sign of a port comes.
    PortSign(PortOf, Name),
    /// After the principal port or a class, with the number of the next auxiliary port.
    SymbolEnd(Boxed<SourceSymbol>, usize),
    /// After a port of a class, with the number of the next auxiliary port.
    ClassEnd(Boxed<SourceSymbol>, SourceClass, usize),
    /// After `rule`, or after the `><` of a rule.
    HeadName(HeadOf),
    /// After a head's name.
    HeadOpen(HeadOf, Name),
    /// After a head's `[`.
    HeadFirst(HeadOf, Name),
    /// After a head's `]`.
    HeadEnd(HeadOf, Head),
    /// After the word `with` of a rule of these heads, with its place.
    RuleOpen(Boxed<Head>, Head, Place),
    /// After the `}` of a rule's equations, with the place of its word `with`.
    RuleClose(Boxed<SourceRule>, Place),
    /// After `net`.
    NetOpen,
    /// After the `(` of the free names.
    FreeFirst,
    /// After a `,` of the free names.
    FreeName(SourceFrees),
    /// After a free name.
    FreeColon(SourceFrees, Name),
    /// After the port of a free name.
    FreeEnd(SourceFrees),
    /// After the `)` of the free names.
    BodyOpen(SourceFrees),
    /// An equation begins, or there are no more.
    Equation(EquationsOf),
    /// A term comes.
    TermName(Nest),
    /// After a term's name.
    TermOpen(Nest, Name),
    /// After a whole term.
    TermEnd(Nest, Term),
    /// After the net.
    Done(SourceNet),
}

// Each drop of a state, and of a part, is a call, since the proof of a drop goes through all variants anew.

pub fn put_away_port(_of: PortOf) {}

pub fn put_away_head(_of: HeadOf) {}

pub fn put_away_body(_body: EquationsOf) {}

pub fn put_away_term(of: TermOf) {
    match of {
        TermOf::Left(body) => put_away_body(body),
        TermOf::Right(body, _left, _) => put_away_body(body),
        TermOf::Inside(of, _head) => put_away_head(of),
    }
}

pub fn put_away_nest(nest: Nest) {
    let Nest {
        of,
        around: _around,
    } = nest;
    put_away_term(of.into_inner());
}

pub fn put_away(state: State) {
    match state {
        State::Item | State::SymbolName | State::NetOpen | State::FreeFirst => {}
        State::TypeName(_names) | State::TypeEnd(_names) => {}
        State::SymbolColon(_name) => {}
        State::PortKind(of) => put_away_port(of),
        State::PortSign(of, _kind) => put_away_port(of),
        State::SymbolEnd(_symbol, _) => {}
        State::ClassEnd(_symbol, _class, _) => {}
        State::HeadName(of) => put_away_head(of),
        State::HeadOpen(of, _name) | State::HeadFirst(of, _name) => put_away_head(of),
        State::HeadEnd(of, _head) => put_away_head(of),
        State::RuleOpen(_first, _second, _) => {}
        State::RuleClose(_rule, _) => {}
        State::FreeName(_frees) | State::FreeEnd(_frees) | State::BodyOpen(_frees) => {}
        State::FreeColon(_frees, _name) => {}
        State::Equation(body) => put_away_body(body),
        State::Done(_net) => {}
        State::TermName(nest) => put_away_nest(nest),
        State::TermOpen(nest, _name) => put_away_nest(nest),
        State::TermEnd(nest, _term) => put_away_nest(nest),
    }
}
