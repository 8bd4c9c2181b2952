//! The tokens with which a program can continue at the place where the grammar refuses it, for the diagnosis.
ghost use Rattle.std.specs.Prelude.{◌≡◌};
ghost use Rattle.in_syntax.specs.Steps as steps;

use crate::states::{HeadOf, Nest, State, TermOf};

/// The part of a program that a term belongs to.
#[derive(Clone, Copy, Debug, PartialEq, Eq)]
pub enum PartOf {
    /// The left side of an equation.
    Left,
    /// The right side of an equation.
    Right,
    /// A head.
    Head,
    /// An agent.
    Agent,
}

/// The tokens with which a program can continue at some place.
#[derive(Clone, Copy, Debug, PartialEq, Eq)]
pub enum Expected {
    /// An item or the net.
    Item,
    /// The name of a type that is declared.
    TypeName,
    /// `,` or `;`
    TypeEnd,
    /// The name of a symbol that is declared.
    SymbolName,
    /// `:`
    Colon,
    /// A port's type.
    PortType,
    /// `+` or `-`
    PortSign,
    /// `{` or `;`
    SymbolEnd,
    /// `,` or `}`
    ClassEnd,
    /// The symbol of a head.
    HeadName,
    /// `[`
    HeadOpen,
    /// A term, or the `]` of a head without terms.
    HeadFirst,
    /// `><`
    Meets,
    /// `;`, or the word `with`, after the heads of a rule.
    RuleEnd,
    /// `;` after the `}` of a rule's equations.
    RuleClose,
    /// `(` after `net`.
    NetOpen,
    /// The name of a free end, or `)`.
    FreeFirst,
    /// The name of a free end.
    FreeName,
    /// `,` or `)`
    FreeEnd,
    /// `{`
    BodyOpen,
    /// An equation, or `}`.
    Equation,
    /// A term.
    Term,
    /// After a name alone: `(`, or a token that follows a whole term.
    AfterName(PartOf),
    /// A token that follows a whole term.
    AfterTerm(PartOf),
    /// Nothing: the program is whole.
    Nothing,
}

/// The part of the program that a term of this nest belongs to.
fn part_of(nest: &Nest) -> PartOf
    ensures { result ≡ steps.part_of nest.now }
{
    if nest.around.len() > 0 {
        return PartOf::Agent;
    }
    match nest.of.get() {
        TermOf::Left(_) => PartOf::Left,
        TermOf::Right(..) => PartOf::Right,
        TermOf::Inside(..) => PartOf::Head,
    }
}

/// The tokens with which a program can continue in this state.
pub fn expected_in(state: &State) -> Expected
    ensures { result ≡ steps.expected_in state.now }
{
    match state {
        State::Item => Expected::Item,
        State::TypeName(_) => Expected::TypeName,
        State::TypeEnd(_) => Expected::TypeEnd,
        State::SymbolName => Expected::SymbolName,
        State::SymbolColon(_) | State::FreeColon(..) => Expected::Colon,
        State::PortKind(_) => Expected::PortType,
        State::PortSign(..) => Expected::PortSign,
        State::SymbolEnd(..) => Expected::SymbolEnd,
        State::ClassEnd(..) => Expected::ClassEnd,
        State::HeadName(_) => Expected::HeadName,
        State::HeadOpen(..) => Expected::HeadOpen,
        State::HeadFirst(..) => Expected::HeadFirst,
        State::HeadEnd(HeadOf::First, _) => Expected::Meets,
        State::HeadEnd(HeadOf::Second(_), _) => Expected::RuleEnd,
        State::RuleOpen(..) => Expected::BodyOpen,
        State::RuleClose(..) => Expected::RuleClose,
        State::NetOpen => Expected::NetOpen,
        State::FreeFirst => Expected::FreeFirst,
        State::FreeName(_) => Expected::FreeName,
        State::FreeEnd(_) => Expected::FreeEnd,
        State::BodyOpen(_) => Expected::BodyOpen,
        State::Equation(_) => Expected::Equation,
        State::TermName(_) => Expected::Term,
        State::TermOpen(nest, _) => Expected::AfterName(part_of(nest)),
        State::TermEnd(nest, _) => Expected::AfterTerm(part_of(nest)),
        State::Done(_) => Expected::Nothing,
    }
}
