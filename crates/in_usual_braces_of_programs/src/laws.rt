//! Laws on usual braces in programs, for proofs above them. No function here does anything.

ghost use Rattle.in_usual_braces_of_programs.specs.Laws.{CirclesAreOfAgents, NetsDecide, NetsInUsualBraces, NetsInWideBraces, RightMembersDecide, RulesInUsualBraces, RulesInWideBraces};

use in_usual_braces::laws::{crossing_directed_circles_decide, usual_braces_decide};

/// The open net of a typed net over symbols in usual braces is derivable exactly when no value in it is needed for itself.
pub fn nets_in_usual_braces()
    ensures { NetsInUsualBraces }
{
    usual_braces_decide();
}

/// The open net of a typed rule is so too.
pub fn rules_in_usual_braces()
    ensures { RulesInUsualBraces }
{
    usual_braces_decide();
}

/// A directed circle of a rule's open net is one of agents of the right member: a class node has only outputs, or only inputs.
pub fn circles_are_of_agents()
    ensures { CirclesAreOfAgents }
{}

/// Even if an input is in the braces of the outputs, the open net of a typed net is derivable exactly when no directed circle enters and
/// leaves each of its nodes by different classes.
pub fn nets_in_wide_braces()
    ensures { NetsInWideBraces }
{
    crossing_directed_circles_decide();
}

/// The open net of a typed rule is so too.
pub fn rules_in_wide_braces()
    ensures { RulesInWideBraces }
{
    crossing_directed_circles_decide();
}

/// In usual braces a typed net is derivable exactly when it has no directed circle of agents.
pub fn nets_decide()
    ensures { NetsDecide }
{
    nets_in_usual_braces();
}

/// In usual braces a typed rule is derivable exactly when its right member has no directed circle of agents.
pub fn right_members_decide()
    ensures { RightMembersDecide }
{
    rules_in_usual_braces();
}
