//! Laws of interactions, over the definitions alone, in the order of the argument. No function here does anything.

ghost use Rattle.in_interaction.specs.InteractionLaws.{StepExists, CirclesFallApart, OuterPiecesArePassages, CyclesLeaveWalks, ClosedWalksShorten, NoNewCircle, NoClosedPath, NoViciousCircle, EachLeadsOn};

/// An interaction has a result, and it is a net.
pub fn step_exists()
    ensures { StepExists }
{}

/// A crossing circle after an interaction was in the net before or in the right member, or its boundary ends cut it into pieces outside and inside,
/// whose agents are the circle's, each once.
pub fn circles_fall_apart()
    ensures { CirclesFallApart }
{}

/// If the net before has no crossing circle, a walk round the active pair from a boundary end to one is a passage through one
/// class node, by two different ports.
pub fn outer_pieces_are_passages()
    ensures { OuterPiecesArePassages }
{}

/// If each outer piece of a cycle is such a passage, the cycle leaves a closed walk of the open right member.
pub fn cycles_leave_walks()
    ensures { CyclesLeaveWalks }
{}

/// A closed walk of the open right member that enters and leaves each node by different classes, and meets each agent and each port
/// at most once, shortens to a crossing circle.
pub fn closed_walks_shorten()
    ensures { ClosedWalksShorten }
{}

/// An interaction makes no crossing circle.
pub fn no_new_circle()
    ensures { NoNewCircle }
{}

/// An interaction leaves no closed alternating path.
pub fn no_closed_path()
    ensures { NoClosedPath }
{}

/// A net without crossing circle has no vicious one.
pub fn no_vicious_circle()
    ensures { NoViciousCircle }
{}

/// Without a crossing circle each agent has an active pair ahead, or waits at a free end.
pub fn each_leads_on()
    ensures { EachLeadsOn }
{}
