//! Laws on the definitions of the open nets of nets and rules, for proofs above them. No function here does anything.

ghost use Rattle.in_open_nets_of_programs.specs.Laws.{DerivableRulesHaveNoCircle, NetCirclesAreOpen, NetsAreOpenedOnce, OpenNetsAreOpen, OpenRulesAreOpen, RuleCirclesAreOpen, RulesAreOpenedOnce, TablesAreNumbered, TextNetsAreAllThere, TextRulesAreWhole};

/// The net of a text has an agent at each of its numbers, as `open_net` requires.
pub fn text_nets_are_all_there()
    ensures { TextNetsAreAllThere }
{}

/// The rule of a text is whole, as `open_rule` requires.
pub fn text_rules_are_whole()
    ensures { TextRulesAreWhole }
{}

/// The open net of a net is an open net, if the tables number classes from 1 and the principal port is the one place of class 0: each
/// point is in exactly one wire.
pub fn open_nets_are_open()
    ensures { OpenNetsAreOpen }
{}

/// The tables of a program number the classes of a symbol from 1, and the principal port is the one place of class 0.
pub fn tables_are_numbered()
    ensures { TablesAreNumbered }
{}

/// The open net of a whole rule is an open net, if the tables number classes from 1 and the principal port is the one place of class 0:
/// each point is in exactly one wire.
pub fn open_rules_are_open()
    ensures { OpenRulesAreOpen }
{}

/// A rule whose open net is derivable has no crossing circle in it.
pub fn derivable_rules_have_no_circle()
    ensures { DerivableRulesHaveNoCircle }
{}

/// A crossing circle of a net is one of its open net.
pub fn net_circles_are_open()
    ensures { NetCirclesAreOpen }
{}

/// A crossing circle of a right member with a node for each class of its two heads is one of the open net of the rule.
pub fn rule_circles_are_open()
    ensures { RuleCirclesAreOpen }
{}

/// A net has one open net.
pub fn nets_are_opened_once()
    ensures { NetsAreOpenedOnce }
{}

/// A whole rule has one open net.
pub fn rules_are_opened_once()
    ensures { RulesAreOpenedOnce }
{}
