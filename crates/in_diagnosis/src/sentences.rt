//! The sentences on wires, rules and nets that use the check's evidence, whole, with named slots in braces.

pub(crate) const MISFIT: &str = "the types of the two ends of this wire don't fit";

pub(crate) const BUILD_LATER: &str =
    "let a symbol of its own build a part of it when a value meets it";

// ---- rules and nets that no steps build

pub(crate) const NO_STEPS: &str =
    "{what} is not semi-simple: its agents could wait for each other in a circle";

pub(crate) const NEEDS_ITSELF: &str =
    "{what} is not semi-simple: a value in it is needed to compute itself";

pub(crate) const NONE_IS_LAST: &str =
    "each of these has two ports that must lead to separate parts, but are connected: ";

pub(crate) const CIRCLE: &str = "a circle leads from {first} back to {second}";

pub(crate) const THROUGH_THIS: &str = "through this";

pub(crate) const ON_ITS_WAY: &str = "on its way are ";

pub(crate) const GIVES_ITSELF: &str = "{output} gives what {input} takes";

pub(crate) const GIVES_NEXT: &str = "{output} gives what {input} at {place} takes";

pub(crate) const GIVE_NEXT: &str =
    "each of these gives what the next one takes, and the last one what the first one takes: ";

// ---- other braces

pub(crate) const MENDS: &str =
    "with `symbol {declaration};` {what} is semi-simple, and the program is accepted";

pub(crate) const BUILDS: &str =
    "with `symbol {declaration};` {what} is semi-simple, and the program is refused further on";

pub(crate) const REFUSED_BEFORE: &str =
    "with `symbol {declaration};` the rule at {place} is not semi-simple";

pub(crate) const USUAL_MENDS: &str =
    "with each input in braces of its own, and all outputs in one pair, the program is accepted:";

pub(crate) const USUAL_BUILDS: &str =
    "with each input in braces of its own, and all outputs in one pair, {what} is semi-simple, and the program is refused further on:";

pub(crate) const AND_MORE: &str = "\n    and {count} more";

pub(crate) const NO_BRACES: &str =
    "no change of braces removes this circle, since it goes through the principal port of each agent on it: connect one of these ports to something else";

pub(crate) const ONLY_JOINED: &str =
    "a change of braces removes this circle only if it puts two ports of one agent on it into one pair: better connect one of these ports to something else";

pub(crate) const NO_BRACES_TRIED: &str =
    "the program is not accepted with any braces that were tried";

pub(crate) const CONNECT_OTHERS: &str =
    "connect one of these ports to something else, so that they lead to separate parts";

pub(crate) const OUTPUTS_APART: &str =
    "the outputs of `{symbol}` can be in one pair of braces only where they are neighbours in its declaration";

pub(crate) const CONSTRUCTOR_WITH_OUTPUTS: &str =
    "`{symbol}` is a constructor with an output at an auxiliary port: no rule is known for the braces of such a symbol";
