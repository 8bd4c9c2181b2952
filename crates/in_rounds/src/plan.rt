// The jobs of a round.
ghost use Rattle.std.specs.Prelude.{◌≡◌};
ghost use Rattle.in_rounds.specs.Plans.{IsPlan};

use in_compile::Templates;
use in_syntax::SymbolNo;
use std::marker::Model;

/// The jobs of a round, each by the two symbols of its active pair, the constructor first; and the templates, one for each job among them.
#[derive(Drop)]
pub struct Plan<'t> {
    pub(crate) templates: &'t Templates,
    pub(crate) jobs: &'t [(SymbolNo, SymbolNo)],
}

impl<'t> Model for Plan<'t> {
    ghost use Rattle.in_rounds.specs.Plans.{PlanParts, IsPlan};

    ghost Value = { PlanParts };

    ghost view = { λ p. record { templates = p.templates.now; jobs = p.jobs.now } };

    ghost invariant = { λ p. IsPlan (record { templates = p.templates.now; jobs = p.jobs.now }) };
}

impl<'t> Plan<'t> {
    /// A plan of these jobs. There must be a template for each.
    pub fn new(templates: &'t Templates, jobs: &'t [(SymbolNo, SymbolNo)]) -> Plan<'t>
        requires { IsPlan (record { templates = templates.now; jobs = jobs.now }) }
        ensures { result ≡ record { templates = templates.now; jobs = jobs.now } }
    {
        Plan { templates, jobs }
    }
}
