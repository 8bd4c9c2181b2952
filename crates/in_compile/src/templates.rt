// The templates of a program.
ghost use Rattle.std.specs.Prelude.{◌≡◌, IsSome, Some};
ghost use Rattle.in_compile.specs.Templates.{template_at, AreMostAgents, IsLargestNeed};

use crate::cells::Need;
use crate::member::Member;
use crate::template::Template;
use in_cover::RuleTable;
use in_syntax::SymbolNo;
use sqlite_items::Items;
use std::marker::Model;
use std::sync::Arc;

/// The templates of all rules of a program, found by their two symbols, and its initial net. It borrows nothing of the program, so that
/// threads can share it.
#[derive(Drop)]
pub struct Templates {
    pub(crate) listed: Items<Arc<Template>>,
    pub(crate) numbers: RuleTable,
    pub(crate) found: Items<Option<Arc<Template>>>,
    pub(crate) size: u32,
    pub(crate) start: Member,
    pub(crate) largest: Need,
    pub(crate) most_agents: u32,
}

// Contracts see the templates, by the numbers of their rules, how these numbers are found, and the net. The largest need and the most agents are kept, so that
// they are computed once. Templates are found in a table of their own, so that one read leads to a template, and not to the number of its rule first.
impl Model for Templates {
    ghost use Rattle.std.specs.Prelude.{map};
    ghost use Rattle.std.specs.Arc.{arc_value};
    ghost use Rattle.in_compile.specs.TemplatesInside.{AreTemplates};
    ghost use Rattle.in_compile.specs.Templates.{TemplatesParts};

    ghost Value = { TemplatesParts };

    ghost view = { λ t. record { templates = map arc_value t.listed; numbers = t.numbers; start = t.start } };

    ghost invariant = { AreTemplates };
}

impl Templates {
    /// The template of the rule of two symbols, in either order. There has to be a rule for the two, as there is for each two
    /// symbols that match.
    pub fn of(&self, c: SymbolNo, d: SymbolNo) -> &Template
        requires { IsSome (template_at self.now c.0 d.0) }
        ensures { template_at self.now c.0 d.0 ≡ Some result.now }
    {
        let place = c.0 as usize * self.size as usize + d.0 as usize;
        let Some(template) = &self.found.as_slice()[place] else {
            // The two have a template.
            unreachable!()
        };
        &**template
    }

    /// The program's initial net.
    pub fn start(&self) -> &Member
        ensures { result.now ≡ self.now.start }
    {
        &self.start
    }

    /// For each class, the most cells that a template needs; 0 if there are no templates.
    pub fn largest_need(&self) -> Need
        ensures { IsLargestNeed self.now.templates result }
    {
        self.largest
    }

    /// The most agents that a template has; 0 if there are no templates.
    pub fn most_agents(&self) -> u32
        ensures { AreMostAgents self.now.templates result }
    {
        self.most_agents
    }
}
