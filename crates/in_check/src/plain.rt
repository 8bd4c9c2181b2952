ghost use Rattle.std.specs.Prelude.{◌≡◌, ◌≤◌, ℕ, suc, count_by, is_some, IfOk, OnOk, OnErr};
ghost use Rattle.in_net.specs.Built.{IsOver};
ghost use Rattle.in_interaction.specs.Interacting.{most_agents};
ghost use Rattle.in_net.specs.Nets.{net_of};
ghost use Rattle.in_check.specs.Plain.{IsReachedBy, IsPairAt, StepsTo};
ghost use Rattle.in_check.specs.Promises.{IsAsPromised};
ghost use Rattle.in_check.specs.Systems.{system_of};

use crate::checked::Checked;
use in_base::use_promise;
use in_interaction::interact;
use in_net::{AgentNo, Net};
use std::alloc::{AllocError, Global};
use std::marker::Model;

/// The slow reducer over plain nets: a net that its program reaches. Each interaction costs the size of the net.
#[derive(Drop)]
pub struct Plain<'a> {
    checked: &'a Checked,
    net: Net,
}

impl<'a> Model for Plain<'a> {
    ghost use Rattle.in_check.specs.Plain.{PlainParts, IsPlain};

    ghost Value = { PlainParts };

    ghost view = { λ p. record { program = p.checked.now.program; net = p.net } };

    ghost invariant = { λ p. IsPlain (record { program = p.checked.now.program; net = p.net }) };
}

impl<'a> Plain<'a> {
    /// The initial net of an accepted program, which is reached by no interaction. Refused only when out of memory.
    pub fn new(alloc: Global, checked: &'a Checked) -> Result<Plain<'a>, AllocError>
        ensures starts { IfOk result (λ p. (p.program ≡ checked.now.program) × (p.net ≡ checked.now.program.net) × IsReachedBy p 0) }
        ensures promised { IfOk result (λ p. IsAsPromised (system_of p.program) (net_of p.net)) }
    {
        use_promise!(checked.is_accepted());
        let net = checked.net().copy(alloc)?;
        Ok(Plain { checked, net })
    }

    /// The present net. It is over the program's tables.
    pub fn net(&self) -> &Net
        ensures net { result.now ≡ self.now.net }
        ensures over { IsOver self.now.program.tables self.now.net }
    {
        &self.net
    }

    /// One interaction of two agents, by the rule of their symbols: Lafont 1990's, as `interact` says. Their principal ports are joined,
    /// the first one's symbol is a constructor, and the net has at most `MOST_AGENTS` agents. The net is then reached by one
    /// interaction more. Refused only when out of memory, and then nothing has changed.
    pub fn step(&mut self, alloc: Global, a: AgentNo, b: AgentNo) -> Result<(), AllocError>
        requires pair { IsPairAt self.old a b }
        requires few { count_by is_some self.old.net.cells ≤ most_agents }
        ensures ok { OnOk result (StepsTo self.old a b self.new) }
        ensures counted { OnOk result ((k : ℕ) → IsReachedBy self.old k → IsReachedBy self.new (suc k)) }
        ensures err { OnErr result (self.new ≡ self.old) }
        ensures promised { IsAsPromised (system_of self.new.program) (net_of self.new.net) }
    {
        let checked = self.checked;
        use_promise!(checked.is_accepted());
        let (Some(one), Some(two)) = (self.net.symbol(a), self.net.symbol(b)) else {
            // Both are agents of the net, since they are an active pair.
            unreachable!()
        };
        let rule = checked.rule(checked.rule_of(one, two));
        interact(alloc, &mut self.net, rule, a, b)
    }
}
