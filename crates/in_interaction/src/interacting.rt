ghost use Rattle.std.specs.Prelude.{◌≡◌, ◌≢◌, ℕ, ◌+◌, ◌^◌, ◌<◌, length, count_by, is_some, IfOk, OnOk, OnErr, MatchOption};
ghost use Rattle.in_interaction.specs.After.{AreEmptyNumbers, AreUnused, StaysAt, IsAgentAfter, IsCellAfter, AreCellsAfter, AreOuterEnds, IsAfter, IsAfterPair};
ghost use Rattle.in_interaction.specs.Interacting.{unused, numbers_after, MayInteract, Interacts};
ghost use Rattle.in_net.specs.Parts.{cell_in};
ghost use Rattle.in_net.specs.declared.nets.Cell.{Cell};

use crate::following::Site;
use crate::listing::wires;
use in_base::use_invariant;
use in_net::{AgentNo, Cell, Net, Point, Rule, Wire};
use sqlite_items::Items;
use std::alloc::{AllocError, Global};

/// The most agents that a net may have in which two are to interact: then numbers of agents and of wires fit. This is this project's own
/// choice.
pub const MOST_AGENTS: u32 = 400_000_000;

/// The numbers below the number of cells that have no agent, in order, but at most `count` of them.
fn empty_numbers(
    alloc: Global,
    cells: &[Option<Cell>],
    count: usize,
) -> Result<Vec<AgentNo>, AllocError>
    requires { length cells.now < 2 ^ 32 }
    ensures { IfOk result (λ names. AreEmptyNumbers cells.now count names.items) }
{
    let mut names = Vec::new(alloc);
    for (number, cell) in cells.iter().enumerate() {
        if cell.is_none() && names.len() < count {
            names.push(AgentNo(number as u32))?;
        }
    }
    Ok(names)
}

/// The `count` least numbers without an agent.
pub(crate) fn unused(
    alloc: Global,
    cells: &[Option<Cell>],
    count: usize,
) -> Result<Vec<AgentNo>, AllocError>
    requires cells { length cells.now < 2 ^ 32 }
    requires few { count_by is_some cells.now + count < 2 ^ 32 }
    ensures { IfOk result (λ names. AreUnused cells.now count names.items) }
{
    let mut names = empty_numbers(alloc, cells, count)?;
    let found = names.len();
    for more in 0..count - found {
        names.push(AgentNo((cells.len() + more) as u32))?;
    }
    Ok(names)
}

/// The agents after an interaction, the partners of the free ends, and the wires.
#[derive(Drop)]
struct After {
    cells: Items<Option<Cell>>,
    ends: Items<Point>,
    wires: Items<Wire>,
}

impl<'a> Site<'a> {
    /// An agent that stays, with its partners after the interaction.
    fn kept(&self, alloc: Global, agent: AgentNo, cell: &Cell) -> Result<Cell, AllocError>
        requires { StaysAt self.now agent.0 cell.now }
        ensures { IfOk result (IsAgentAfter self.now agent.0 cell.now) }
    {
        use_invariant!(self.first);
        let mut ends = Items::new(alloc);
        for place in 0..cell.ends.len() {
            ends.push(self.outer(Point::Port(agent, place as u8)))?;
        }
        Ok(Cell {
            symbol: cell.symbol,
            ends,
        })
    }

    /// A new agent, which the right member has under this number.
    fn fresh(&self, alloc: Global, agent: AgentNo, cell: &Cell) -> Result<Cell, AllocError>
        requires { cell_in self.now.rule.member agent.0 ≡ Some cell.now }
        ensures { IfOk result (IsAgentAfter self.now (unused self.now.net.cells agent.0) cell.now) }
    {
        use_invariant!(self.first);
        let mut ends = Items::new(alloc);
        for place in 0..cell.ends.len() {
            ends.push(self.inner(agent, place as u8))?;
        }
        Ok(Cell {
            symbol: cell.symbol,
            ends,
        })
    }

    /// The agent of the right member that gets this number.
    pub(crate) fn named(&self, number: AgentNo) -> Option<AgentNo>
        ensures { MatchOption result ((k : ℕ) → k < length self.now.names → unused self.now.net.cells k ≢ number.0) (λ k. (k.0 < length self.now.names) × (unused self.now.net.cells k.0 ≡ number.0)) }
    {
        for (agent, name) in self.names.iter().enumerate() {
            if name.0 == number.0 {
                return Some(AgentNo(agent as u32));
            }
        }
        None
    }

    /// The new agent of this number, if there is one.
    fn new_at(&self, alloc: Global, number: AgentNo) -> Result<Option<Cell>, AllocError>
        requires { cell_in self.now.net number.0 ≡ None }
        ensures { IfOk result (IsCellAfter self.now number.0) }
    {
        use_invariant!(self.first);
        match self.named(number) {
            Some(agent) => match &self.rule.member().cells()[agent.0 as usize] {
                Some(cell) => Ok(Some(self.fresh(alloc, agent, cell)?)),
                None => Ok(None),
            },
            None => Ok(None),
        }
    }

    /// The agent of this number after the interaction, if there is one.
    fn cell(&self, alloc: Global, number: AgentNo) -> Result<Option<Cell>, AllocError>
        ensures { IfOk result (IsCellAfter self.now number.0) }
    {
        match self.net.cells().get(number.0 as usize) {
            Some(Some(cell)) => {
                if number.0 == self.one.0 || number.0 == self.two.0 {
                    Ok(None)
                } else {
                    Ok(Some(self.kept(alloc, number, cell)?))
                }
            }
            _ => self.new_at(alloc, number),
        }
    }

    /// How many numbers there are after the interaction.
    fn numbers(&self) -> usize
        ensures { result ≡ numbers_after self.now.net.cells (length self.now.rule.member.cells) }
    {
        let old = self.net.cells().len();
        match self.names.last() {
            Some(name) if old <= name.0 as usize => name.0 as usize + 1,
            _ => old,
        }
    }

    /// The agents after the interaction.
    fn cells(&self, alloc: Global) -> Result<Items<Option<Cell>>, AllocError>
        ensures { IfOk result (λ cells. (length cells ≡ numbers_after self.now.net.cells (length self.now.rule.member.cells)) × AreCellsAfter self.now cells) }
    {
        use_invariant!(self.first);
        let mut cells = Items::new(alloc);
        for number in 0..self.numbers() {
            cells.push(self.cell(alloc, AgentNo(number as u32))?)?;
        }
        Ok(cells)
    }

    /// The partners of the free ends after the interaction.
    fn free_ends(&self, alloc: Global) -> Result<Items<Point>, AllocError>
        ensures { IfOk result (AreOuterEnds self.now) }
    {
        use_invariant!(self.first);
        let mut ends = Items::new(alloc);
        for number in 0..self.net.free_ends() {
            ends.push(self.outer(Point::Free(number)))?;
        }
        Ok(ends)
    }

    /// The agents, wires and free ends after the interaction.
    fn after(&self, alloc: Global) -> Result<After, AllocError>
        ensures { IfOk result (IsAfter self.now) }
    {
        use_invariant!(self.first);
        let cells = self.cells(alloc)?;
        let ends = self.free_ends(alloc)?;
        let wires = wires(alloc, cells.as_slice(), ends.as_slice())?;
        Ok(After { cells, ends, wires })
    }
}

/// How many auxiliary places an agent has.
pub(crate) fn arity(net: &Net, agent: AgentNo) -> u32
    requires { (c : Cell) × (cell_in net.now agent.0 ≡ Some c) × (0 < length c.ends) }
    ensures { (c : Cell) → cell_in net.now agent.0 ≡ Some c → length c.ends ≡ result + 1 }
{
    match &net.cells()[agent.0 as usize] {
        Some(cell) => cell.ends.len() as u32 - 1,
        // The agent is there, by a requirement.
        None => unreachable!(),
    }
}

/// The agents, the partners of the free ends, and the wires after the two interact.
fn after_pair(
    alloc: Global,
    net: &Net,
    rule: &Rule,
    a: AgentNo,
    b: AgentNo,
) -> Result<After, AllocError>
    requires { MayInteract net.now rule.now a b }
    ensures { IfOk result (IsAfterPair net.now rule.now a b) }
{
    let names = unused(alloc, net.cells(), rule.member_cells().len())?;
    let site = Site {
        net,
        rule,
        one: a,
        two: b,
        first: arity(net, a),
        names: names.as_slice(),
    };
    site.after(alloc)
}

/// Puts the agents, the partners of the free ends, and the wires after the interaction into the net.
fn renew(alloc: Global, net: &mut Net, after: After)
    requires { (r : _) × (a : _) × (b : _) × IsAfterPair net.old r a b after }
    ensures { (r : _) (a : _) (b : _) → IsAfterPair net.old r a b after → Interacts net.old r a b net.new }
{
    let After { cells, ends, wires } = after;
    net.renew(alloc, cells, ends.as_slice(), wires);
}

/// Replaces an active pair by the right member of the rule of its two symbols.
///
/// Lafont 1990: both agents go, and the right member takes their place on the same boundary ends. A wire of the net after is a path that
/// goes in turn by wires outside the pair and by wires of the right member. The right member's agents get the least numbers that the
/// net before doesn't have, in their order; all others keep theirs. The net is then no longer as built: its agents and wires have no
/// places, and its wires are numbered anew, by the first of their two points. It keeps its free ends with their names and types. Numbers,
/// and the order of wires, are this project's own choice.
///
/// Net and rule are over one `Symbols`; `a` and `b` have the symbols of the rule's heads, in this order, and their principal ports are
/// joined; the net has at most `MOST_AGENTS` agents. Refused only when out of memory, and then the net is unchanged.
pub fn interact(
    alloc: Global,
    net: &mut Net,
    rule: &Rule,
    a: AgentNo,
    b: AgentNo,
) -> Result<(), AllocError>
    requires { MayInteract net.old rule.now a b }
    ensures ok { OnOk result (Interacts net.old rule.now a b net.new) }
    ensures err { OnErr result (net.new ≡ net.old) }
{
    let after = after_pair(alloc, net, rule, a, b)?;
    renew(alloc, net, after);
    Ok(())
}
