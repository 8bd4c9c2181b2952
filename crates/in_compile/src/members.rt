// From a net to its member, and from a rule to its template.
ghost use Rattle.std.specs.Prelude.{◌≡◌, ◌+◌, ◌≤◌, ◌<◌, ◌^◌, ◌++◌, ◌↔◌, IsTrue, map, length, Some, IfOk, OnOk};
ghost use Rattle.in_syntax.specs.Grammar.{max_ports};
ghost use Rattle.in_syntax.specs.TextLimits.{most_symbols};
ghost use Rattle.in_symbols.specs.Tables.{IsSymbol};
ghost use Rattle.in_net.specs.Built.{IsOver, IsCellOver};
ghost use Rattle.in_syntax.specs.TextLimits.{most_net_agents};
ghost use Rattle.in_net.specs.Parts.{IsWhole};
ghost use Rattle.in_net.specs.Rules.{IsRuleOver};
ghost use Rattle.in_interaction.specs.Queues.{IsFirstQueue};
ghost use Rattle.in_open_nets_of_programs.specs.Opening.{AreAllThere};
ghost use Rattle.in_open_nets_of_programs.specs.OpeningRules.{IsRuleWhole};
ghost use Rattle.in_compile.specs.Storing.{AreNarrow, AddsAgent, AreLaidBelow};
ghost use Rattle.in_compile.specs.Members.{joint_of, IsMemberOf};
ghost use Rattle.in_compile.specs.OwnOrders.{BothTake, FitsOrder, Takes};
ghost use Rattle.in_compile.specs.Templates.{AreUnmarked, IsTemplateOf};

use crate::cells::{class_of, need_of_net};
use crate::joints::{Joint, StoredJoint};
use crate::member::Member;
use crate::template::{OwnOrder, Template};
use crate::wires::{over_wires, within_wires};
use in_arena::{CellClass, HeadWord, NewCell};
use in_base::use_promise;
use in_net::{Cell, Net, Point, Rule};
use in_overwriting::is_marked;
use in_symbols::Symbols;
use in_syntax::SymbolNo;
use sqlite_items::Items;
use std::alloc::{AllocError, Global};

/// Adds the joints for these points.
fn add_joints(joints: &mut Items<StoredJoint>, points: &[Point]) -> Result<(), AllocError>
    requires { AreNarrow points.now }
    ensures { OnOk result (joints.new ≡ joints.old ++ map joint_of points.now) }
{
    for number in 0..points.len() {
        joints.push(StoredJoint::of(Joint::of(points[number])))?;
    }
    Ok(())
}

/// The other ends of the wires at the boundary ends.
fn boundary_joints(alloc: Global, net: &Net) -> Result<Items<StoredJoint>, AllocError>
    requires { IsWhole net.now }
    ensures { IfOk result (λ js. js ≡ map (λ f. joint_of f.end) net.now.free) }
{
    let mut joints = Items::new(alloc);
    for end in 0..net.free_ends() {
        joints.push(StoredJoint::of(Joint::of(net.partner(Point::Free(end)))))?;
    }
    Ok(joints)
}

/// Whether each free end is declared as an output.
fn outputs_of(alloc: Global, net: &Net) -> Result<Items<bool>, AllocError>
    ensures { IfOk result (λ os. os ≡ map (λ f. f.kind.output) net.now.free) }
{
    let mut outputs = Items::new(alloc);
    for end in 0..net.free_ends() {
        outputs.push(net.free_type(end).output)?;
    }
    Ok(outputs)
}

/// Adds an agent, and its joints.
fn add_agent(
    symbols: &Symbols,
    cell: &Cell,
    agents: &mut Items<NewCell>,
    joints: &mut Items<StoredJoint>,
) -> Result<(), AllocError>
    requires few { length symbols.now.names ≤ most_symbols }
    requires over { IsCellOver symbols.now (Some cell.now) }
    requires narrow { AreNarrow cell.now.ends }
    requires room { length joints.old < 2 ^ 32 }
    ensures { OnOk result (AddsAgent symbols.now cell.now agents.old joints.old agents.new joints.new) }
{
    let first = joints.len() as u32;
    let places = symbols.arity(cell.symbol) + 1;
    add_joints(joints, cell.ends.as_slice())?;
    agents.push(NewCell {
        head: HeadWord::of(cell.symbol.0, places),
        mark: first,
        class: CellClass::for_places(places),
    })
}

/// Adds all agents of a net, and their joints.
fn add_agents(
    symbols: &Symbols,
    net: &Net,
    agents: &mut Items<NewCell>,
    joints: &mut Items<StoredJoint>,
) -> Result<(), AllocError>
    requires few_symbols { length symbols.now.names ≤ most_symbols }
    requires over { IsOver symbols.now net.now }
    requires there { AreAllThere net.now }
    requires few { length net.now.cells ≤ most_net_agents }
    requires start { AreLaidBelow symbols.now net.now 0 agents.old joints.old }
    ensures { OnOk result (AreLaidBelow symbols.now net.now (length net.now.cells) agents.new joints.new) }
{
    let cells = net.cells();
    for number in 0..cells.len() {
        if let Some(cell) = &cells[number] {
            add_agent(symbols, cell, agents, joints)?;
        }
    }
    Ok(())
}

/// The active pairs of a net, in the order of their wires.
fn own_pairs(alloc: Global, symbols: &Symbols, net: &Net) -> Result<Items<(u32, u32)>, AllocError>
    requires over { IsOver symbols.now net.now }
    requires whole { IsWhole net.now }
    ensures few { IfOk result (λ pairs. length pairs < 2 ^ 32) }
    ensures pairs { IfOk result (λ pairs. IsFirstQueue symbols.now net.now pairs) }
{
    let mut pairs = Items::new(alloc);
    for wire in 0..net.wires() {
        if let Some((one, other)) = net.pair_of_wire(symbols, wire) {
            pairs.push((one.0, other.0))?;
        }
    }
    Ok(pairs)
}

/// The member of a net that is over these tables and as it was built.
pub(crate) fn member_of(alloc: Global, symbols: &Symbols, net: &Net) -> Result<Member, AllocError>
    requires few_symbols { length symbols.now.names ≤ most_symbols }
    requires over { IsOver symbols.now net.now }
    requires there { AreAllThere net.now }
    requires few { length net.now.cells ≤ most_net_agents }
    ensures { IfOk result (λ m. IsMemberOf symbols.now net.now m) }
{
    let cells = net.cells();
    let mut joints = boundary_joints(alloc, net)?;
    let mut agents = Items::from_vec(Vec::with_capacity(alloc, cells.len())?);
    add_agents(symbols, net, &mut agents, &mut joints)?;
    let pairs = own_pairs(alloc, symbols, net)?;
    Ok(Member {
        agents,
        joints,
        need: need_of_net(symbols, net),
        boundary: net.free_ends() as u16,
        pairs,
    })
}

/// Whether neither symbol is marked.
fn are_unmarked(symbols: &Symbols, first: SymbolNo, second: SymbolNo) -> bool
    requires first { IsSymbol symbols.now first.0 }
    requires second { IsSymbol symbols.now second.0 }
    ensures { IsTrue result ↔ AreUnmarked symbols.now (first, second) }
{
    !is_marked(symbols, first) && !is_marked(symbols, second)
}

/// Whether there is an agent of this number, and it takes a cell of this class.
fn takes(member: &Member, agent: u32, class: CellClass) -> bool
    ensures { IsTrue result → Takes member.now agent class }
{
    agent < member.agents() && member.class(agent).number() == class.number()
}

/// Whether the first two agents take cells of these classes.
fn take_both(member: &Member, classes: (CellClass, CellClass)) -> bool
    ensures { IsTrue result → BothTake member.now classes }
{
    takes(member, 0, classes.0) && takes(member, 1, classes.1)
}

/// Whether the first two agents fit cells of these classes better if the first one has the second cell.
fn are_turned(member: &Member, classes: (CellClass, CellClass)) -> bool {
    let straight = u8::from(takes(member, 0, classes.0)) + u8::from(takes(member, 1, classes.1));
    let turned = u8::from(takes(member, 0, classes.1)) + u8::from(takes(member, 1, classes.0));
    straight < turned
}

/// How the first two agents take cells of these classes.
fn own_order(member: &Member, classes: (CellClass, CellClass)) -> OwnOrder
    ensures { FitsOrder result member.now classes }
{
    if are_turned(member, classes) {
        return OwnOrder {
            turned: true,
            both: take_both(member, (classes.1, classes.0)),
        };
    }
    OwnOrder {
        turned: false,
        both: take_both(member, classes),
    }
}

/// The template of a rule that is over these tables and as it was built.
pub(crate) fn template(
    alloc: Global,
    symbols: &Symbols,
    rule: &Rule,
) -> Result<Template, AllocError>
    requires few_symbols { length symbols.now.names ≤ most_symbols }
    requires over { IsRuleOver symbols.now rule.now }
    requires whole { IsRuleWhole symbols.now rule.now }
    ensures { IfOk result (λ t. IsTemplateOf symbols.now rule.now t) }
{
    let member = member_of(alloc, symbols, rule.member())?;
    let (first, second) = rule.heads();
    let first_ends = symbols.arity(first);
    use_promise!(symbols.arity(second));
    let classes = (class_of(symbols, first), class_of(symbols, second));
    let unmarked = are_unmarked(symbols, first, second);
    let over = over_wires(alloc, &member)?;
    let within = within_wires(alloc, &member)?;
    let outputs = outputs_of(alloc, rule.member())?;
    let own = own_order(&member, classes);
    Ok(Template {
        member,
        first_ends,
        unmarked,
        heads: (first, second),
        classes,
        own,
        over,
        within,
        outputs,
    })
}
