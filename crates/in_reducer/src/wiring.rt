// One interaction in place: new agents are begun beside the pair, and the wires of the right member are written.
ghost use Rattle.std.specs.Prelude.{◌≡◌, ◌≤◌, ◌<◌, ◌+◌, ◌++◌, ℕ, Bool, List, length, map, Some, slice_get};
ghost use Rattle.in_arena.specs.Arenas.{ArenaView, state_at};
ghost use Rattle.in_arena.specs.States.{IsLive, places};
ghost use Rattle.in_arena.specs.declared.content.CellNo.{CellNo as Number};
ghost use Rattle.in_arena.specs.declared.content.End.{End};
ghost use Rattle.in_arena.specs.declared.content.End.TheVariants.{Cell};
ghost use Rattle.in_symbols.specs.Tables.{Tables};
ghost use Rattle.in_interaction.specs.Queues.{both};
ghost use Rattle.in_cells.specs.Cells.{KeepsCells};
ghost use Rattle.in_compile.specs.OwnOrders.{BothTake};
ghost use Rattle.in_compile.specs.Wires.{over_of, over_point};
ghost use Rattle.in_reducer.specs.Inside.{most_ends};
ghost use Rattle.in_reducer.specs.Interacting.{PairSetting, interaction_of, named};
ghost use Rattle.in_reducer.specs.Sides.{end_there, port_at};
ghost use Rattle.in_reducer.specs.Wiring.{AddsInOrder, AreAtAgents, AreLive, AreOfClasses, AreOwnCells, AreOwnPairs, CanBegin, CanRead, CanWireAnew, CanWireUp, HasBegun, HasBegunBelow, HasPortsFor, HasPortsIn, HasQueued, IsAtPlace, IsWiredAnew, IsWiredUp, IsWiring, retired, wires_of};

use crate::limits::MOST_ENDS;
use crate::pair_queue::PairQueue;
use crate::sides::Pair;
use in_arena::{Arena, CellClass, CellNo, EndWord, PlaceStep};
use in_base::use_promise;
use in_cells::exchange_in;
use in_compile::{Member, Template};
use in_syntax::MOST_MEMBER_AGENTS;

/// The most points of a right member: one for each boundary end and each agent.
pub(crate) const POINTS: usize = MOST_ENDS + MOST_MEMBER_AGENTS;

/// Begins a cell for each agent from this one on. The cell's principal port is the agent's point. It is a call, since most steps don't need it, and
/// its loop would take registers from theirs.
#[inline(never)]
fn begin_from(member: &Member, from: u32, arena: &mut Arena, points: &mut [EndWord])
    requires begun { (a : ArenaView) × CanBegin member.now a points.old × HasBegunBelow member.now a from arena.old points.old }
    requires few { from ≤ length member.now.agents }
    ensures begun { (a : ArenaView) → CanBegin member.now a points.old → HasBegunBelow member.now a from arena.old points.old → (ns : List Number) × HasBegun member.now ns a arena.new × AreAtAgents ns points.new }
    ensures ends { (e : ℕ) → e < most_ends → slice_get points.new e ≡ slice_get points.old e }
    ensures long { length points.new ≡ length points.old }
{
    use_promise!(member.is_sound());
    let many = member.agents();
    let mut next = from;
    while next < many {
        let large = member.begin_small(next, arena, points, MOST_ENDS);
        if large == many {
            return;
        }
        let cell = member.begin(large, arena);
        points[MOST_ENDS + large as usize] = EndWord::place_of(cell, 0);
        next = large + 1;
    }
}

/// The same as `begin_from`. Most right members have at most two agents, so often none is left.
#[inline(always)]
fn begin_rest(member: &Member, from: u32, arena: &mut Arena, points: &mut [EndWord])
    requires begun { (a : ArenaView) × CanBegin member.now a points.old × HasBegunBelow member.now a from arena.old points.old }
    requires few { from ≤ length member.now.agents }
    ensures begun { (a : ArenaView) → CanBegin member.now a points.old → HasBegunBelow member.now a from arena.old points.old → (ns : List Number) × HasBegun member.now ns a arena.new × AreAtAgents ns points.new }
    ensures ends { (e : ℕ) → e < most_ends → slice_get points.new e ≡ slice_get points.old e }
    ensures long { length points.new ≡ length points.old }
{
    if from == member.agents() {
        return;
    }
    begin_from(member, from, arena, points);
}

/// Begins a cell for each agent. The cell's principal port is the agent's point.
#[inline(always)]
fn begin_agents(member: &Member, arena: &mut Arena, points: &mut [EndWord])
    requires { CanBegin member.now arena.old points.old }
    ensures begun { (ns : List Number) × HasBegun member.now ns arena.old arena.new × AreAtAgents ns points.new }
    ensures ends { (e : ℕ) → e < most_ends → slice_get points.new e ≡ slice_get points.old e }
    ensures long { length points.new ≡ length points.old }
{
    begin_rest(member, 0, arena, points);
}

/// Reads the other ends of the first two auxiliary ports of a live agent, of as many as it has, into the points from `first` on. Both points are
/// written, so that nothing is tested: what is there for a port that the agent lacks is not read.
#[inline(always)]
fn read_near(arena: &Arena, cell: CellNo, first: u8, points: &mut [EndWord])
    requires live { IsLive (state_at arena.now cell.0) }
    requires few { first + 2 ≤ most_ends }
    requires long { most_ends ≤ length points.old }
    ensures { HasPortsIn arena.now cell first (first + 2) points.old points.new }
{
    let row = arena.row();
    points[first as usize] = arena.near_in(row, cell, 1);
    points[first as usize + 1] = arena.near_in(row, cell, 2);
}

/// Reads the other ends of the further auxiliary ports, in their order, into the points before `to`.
#[inline(always)]
fn read_far(arena: &Arena, cell: CellNo, first: u8, to: u8, points: &mut [EndWord])
    requires ports { HasPortsFor arena.now cell first to (length points.old) }
    requires some { first + 2 < to }
    ensures { (before : List End) → HasPortsIn arena.now cell first (first + 2) before points.old → HasPortsIn arena.now cell first to before points.new }
{
    let row = arena.row();
    for number in first + 2..to {
        points[number as usize] = arena.far_in(row, cell, number - first + 1);
    }
}

/// Reads the other ends of a live agent's auxiliary ports, in their order, into the points from `first` to before `to`. The agent has that many
/// auxiliary ports.
#[inline(always)]
fn read_agent(arena: &Arena, cell: CellNo, first: u8, to: u8, points: &mut [EndWord])
    requires { HasPortsFor arena.now cell first to (length points.old) }
    ensures { HasPortsIn arena.now cell first to points.old points.new }
{
    read_near(arena, cell, first, points);
    if first + 2 < to {
        read_far(arena, cell, first, to, points);
    }
}

/// Reads the other ends of the pair's auxiliary ports into the points of their boundary ends.
#[inline(always)]
fn read_ports(arena: &Arena, pair: Pair, many: u8, points: &mut [EndWord])
    requires { CanRead arena.now pair many points.old }
    ensures read { (e : ℕ) → e < many → slice_get points.new e ≡ end_there arena.now (port_at pair e) }
    ensures others { (k : ℕ) → most_ends ≤ k → slice_get points.new k ≡ slice_get points.old k }
{
    use_promise!(arena.places(pair.one));
    read_agent(arena, pair.one, 0, pair.first_ends, points);
    read_agent(arena, pair.other, pair.first_ends, many, points);
}

/// The side of a wire at this point and place.
#[inline(always)]
fn side(points: &[EndWord], slot: u16, step: PlaceStep) -> EndWord
    requires { (x : End) × (y : End) × (slice_get points.now slot ≡ Some x) × IsAtPlace x step y }
    ensures { (x y : End) → slice_get points.now slot ≡ Some x → IsAtPlace x step y → result ≡ y }
{
    points[slot as usize].at(step)
}

/// Queues the pair that a wire with this lowest boundary end makes, if both its sides are principal ports. If the boundary end is an output, its
/// side is an input, and the agent of the other side comes first.
#[inline(always)]
fn queue_pair(template: &Template, end: u8, outer: EndWord, inner: EndWord, queue: &mut PairQueue)
    requires there { end < length template.now.outputs }
    requires room { length queue.old.items < queue.old.room }
    ensures added { (input : Bool) → slice_get template.now.outputs end ≡ Some input → AddsInOrder input outer inner queue.old.items queue.new.items }
    ensures longer { length queue.new.items ≤ length queue.old.items + 1 }
    ensures capacity { queue.new.room ≡ queue.old.room }
{
    if let (Some(one), Some(other)) = (outer.principal(), inner.principal()) {
        let pair = if template.is_output(end) {
            (other.0, one.0)
        } else {
            (one.0, other.0)
        };
        queue.push_back_reserved(pair);
    }
}

/// Writes the wires with boundary ends, and queues the pairs that they make, by their lowest boundary ends.
#[inline(always)]
fn write_over(
    template: &Template,
    points: &[EndWord],
    arena: &mut Arena,
    ends: &mut [EndWord],
    queue: &mut PairQueue,
)
    requires ready { (t : Tables) × (s : PairSetting) × (own : ℕ) × (ns : List Number) × IsWiring t s template.now own ns points.now 0 arena.old ends.old }
    requires room { length queue.old.items + length (over_of template.now.member) ≤ queue.old.room }
    ensures written { (t : Tables) (s : PairSetting) (own : ℕ) (ns : List Number) → IsWiring t s template.now own ns points.now 0 arena.old ends.old → IsWiring t s template.now own ns points.now (length (over_of template.now.member)) arena.new ends.new }
    ensures queued { (t : Tables) (s : PairSetting) (own : ℕ) (ns : List Number) → IsWiring t s template.now own ns points.now 0 arena.old ends.old → HasQueued t (interaction_of s ns) (map over_point (over_of template.now.member)) (length (over_of template.now.member)) queue.old.items queue.new.items }
    ensures kept { KeepsCells arena.old arena.new }
    ensures long { length ends.new ≡ length ends.old }
    ensures capacity { queue.new.room ≡ queue.old.room }
{
    let row = arena.row();
    let wires = template.over();
    for number in 0..wires.len() {
        let wire = &wires[number];
        let outer = points[wire.end() as usize];
        let inner = side(points, wire.slot(), wire.step());
        exchange_in(arena, row, ends, outer, inner);
        queue_pair(template, wire.end(), outer, inner, queue);
    }
}

/// Writes the wires within the right member, after those with boundary ends.
#[inline(always)]
fn write_within(template: &Template, points: &[EndWord], arena: &mut Arena, ends: &mut [EndWord])
    requires ready { (t : Tables) × (s : PairSetting) × (own : ℕ) × (ns : List Number) × IsWiring t s template.now own ns points.now (length (over_of template.now.member)) arena.old ends.old }
    ensures written { (t : Tables) (s : PairSetting) (own : ℕ) (ns : List Number) → IsWiring t s template.now own ns points.now (length (over_of template.now.member)) arena.old ends.old → IsWiring t s template.now own ns points.now (length (wires_of template.now.member)) arena.new ends.new }
    ensures kept { KeepsCells arena.old arena.new }
    ensures long { length ends.new ≡ length ends.old }
{
    let row = arena.row();
    let wires = template.within();
    for number in 0..wires.len() {
        let wire = &wires[number];
        let one = side(points, wire.one().slot(), wire.one().step());
        let other = side(points, wire.other().slot(), wire.other().step());
        exchange_in(arena, row, ends, one, other);
    }
}

/// Begins the right member's agents beside a pair to which no wire leads back, retires the pair, and writes the wires. The pairs that they make over
/// boundary ends are queued. It takes no memory, and other cells may be on lease.
#[inline(always)]
pub(crate) fn wire_up(
    template: &Template,
    pair: Pair,
    arena: &mut Arena,
    ends: &mut [EndWord],
    points: &mut [EndWord],
    queue: &mut PairQueue,
)
    requires ready { (t : Tables) × CanWireUp t template.now pair arena.old ends.old points.old }
    requires room { length queue.old.items + most_ends ≤ queue.old.room }
    ensures wired { (t : Tables) → CanWireUp t template.now pair arena.old ends.old points.old → IsWiredUp t template.now pair arena.old ends.old queue.old.items arena.new ends.new points.new queue.new.items }
    ensures points { length points.new ≡ length points.old }
    ensures long { length ends.new ≡ length ends.old }
    ensures capacity { queue.new.room ≡ queue.old.room }
{
    begin_agents(template.member(), arena, points);
    read_ports(arena, pair, template.boundary_ends(), points);
    arena.retire(pair.one);
    arena.retire(pair.other);
    write_over(template, points, arena, ends, queue);
    write_within(template, points, arena, ends);
}

/// Begins a cell for each agent once the pair's cells are free, which the first two agents get: they are of theirs.
#[inline(always)]
fn begin_both(member: &Member, pair: Pair, arena: &mut Arena, points: &mut [EndWord])
    requires pair { AreLive pair arena.old × CanBegin member.now arena.old points.old }
    requires taken { (classes : CellClass × CellClass) × BothTake member.now classes × AreOfClasses classes pair arena.old }
    ensures begun { (ns : List Number) × HasBegun member.now ns (retired pair arena.old) arena.new × AreAtAgents ns points.new }
    ensures ends { (e : ℕ) → e < most_ends → slice_get points.new e ≡ slice_get points.old e }
    ensures long { length points.new ≡ length points.old }
{
    use_promise!(member.is_sound());
    let row = arena.row();
    let first = member.renew(0, pair.one, row, arena);
    points[MOST_ENDS] = EndWord::place_of(first, 0);
    let second = member.renew(1, pair.other, row, arena);
    points[MOST_ENDS + 1] = EndWord::place_of(second, 0);
    begin_rest(member, 2, arena, points);
}

/// Begins a cell for each agent once the pair's cells, which are of these classes, are free: the first two agents get these if they are of theirs.
#[inline(always)]
fn begin_in(
    member: &Member,
    pair: Pair,
    classes: (CellClass, CellClass),
    arena: &mut Arena,
    points: &mut [EndWord],
)
    requires { AreLive pair arena.old × CanBegin member.now arena.old points.old × AreOfClasses classes pair arena.old }
    ensures begun { (ns : List Number) × HasBegun member.now ns (retired pair arena.old) arena.new × AreAtAgents ns points.new }
    ensures ends { (e : ℕ) → e < most_ends → slice_get points.new e ≡ slice_get points.old e }
    ensures long { length points.new ≡ length points.old }
{
    use_promise!(member.is_sound());
    let many = member.agents();
    if many == 0 {
        arena.retire_as(pair.one, classes.0);
        arena.retire_as(pair.other, classes.1);
        begin_rest(member, 0, arena, points);
        return;
    }
    let first = member.begin_in(0, pair.one, classes.0, arena);
    points[MOST_ENDS] = EndWord::place_of(first, 0);
    if many == 1 {
        arena.retire_as(pair.other, classes.1);
        begin_rest(member, 1, arena, points);
        return;
    }
    let second = member.begin_in(1, pair.other, classes.1, arena);
    points[MOST_ENDS + 1] = EndWord::place_of(second, 0);
    begin_rest(member, 2, arena, points);
}

/// The pair's cells with their classes, in the order in which the first two agents take them.
#[inline(always)]
fn own_cells(template: &Template, turned: bool, pair: Pair) -> (Pair, (CellClass, CellClass))
    ensures { AreOwnCells turned pair template.now.classes result.0 result.1 }
{
    let classes = template.classes();
    if turned {
        let turned = Pair {
            one: pair.other,
            other: pair.one,
            first_ends: pair.first_ends,
        };
        return (turned, (classes.1, classes.0));
    }
    (pair, classes)
}

/// Begins a cell for each agent once the pair's cells are free: the first two agents get these if they are of theirs.
#[inline(always)]
fn begin_anew(template: &Template, pair: Pair, arena: &mut Arena, points: &mut [EndWord])
    requires { AreLive pair arena.old × CanBegin template.now.member arena.old points.old × AreOfClasses template.now.classes pair arena.old }
    ensures begun { (ns : List Number) × HasBegun template.now.member ns (retired pair arena.old) arena.new × AreAtAgents ns points.new }
    ensures ends { (e : ℕ) → e < most_ends → slice_get points.new e ≡ slice_get points.old e }
    ensures long { length points.new ≡ length points.old }
{
    // The classes are read only where they are needed.
    let order = template.own_order();
    if order.both {
        let (own, _) = own_cells(template, order.turned, pair);
        begin_both(template.member(), own, arena, points);
    } else {
        let (own, classes) = own_cells(template, order.turned, pair);
        begin_in(template.member(), own, classes, arena, points);
    }
}

/// Retires a pair to which no wire leads back, places the right member's agents, which reuse its cells if they can, and writes the wires, as
/// `wire_up` does.
#[inline(always)]
pub(crate) fn wire_anew<const ORDER: u8>(
    template: &Template,
    pair: Pair,
    arena: &mut Arena,
    ends: &mut [EndWord],
    points: &mut [EndWord],
    queue: &mut PairQueue,
)
    requires ready { (t : Tables) × CanWireAnew t template.now pair arena.old ends.old points.old }
    requires room { length queue.old.items + most_ends ≤ queue.old.room }
    ensures wired { (t : Tables) → CanWireAnew t template.now pair arena.old ends.old points.old → IsWiredAnew t template.now pair arena.old ends.old queue.old.items arena.new ends.new points.new queue.new.items }
    ensures points { length points.new ≡ length points.old }
    ensures long { length ends.new ≡ length ends.old }
    ensures capacity { queue.new.room ≡ queue.old.room }
{
    read_ports(arena, pair, template.boundary_ends(), points);
    begin_anew(template, pair, arena, points);
    write_over(template, points, arena, ends, queue);
    write_within(template, points, arena, ends);
}

/// The cell of the agent of that number. The cell's principal port is the agent's point.
#[inline(always)]
fn agent_at(points: &[EndWord], agent: u32) -> CellNo
    requires { (c : Number) × (slice_get points.now (most_ends + agent) ≡ Some (Cell c 0)) }
    ensures { (c : Number) → slice_get points.now (most_ends + agent) ≡ Some (Cell c 0) → result ≡ c }
{
    let Some(cell) = points[MOST_ENDS + agent as usize].principal() else {
        // A principal port is there.
        unreachable!()
    };
    cell
}

/// Queues the active pairs among a member's agents, whose principal ports are at their points.
#[inline(always)]
pub(crate) fn queue_begun(member: &Member, points: &[EndWord], queue: &mut PairQueue)
    requires there { (ns : List Number) × AreAtAgents ns points.now × AreOwnPairs ns member.now }
    requires room { length queue.old.items + length member.now.pairs ≤ queue.old.room }
    ensures items { (ns : List Number) → AreAtAgents ns points.now → AreOwnPairs ns member.now → queue.new.items ≡ queue.old.items ++ map (both (named ns)) member.now.pairs }
    ensures room { queue.new.room ≡ queue.old.room }
{
    for number in 0..member.pairs() {
        let (one, other) = member.pair(number);
        let first = agent_at(points, one);
        let second = agent_at(points, other);
        queue.push_back_reserved((first.0, second.0));
    }
}
