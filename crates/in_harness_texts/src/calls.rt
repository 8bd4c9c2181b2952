//! Calls that take memory, each made directly on a program, and a line on the result of each. They are for a run in which one request for memory is
//! refused: then the line of one call says that memory ran out, the values that it has to leave unchanged are read, and the other lines stay.
ghost use Rattle.std.specs.Prelude.{◌≡◌, ◌≤◌, IfOk, IfSome, IsTrue};
ghost use Rattle.in_arena.specs.Arenas.{NoneLeased, free_of};
ghost use Rattle.in_compile.specs.Cells.{count_of, IsEnough};
ghost use Rattle.in_net.specs.ActivePairs.{IsActivePair};
ghost use Rattle.in_net.specs.Built.{IsOver};

use crate::sheet::Sheet;
use in_arena::Arena;
use in_base::use_promise;
use in_check::{Checked, Item, Plain};
use in_compile::{Need, Stock, compile};
use in_interaction::MOST_AGENTS;
use in_net::{AgentNo, Net};
use in_simple::verify;
use in_symbols::Symbols;
use std::alloc::{AllocError, Global};

/// The number of cells of each class of an arena.
const CELLS: u32 = 64;

/// The result of a call that takes memory.
#[derive(Clone, Copy, PartialEq, Eq)]
pub enum Came {
    /// It did its work.
    Done,
    /// Memory ran out.
    Memory,
    /// .. and the values that have to be as before are.
    Unchanged,
    /// Memory ran out before its result could be read.
    Unseen,
    /// A value isn't as it has to be.
    Wrong,
    /// A round of this many interactions was done, with this many threads.
    Rounded(u32, u32),
    /// A round was refused, all was as before, and then it was done.
    RoundedThen(u32, u32),
}

/// The result of a call, in words, if no round was done. Without a result, memory ran out before the call.
fn words_of(came: Option<Came>) -> &'static str {
    match came {
        None => "memory before it",
        Some(Came::Done) => "done",
        Some(Came::Memory) => "memory",
        Some(Came::Unchanged) => "memory, as before",
        Some(Came::Unseen) => "memory after it",
        _ => "WRONG",
    }
}

/// Adds the line of a call.
pub fn add_call(sheet: &mut Sheet, call: &str, came: Option<Came>) {
    sheet.say(call);
    sheet.say(": ");
    match came {
        Some(Came::Rounded(interactions, threads)) => {
            sheet.fill(
                "# interactions, # threads",
                &[interactions as u64, threads as u64],
            )
        }
        Some(Came::RoundedThen(interactions, threads)) => sheet.fill(
            "memory, as before, then # interactions, # threads",
            &[interactions as u64, threads as u64],
        ),
        _ => sheet.say(words_of(came)),
    }
    sheet.say("\n");
}

/// The result of a call that is refused only when out of memory.
pub fn came_of<T: Drop>(answer: Result<T, AllocError>) -> Option<Came> {
    Some(match answer {
        Ok(_) => Came::Done,
        Err(_) => Came::Memory,
    })
}

/// An arena without leased cells.
pub fn fresh(alloc: Global, cells: u32) -> Result<Arena, AllocError>
    requires { cells ≤ 1048576 }
    ensures { IfOk result (λ a. NoneLeased a) }
{
    Arena::new(alloc, cells)
}

/// Whether each class has as many free cells as `need` says.
pub fn are_free(arena: &Arena, need: Need) -> bool
    ensures { IsTrue result → IsEnough (count_of need) (free_of arena.now) }
{
    Need::free_in(arena).has_besides(need, 0)
}

/// Whether a refused stock leaves the free cells as they were.
fn unchanged(arena: &Arena, before: Need) -> Came {
    if Need::free_in(arena) == before {
        Came::Unchanged
    } else {
        Came::Wrong
    }
}

/// The result of filling a stock with the cells of `need`, which are then freed.
fn filled(alloc: Global, arena: &mut Arena, need: Need) -> Came
    ensures { arena.new ≡ arena.old }
{
    let before = Need::free_in(arena);
    if !are_free(arena, need) {
        return Came::Wrong;
    }
    use_promise!(arena.cells());
    match Stock::fill(alloc, arena, need) {
        Ok(stock) => {
            stock.spend(arena);
            Came::Done
        }
        Err(_) => unchanged(arena, before),
    }
}

/// The same in a new arena.
fn filled_anew(alloc: Global, need: Need) -> Option<Came> {
    match fresh(alloc, CELLS) {
        Ok(mut arena) => {
            let came = filled(alloc, &mut arena, need);
            drop(arena);
            Some(came)
        }
        Err(_) => None,
    }
}

/// The result of filling a stock for the template of a program that needs most.
fn fill(alloc: Global, program: &Checked) -> Option<Came> {
    match compile(alloc, program) {
        Ok(templates) => {
            let need = templates.largest_need();
            drop(templates);
            filled_anew(alloc, need)
        }
        Err(_) => None,
    }
}

/// Whether the program's own steps build its net.
fn verified(alloc: Global, program: &Checked) -> Option<Came> {
    let steps = program.certificate(Item::NetItem);
    Some(match verify(alloc, steps, program.shape(Item::NetItem)) {
        Ok(true) => Came::Done,
        Ok(false) => Came::Wrong,
        Err(_) => Came::Memory,
    })
}

/// An active pair of a net, if there is one.
fn first_pair(symbols: &Symbols, net: &Net) -> Option<(AgentNo, AgentNo)>
    requires { IsOver symbols.now net.now }
    ensures { IfSome result (λ q. IsActivePair symbols.now net.now q) }
{
    for wire in 0..net.wires() {
        if let Some(pair) = net.pair_of_wire(symbols, wire) {
            return Some(pair);
        }
    }
    None
}

/// The interaction of a pair, if there is one whose first agent is a constructor.
fn step(alloc: Global, program: &Checked, plain: &mut Plain) -> Option<Result<(), AllocError>>
    requires { plain.old.program ≡ program.now.program }
    ensures { plain.new.program ≡ program.now.program }
{
    let (a, b) = first_pair(program.symbols(), plain.net())?;
    let symbol = plain.net().symbol(a)?;
    if !program.symbols().is_constructor(symbol) || plain.net().agents() > MOST_AGENTS {
        return None;
    }
    Some(plain.step(alloc, a, b))
}

/// Whether two nets have as many agents, and the same wires.
fn are_same(net: &Net, other: &Net) -> bool {
    if net.agents() != other.agents() || net.wires() != other.wires() {
        return false;
    }
    for wire in 0..net.wires().min(other.wires()) {
        if net.wire(wire) != other.wire(wire) {
            return false;
        }
    }
    true
}

/// The result of the first step after a refused one, which has to leave the program's net as before.
fn stepped_then(alloc: Global, program: &Checked, plain: &mut Plain) -> Came
    requires { plain.old.program ≡ program.now.program }
{
    if !are_same(plain.net(), program.net()) {
        return Came::Wrong;
    }
    match step(alloc, program, plain) {
        Some(Ok(())) => Came::Unchanged,
        Some(Err(_)) => Came::Memory,
        None => Came::Wrong,
    }
}

/// The result of the first step.
fn stepped(alloc: Global, program: &Checked, plain: &mut Plain) -> Came
    requires { plain.old.program ≡ program.now.program }
{
    match step(alloc, program, plain) {
        Some(Ok(())) => Came::Done,
        Some(Err(_)) => stepped_then(alloc, program, plain),
        None => Came::Wrong,
    }
}

/// An interaction of the slow reducer.
fn plain_step(alloc: Global, program: &Checked) -> Option<Came> {
    match Plain::new(alloc, program) {
        Ok(mut plain) => {
            let came = stepped(alloc, program, &mut plain);
            drop(plain);
            Some(came)
        }
        Err(_) => None,
    }
}

/// The calls on a program that need no machine.
pub fn add_calls(sheet: &mut Sheet, program: &Checked) {
    let alloc = sheet.alloc;
    add_call(sheet, "compile", came_of(compile(alloc, program)));
    add_call(sheet, "Stock::fill", fill(alloc, program));
    add_call(sheet, "verify", verified(alloc, program));
    add_call(sheet, "Plain::new", came_of(Plain::new(alloc, program)));
    add_call(sheet, "Plain::step", plain_step(alloc, program));
}
