ghost use Rattle.std.specs.Prelude.{◌≡◌, ◌++◌, [], ◌∷◌, ℕ, IsSome, IfOk, OnOk, option_map};
ghost use Rattle.in_net.specs.Nets.{Point};
ghost use Rattle.in_net.specs.Parts.{symbol_in};
ghost use Rattle.in_machine.specs.Machines.{IsMachine};
ghost use Rattle.in_reducer.specs.Machines.{parts_of};
ghost use Rattle.in_print.specs.Points.{point_at};
ghost use Rattle.in_print.specs.Terms.{term_in, LeadsDown, IsShallow, WritesOn, last_point};
ghost use Rattle.in_print.specs.Texts.{setting_of, IsPointAt, IsPrincipalAt, Wrote};

use crate::sheet::Sheet;
use in_arena::{CellNo, End};
use in_machine::Machine;
use std::alloc::{AllocError, Global};

/// An agent, and the place up to which its terms have been begun.
#[derive(Clone, Copy)]
pub(crate) struct Frame {
    pub cell: CellNo,
    pub place: u8,
}

/// The agent with this principal port.
fn agent_at(end: End) -> Option<CellNo>
    ensures { IsPrincipalAt end result }
{
    match end {
        End::Cell(cell, 0) => Some(cell),
        _ => None,
    }
}

/// Writes the beginning of the term at an end. Returns the end of the term that follows, if its agent has one.
fn begin(
    alloc: Global,
    machine: &Machine,
    sheet: &mut Sheet,
    stack: &mut Vec<Frame>,
    end: End,
) -> Result<Option<End>, AllocError>
    requires machine { IsMachine machine.now }
    requires point { IsPointAt machine.now end }
    ensures { IfOk result (λ x. (d : ℕ) (p : Point ℕ) → IsShallow (setting_of machine.now) d p → LeadsDown (setting_of machine.now) p stack.old.items → point_at end ≡ last_point p stack.old.items →
        WritesOn (setting_of machine.now) d p sheet.old stack.old.items (Some (point_at end)) sheet.new stack.new.items (option_map point_at x)) }
{
    let partner = machine.partner(end);
    let Some(cell) = agent_at(partner) else {
        sheet.add_variable(alloc, end, partner)?;
        return Ok(None);
    };
    sheet.add(machine.symbol_name(cell).as_bytes())?;
    if machine.arity(cell) == 0 {
        return Ok(None);
    }
    sheet.add(b"(")?;
    stack.push(Frame { cell, place: 1 })?;
    Ok(Some(End::Cell(cell, 1)))
}

/// Continues after the term at a place of this agent, while the agents below wait on the stack. Returns the end of the term that follows, if another
/// place has one.
fn go_on(
    machine: &Machine,
    sheet: &mut Sheet,
    stack: &mut Vec<Frame>,
    frame: Frame,
) -> Result<Option<End>, AllocError>
    requires { IsSome (symbol_in (parts_of machine.now) frame.cell.0) }
    ensures { IfOk result (λ x. (d : ℕ) (p : Point ℕ) → IsShallow (setting_of machine.now) d p → LeadsDown (setting_of machine.now) p (stack.old.items ++ frame ∷ []) →
        WritesOn (setting_of machine.now) d p sheet.old (stack.old.items ++ frame ∷ []) None sheet.new stack.new.items (option_map point_at x)) }
{
    let Frame { cell, place } = frame;
    if place >= machine.arity(cell) {
        sheet.add(b")")?;
        return Ok(None);
    }
    let next = place + 1;
    sheet.add(b", ")?;
    stack.push(Frame { cell, place: next })?;
    Ok(Some(End::Cell(cell, next)))
}

/// Writes the term at an end. The depth of calls doesn't depend on the term.
pub(crate) fn term(
    alloc: Global,
    machine: &Machine,
    sheet: &mut Sheet,
    from: End,
) -> Result<(), AllocError>
    requires machine { IsMachine machine.now }
    requires point { IsPointAt machine.now from }
    ensures { OnOk result (Wrote machine.now sheet.old sheet.new (λ d. term_in (setting_of machine.now) d (point_at from))) }
{
    let mut stack: Vec<Frame> = Vec::new(alloc);
    let mut focus = Some(from);
    loop {
        match focus {
            Some(end) => focus = begin(alloc, machine, sheet, &mut stack, end)?,
            None => match stack.pop() {
                Some(frame) => focus = go_on(machine, sheet, &mut stack, frame)?,
                None => return Ok(()),
            },
        }
    }
}
