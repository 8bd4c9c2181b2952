//! The view of a machine, and its printed net.
use in_harness_texts::Sheet;
use in_print::{PrintFault, write_net};
use in_rounds::{CellClass, End, Machine};
use in_syntax::MemoryOut;
use std::alloc::Global;

/// Room for a printed net, in bytes.
pub const ROOM: usize = 1_048_576;

/// A pair of the queue by its agents' symbols and numbers of auxiliary ports. Their cells are open.
fn add_pair(sheet: &mut Sheet, machine: &Machine, number: u32) {
    if number >= machine.pairs() {
        return;
    }
    let (one, other) = machine.pair(number);
    sheet.say(machine.symbol_name(one));
    sheet.fill("# ", &[machine.arity(one) as u64]);
    sheet.say(machine.symbol_name(other));
    sheet.fill("#\n", &[machine.arity(other) as u64]);
}

/// A free end by its name, and the other end of its wire: a port of an agent by its symbol, or a free end.
fn add_free(sheet: &mut Sheet, machine: &Machine, number: u32) {
    if number >= machine.free_ends() {
        return;
    }
    // In a machine the agent to which a wire leads exists.
    let _ = machine.pairs();
    sheet.say(machine.free_name(number));
    match machine.partner(End::Free(number)) {
        End::Cell(cell, place) => {
            sheet.say(" at ");
            sheet.say(machine.symbol_name(cell));
            sheet.fill(".#\n", &[place as u64]);
        }
        End::Free(other) => sheet.fill(" at end #\n", &[other as u64]),
    }
}

/// Adds the view of a machine: agents and free cells, pairs, free ends, a line each.
pub fn add_machine(sheet: &mut Sheet, machine: &Machine) {
    sheet.fill("# agents, ", &[machine.agents() as u64]);
    let free = CellClass::ALL.map(|class| machine.free(class) as u64);
    sheet.fill("#, # and # free\n", &free);
    for number in 0..machine.pairs() {
        add_pair(sheet, machine, number);
    }
    for number in 0..machine.free_ends() {
        add_free(sheet, machine, number);
    }
}

/// A machine's printed net; `None` when out of memory.
pub fn printed(alloc: Global, machine: &Machine) -> Option<MemoryOut> {
    let mut writer = MemoryOut::new(alloc, ROOM).ok()?;
    match write_net(alloc, machine, &mut writer) {
        Ok(_) => Some(writer),
        Err(_) => None,
    }
}

/// Adds the printed net.
pub fn add_printed(sheet: &mut Sheet, machine: &Machine) {
    match printed(sheet.alloc, machine) {
        Some(writer) => sheet.say(str::from_utf8(writer.text()).unwrap_or("?")),
        None => sheet.fail(),
    }
}

/// Adds a machine's printed net and its view.
pub fn add_view(sheet: &mut Sheet, machine: &Machine) {
    add_printed(sheet, machine);
    add_machine(sheet, machine);
}

/// Adds the result of writing a machine's net.
fn add_came(sheet: &mut Sheet, came: Result<u64, PrintFault>) {
    match came {
        Ok(bytes) => sheet.fill("# bytes: ", &[bytes]),
        Err(PrintFault::Write { written }) => sheet.fill("broken off after #: ", &[written]),
        Err(PrintFault::Memory) => sheet.fail(),
    }
}

/// Adds the part of a machine's net that a writer takes if it has room for this many bytes and then fails.
pub fn add_written(sheet: &mut Sheet, machine: &Machine, room: u32) {
    match MemoryOut::new(sheet.alloc, room as usize) {
        Ok(mut writer) => {
            let came = write_net(sheet.alloc, machine, &mut writer);
            add_came(sheet, came);
            sheet.say(str::from_utf8(writer.text()).unwrap_or("?"));
            sheet.say("\n");
        }
        Err(_) => sheet.fail(),
    }
}
