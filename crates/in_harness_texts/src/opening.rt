//! Open nets, the steps that build them, and the rule of each pair, by direct calls on a read program, before its types are checked.
ghost use Rattle.std.specs.Prelude.{◌<◌, length};
ghost use Rattle.in_harness_texts.specs.Texts.{IsReadProgram};

use crate::orders::add_orders;
use crate::sheet::Sheet;
use in_cover::cover;
use in_net::{build_net, build_rule};
use in_open_nets_of_programs::laws::{
    tables_are_numbered, text_nets_are_all_there, text_rules_are_whole,
};
use in_simple::{OpenNet, Undone, derive, open_net, open_rule};
use in_symbols::Symbols;
use in_syntax::{Fault, Source};
use std::alloc::Global;

/// The open net of the rule of that number.
fn rule_opened(
    alloc: Global,
    source: &Source,
    symbols: &Symbols,
    number: u32,
) -> Result<OpenNet, Fault>
    requires program { IsReadProgram source.now symbols.now }
    requires number { number < length source.now.rules }
{
    tables_are_numbered();
    text_rules_are_whole();
    let rule = build_rule(alloc, source, symbols, number)?;
    Ok(open_rule(alloc, symbols, &rule)?)
}

/// The open net of the program's net.
fn net_opened(alloc: Global, source: &Source, symbols: &Symbols) -> Result<OpenNet, Fault>
    requires { IsReadProgram source.now symbols.now }
{
    tables_are_numbered();
    text_nets_are_all_there();
    let net = build_net(alloc, source, symbols)?;
    Ok(open_net(alloc, symbols, &net)?)
}

/// Adds the numbers of nodes and wires of an open net, and of the steps that build it, or of the stuck nodes.
fn add_derived(sheet: &mut Sheet, shape: &OpenNet) {
    let counts = [shape.nodes() as u64, shape.wires() as u64];
    sheet.fill("# nodes, # wires, ", &counts);
    match derive(sheet.alloc, shape) {
        Ok(found) => sheet.fill("# steps\n", &[found.steps.len() as u64]),
        Err(Undone::Stuck(stuck)) => sheet.fill("stuck: #\n", &[stuck.nodes.len() as u64]),
        Err(Undone::Memory(_)) => sheet.fail(),
    }
}

/// What is written of an open net.
#[derive(Clone, Copy)]
pub enum Told {
    /// How many steps build it, or how many nodes are stuck.
    Steps,
    /// The orders of its nodes.
    Orders,
}

fn add_opened(sheet: &mut Sheet, opened: Result<OpenNet, Fault>, told: Told) {
    match opened {
        Ok(shape) => {
            match told {
                Told::Steps => add_derived(sheet, &shape),
                Told::Orders => add_orders(sheet, &shape),
            }
            drop(shape);
        }
        Err(fault) => sheet.add_fault(&fault),
    }
}

/// Adds the first pair that requires a rule, if the program had no rules at all.
fn add_uncovered(sheet: &mut Sheet, symbols: &Symbols) {
    match cover(sheet.alloc, symbols, &[]) {
        Ok(table) => {
            drop(table);
            sheet.say("no pair\n");
        }
        Err(fault) => sheet.add_fault(&fault),
    }
}

/// The open nets of the rules and of the net.
pub fn add_all_opened(sheet: &mut Sheet, source: &Source, symbols: &Symbols, told: Told)
    requires { IsReadProgram source.now symbols.now }
{
    for number in 0..source.rules.len() as u32 {
        let opened = rule_opened(sheet.alloc, source, symbols, number);
        add_opened(sheet, opened, told);
    }
    let opened = net_opened(sheet.alloc, source, symbols);
    add_opened(sheet, opened, told);
}

/// .. with their steps, and then the first pair that requires a rule, if the program had none.
pub fn add_open_nets(sheet: &mut Sheet, source: &Source, symbols: &Symbols)
    requires { IsReadProgram source.now symbols.now }
{
    add_all_opened(sheet, source, symbols, Told::Steps);
    add_uncovered(sheet, symbols);
}
