//! Tables, rules and nets after reading, before types are checked.
ghost use Rattle.std.specs.Prelude.{◌≡◌, ◌<◌, ◌≤◌, length, IfOk, IsTrue};
ghost use Rattle.in_symbols.specs.Tables.{IsSymbol};
ghost use Rattle.in_net.specs.Built.{IsOver};
ghost use Rattle.in_harness_texts.specs.Texts.{IsRead, IsReadProgram, IsBuilt, IsBuiltRule};

use crate::opening::{Told, add_all_opened, add_open_nets};
use crate::sheet::Sheet;
use in_net::{AgentNo, Net, Point, Rule, build_net, build_rule};
use in_symbols::{PortType, Symbols};
use in_syntax::{Fault, Source, SymbolNo, TextLimits, parse};
use std::alloc::{AllocError, Global};

/// The part of a read program that is written.
#[derive(Clone, Copy)]
pub enum Read {
    Tables,
    Nets,
    OpenNets,
    Orders,
}

fn add_port(sheet: &mut Sheet, port: PortType, class: u8) {
    let form = if port.output { " #+#" } else { " #-#" };
    sheet.fill(form, &[port.kind as u64, class as u64]);
}

/// Adds the parts of a symbol after its name: its place, its numbers of ports and classes, and each port's type, sign and class.
fn add_ports(sheet: &mut Sheet, symbols: &Symbols, symbol: SymbolNo)
    requires { IsSymbol symbols.now symbol.0 }
{
    let arity = symbols.arity(symbol);
    let counts = [arity as u64, symbols.classes(symbol) as u64];
    sheet.fill(", # ports in # classes, constructor ", &counts);
    sheet.show(&symbols.is_constructor(symbol));
    sheet.say(":");
    for place in 0..=arity {
        add_port(
            sheet,
            symbols.port(symbol, place),
            symbols.class_of(symbol, place),
        );
    }
    sheet.say("\n");
}

/// A symbol with its number, its place and its ports, and the symbol of its name.
fn add_symbol(sheet: &mut Sheet, symbols: &Symbols, symbol: SymbolNo)
    requires { IsSymbol symbols.now symbol.0 }
{
    let name = symbols.name(symbol);
    sheet.fill("symbol # ", &[symbol.0 as u64]);
    sheet.say(name);
    sheet.add_place(symbols.place(symbol));
    sheet.say(" named ");
    sheet.show(&symbols.number_of(name));
    add_ports(sheet, symbols, symbol);
}

/// Adds the symbols that match this one.
fn add_matching(sheet: &mut Sheet, symbols: &Symbols, symbol: SymbolNo)
    requires { IsSymbol symbols.now symbol.0 }
{
    sheet.fill("matching #:", &[symbol.0 as u64]);
    for other in 0..symbols.symbols() {
        if symbols.matching(symbol, SymbolNo(other)) {
            sheet.fill(" #", &[other as u64]);
        }
    }
    sheet.say("\n");
}

/// A type with its number, and the symbol of its name.
fn add_type(sheet: &mut Sheet, symbols: &Symbols, kind: u32)
    requires { kind < length symbols.now.types }
{
    let name = symbols.type_name(kind);
    sheet.fill("type # ", &[kind as u64]);
    sheet.say(name);
    sheet.say(", symbol ");
    sheet.show(&symbols.number_of(name));
    sheet.say("\n");
}

fn add_tables(sheet: &mut Sheet, symbols: &Symbols) {
    for kind in 0..symbols.types() {
        add_type(sheet, symbols, kind);
    }
    for number in 0..symbols.symbols() {
        add_symbol(sheet, symbols, SymbolNo(number));
        add_matching(sheet, symbols, SymbolNo(number));
    }
}

fn add_point(sheet: &mut Sheet, point: Point) {
    match point {
        Point::Port(agent, place) => sheet.fill(" #.#", &[agent.0 as u64, place as u64]),
        Point::Free(number) => sheet.fill(" free#", &[number as u64]),
    }
}

/// An agent with its number, its symbol and, as built, its place.
fn add_agent(sheet: &mut Sheet, net: &Net, agent: AgentNo)
    requires { agent.0 < length net.now.cells }
{
    let Some(symbol) = net.symbol(agent) else {
        return;
    };
    sheet.fill("agent # #", &[agent.0 as u64, symbol.0 as u64]);
    if net.is_built() {
        sheet.add_place(net.agent_place(agent));
    }
    sheet.say("\n");
}

/// A wire by its points, and as built by its place; and whether each of its points is the other's partner.
fn add_wire(sheet: &mut Sheet, net: &Net, number: u32)
    requires { number < length net.now.wires }
{
    let (one, other) = net.wire(number);
    sheet.say("wire");
    add_point(sheet, one);
    add_point(sheet, other);
    if net.is_built() {
        sheet.add_place(net.wire_place(number));
    }
    let is_joined = net.partner(one) == other && net.partner(other) == one;
    sheet.say(if is_joined { "\n" } else { " NOT JOINED\n" });
}

fn add_free(sheet: &mut Sheet, net: &Net, number: u32)
    requires { number < length net.now.free }
{
    sheet.say("free");
    add_port(sheet, net.free_type(number), 0);
    sheet.say(" ");
    sheet.say(net.free_name(number));
    sheet.say("\n");
}

/// Adds these active pairs.
pub fn add_pairs(sheet: &mut Sheet, what: &str, pairs: &[(AgentNo, AgentNo)]) {
    sheet.say(what);
    for (one, other) in pairs {
        sheet.fill(" #-#", &[one.0 as u64, other.0 as u64]);
    }
    sheet.say("\n");
}

/// The active pairs of a net.
fn add_active(sheet: &mut Sheet, symbols: &Symbols, net: &Net)
    requires { IsOver symbols.now net.now }
{
    match net.active_pairs(sheet.alloc, symbols) {
        Ok(pairs) => add_pairs(sheet, "active", pairs.as_slice()),
        Err(_) => sheet.fail(),
    }
}

/// A net: its agents, wires and free ends, and its active pairs.
pub fn add_net(sheet: &mut Sheet, symbols: &Symbols, net: &Net)
    requires { IsOver symbols.now net.now }
{
    sheet.fill("# agents\n", &[net.agents() as u64]);
    for agent in 0..net.cells().len() {
        add_agent(sheet, net, AgentNo(agent as u32));
    }
    for number in 0..net.wires() {
        add_wire(sheet, net, number);
    }
    for number in 0..net.free_ends() {
        add_free(sheet, net, number);
    }
    add_active(sheet, symbols, net);
}

/// Adds a rule: its symbols as written and the constructor first, the places of its heads, and its right member.
fn add_rule(sheet: &mut Sheet, symbols: &Symbols, rule: &Rule)
    requires { IsBuiltRule symbols.now rule.now }
{
    let (one, other) = rule.written();
    let (first, second) = rule.heads();
    let numbers = [
        one.0 as u64,
        other.0 as u64,
        first.0 as u64,
        second.0 as u64,
    ];
    sheet.fill("rule # #, # #", &numbers);
    sheet.add_place(rule.head_place(0));
    sheet.add_place(rule.head_place(1));
    sheet.say("\n");
    add_net(sheet, symbols, rule.member());
}

/// The net of a program; only that it is over its tables has to be known.
fn net_in(alloc: Global, source: &Source, symbols: &Symbols) -> Result<Net, Fault>
    requires { IsReadProgram source.now symbols.now }
    ensures { IfOk result (IsBuilt symbols.now) }
{
    build_net(alloc, source, symbols)
}

/// The rule of that number; only that much has to be known.
fn rule_in(alloc: Global, source: &Source, symbols: &Symbols, number: u32) -> Result<Rule, Fault>
    requires program { IsReadProgram source.now symbols.now }
    requires number { number < length source.now.rules }
    ensures { IfOk result (IsBuiltRule symbols.now) }
{
    build_rule(alloc, source, symbols, number)
}

fn add_nets(sheet: &mut Sheet, source: &Source, symbols: &Symbols)
    requires { IsReadProgram source.now symbols.now }
{
    for number in 0..source.rules.len() as u32 {
        match rule_in(sheet.alloc, source, symbols, number) {
            Ok(rule) => add_rule(sheet, symbols, &rule),
            Err(fault) => sheet.add_fault(&fault),
        }
    }
    match net_in(sheet.alloc, source, symbols) {
        Ok(net) => add_net(sheet, symbols, &net),
        Err(fault) => sheet.add_fault(&fault),
    }
}

/// The tree of a text; only that it was read has to be known.
fn tree_of(alloc: Global, text: &[u8]) -> Result<Source, Fault>
    ensures { IfOk result IsRead }
{
    parse(alloc, TextLimits::Usual, text)
}

/// The tables of a tree; only that much has to be known.
fn tables_of(alloc: Global, source: &Source) -> Result<Symbols, Fault>
    requires { IsRead source.now }
    ensures { IfOk result (IsReadProgram source.now) }
{
    Symbols::build(alloc, source)
}

fn add_read_source(sheet: &mut Sheet, source: &Source, read: Read)
    requires { IsRead source.now }
{
    match tables_of(sheet.alloc, source) {
        Ok(symbols) => {
            match read {
                Read::Tables => add_tables(sheet, &symbols),
                Read::Nets => add_nets(sheet, source, &symbols),
                Read::OpenNets => add_open_nets(sheet, source, &symbols),
                Read::Orders => add_all_opened(sheet, source, &symbols, Told::Orders),
            }
            drop(symbols);
        }
        Err(fault) => sheet.add_fault(&fault),
    }
}

/// Adds the tables of a text, or its rules and its net, or the reason why it is refused.
pub fn add_read(sheet: &mut Sheet, text: &[u8], read: Read) {
    match tree_of(sheet.alloc, text) {
        Ok(source) => {
            add_read_source(sheet, &source, read);
            drop(source);
        }
        Err(fault) => sheet.add_fault(&fault),
    }
}
