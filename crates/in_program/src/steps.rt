ghost use Rattle.std.specs.Prelude.{◌≡◌, ◌<◌, ◌+◌, ◌∷◌, ◌++◌, [], codes, decimal, length, drop, IfOk, OnOk};
ghost use Rattle.in_symbols.specs.Names.{name_in};
ghost use Rattle.in_open_nets.specs.OpenNets.{node_in};
ghost use Rattle.in_program.specs.Lines.{line_end};
ghost use Rattle.in_program.specs.Steps.{derivation_lines, heads_line, lines_from, node_text, numbers_text, rules_lines, step_text};

use in_check::{Checked, Item};
use in_cover::RuleNo;
use in_net::Rule;
use in_open_nets::{Derivation, Node, OpenNet, Step};
use in_symbols::Symbols;
use in_syntax::SymbolNo;
use std::alloc::{AllocError, Global};

/// Adds the name of a symbol.
fn add_name(bytes: &mut Vec<u8>, symbols: &Symbols, symbol: SymbolNo) -> Result<(), AllocError>
    ensures { OnOk result (bytes.new.items ≡ bytes.old.items ++ name_in symbol.0 symbols.now.names) }
{
    if symbol.0 < symbols.symbols() {
        bytes.extend_from_slice(symbols.name(symbol).as_bytes())?;
    }
    Ok(())
}

/// Adds a number after a space.
fn add_number(bytes: &mut Vec<u8>, alloc: Global, number: u32) -> Result<(), AllocError>
    ensures { OnOk result (bytes.new.items ≡ bytes.old.items ++ (codes " " ++ decimal number)) }
{
    let text = format!(in alloc; " {number}")?;
    bytes.extend_from_slice(text.as_bytes())?;
    Ok(())
}

/// Adds each number after a space.
fn add_numbers(bytes: &mut Vec<u8>, alloc: Global, numbers: &[u32]) -> Result<(), AllocError>
    ensures { OnOk result (bytes.new.items ≡ bytes.old.items ++ numbers_text numbers.now) }
{
    for index in 0..numbers.len() {
        add_number(bytes, alloc, numbers[index])?;
    }
    Ok(())
}

/// Adds the name of a node's symbol, and the class of a class node.
fn add_node(
    bytes: &mut Vec<u8>,
    alloc: Global,
    symbols: &Symbols,
    shape: &OpenNet,
    node: u32,
) -> Result<(), AllocError>
    ensures { OnOk result (bytes.new.items ≡ bytes.old.items ++ node_text symbols.now (node_in shape.now node)) }
{
    if node >= shape.nodes() {
        return Ok(());
    }
    match shape.node(node) {
        Node::AgentNode(symbol) => add_name(bytes, symbols, symbol),
        Node::ClassNode(symbol, class) => {
            add_name(bytes, symbols, symbol)?;
            add_number(bytes, alloc, class as u32)
        }
    }
}

/// Adds the word of a step, and its node.
fn add_word_and_node(
    bytes: &mut Vec<u8>,
    alloc: Global,
    symbols: &Symbols,
    shape: &OpenNet,
    word: &[u8],
    node: u32,
) -> Result<(), AllocError>
    ensures { OnOk result (bytes.new.items ≡ bytes.old.items ++ (word.now ++ node_text symbols.now (node_in shape.now node))) }
{
    bytes.extend_from_slice(word)?;
    add_node(bytes, alloc, symbols, shape, node)
}

/// Adds the word of a step, and the two steps that it names.
fn add_word_and_two(
    bytes: &mut Vec<u8>,
    alloc: Global,
    word: &[u8],
    a: u32,
    b: u32,
) -> Result<(), AllocError>
    ensures { OnOk result (bytes.new.items ≡ bytes.old.items ++ (word.now ++ numbers_text (a ∷ b ∷ []))) }
{
    bytes.extend_from_slice(word)?;
    add_numbers(bytes, alloc, &[a, b])
}

/// Adds the word of a step, and the nodes and steps that it names.
fn add_step(
    bytes: &mut Vec<u8>,
    alloc: Global,
    symbols: &Symbols,
    shape: &OpenNet,
    step: &Step,
) -> Result<(), AllocError>
    ensures { OnOk result (bytes.new.items ≡ bytes.old.items ++ step_text symbols.now shape.now step.now) }
{
    match step {
        Step::Empty => bytes.extend_from_slice(b"empty"),
        Step::Link { wire: _ } => bytes.extend_from_slice(b"link"),
        Step::Given { node } => add_word_and_node(bytes, alloc, symbols, shape, b"given ", *node),
        Step::Graft { node, classes } => {
            add_word_and_node(bytes, alloc, symbols, shape, b"graft ", *node)?;
            add_numbers(bytes, alloc, classes.as_slice())
        }
        Step::Cut { wire: _, a, b } => add_word_and_two(bytes, alloc, b"cut", *a, *b),
        Step::Mix { a, b } => add_word_and_two(bytes, alloc, b"mix", *a, *b),
    }
}

/// Adds the line of a step, with its number.
fn add_line(
    bytes: &mut Vec<u8>,
    alloc: Global,
    symbols: &Symbols,
    shape: &OpenNet,
    number: usize,
    step: &Step,
) -> Result<(), AllocError>
    ensures { OnOk result (bytes.new.items ≡ bytes.old.items ++ (decimal number ++ (codes " " ++ (step_text symbols.now shape.now step.now ++ line_end)))) }
{
    let text = format!(in alloc; "{number} ")?;
    bytes.extend_from_slice(text.as_bytes())?;
    add_step(bytes, alloc, symbols, shape, step)?;
    bytes.push(b'\n')?;
    Ok(())
}

/// Adds the lines of the steps that build an open net.
fn add_lines(
    bytes: &mut Vec<u8>,
    alloc: Global,
    symbols: &Symbols,
    shape: &OpenNet,
    derivation: &Derivation,
) -> Result<(), AllocError>
    ensures { OnOk result (bytes.new.items ≡ bytes.old.items ++ lines_from symbols.now shape.now 0 derivation.now.steps) }
{
    let steps = derivation.steps.as_slice();
    for number in 0..steps.len() {
        add_line(bytes, alloc, symbols, shape, number, &steps[number])?;
    }
    Ok(())
}

/// Adds the names of a rule's heads, as they are written.
fn add_heads(bytes: &mut Vec<u8>, symbols: &Symbols, rule: &Rule) -> Result<(), AllocError>
    ensures { OnOk result (bytes.new.items ≡ bytes.old.items ++ heads_line symbols.now rule.now) }
{
    let (first, second) = rule.written();
    bytes.extend_from_slice(b"rule ")?;
    add_name(bytes, symbols, first)?;
    bytes.push(b' ')?;
    add_name(bytes, symbols, second)?;
    bytes.push(b'\n')?;
    Ok(())
}

/// Adds the lines of a rule: the names of its heads, and its steps.
fn add_rule(
    bytes: &mut Vec<u8>,
    alloc: Global,
    checked: &Checked,
    number: u32,
) -> Result<(), AllocError>
    requires { number < length checked.now.program.rules }
    ensures { OnOk result (bytes.new.items ++ rules_lines checked.now.program.tables (drop (number + 1) checked.now.program.rules) (drop (number + 1) checked.now.rule_certificates)
        ≡ bytes.old.items ++ rules_lines checked.now.program.tables (drop number checked.now.program.rules) (drop number checked.now.rule_certificates)) }
{
    let symbols = checked.symbols();
    let item = Item::RuleItem(RuleNo(number));
    add_heads(bytes, symbols, checked.rule(RuleNo(number)))?;
    add_lines(
        bytes,
        alloc,
        symbols,
        checked.shape(item),
        checked.certificate(item),
    )?;
    Ok(())
}

/// Adds the lines of the rules.
fn add_rules(bytes: &mut Vec<u8>, alloc: Global, checked: &Checked) -> Result<(), AllocError>
    ensures { OnOk result (bytes.new.items ≡ bytes.old.items ++ rules_lines checked.now.program.tables checked.now.program.rules checked.now.rule_certificates) }
{
    for number in 0..checked.rules() {
        add_rule(bytes, alloc, checked, number)?;
    }
    Ok(())
}

/// The lines of the derivations of an accepted program: rule by rule, and then the net.
pub fn derivation_lines(alloc: Global, checked: &Checked) -> Result<Vec<u8>, AllocError>
    ensures { IfOk result (λ lines. lines.items ≡ derivation_lines checked.now) }
{
    let mut bytes = Vec::new(alloc);
    add_rules(&mut bytes, alloc, checked)?;
    bytes.extend_from_slice(b"net\n")?;
    let item = Item::NetItem;
    add_lines(
        &mut bytes,
        alloc,
        checked.symbols(),
        checked.shape(item),
        checked.certificate(item),
    )?;
    Ok(bytes)
}
