ghost use Rattle.std.specs.Prelude.{◌≡◌, ◌++◌, OnOk, Some};
ghost use Rattle.in_export.specs.Parts.{certificate_text, further, node_text, nodes_text, operands_text, step_name, step_text, steps_text};

use crate::json::{add_comma, add_key, add_name, add_number, add_numbers};
use in_open_nets::{Derivation, Node, OpenNet, Step};
use std::alloc::{AllocError, Global};

/// Adds a node: the number of its symbol, and for a class node also the number of the class.
fn add_node(bytes: &mut Vec<u8>, alloc: Global, node: Node) -> Result<(), AllocError>
    ensures { OnOk result (bytes.new.items ≡ bytes.old.items ++ node_text (Some node)) }
{
    bytes.push(b'[')?;
    match node {
        Node::AgentNode(symbol) => add_number(bytes, alloc, symbol.0)?,
        Node::ClassNode(symbol, class) => {
            add_number(bytes, alloc, symbol.0)?;
            bytes.push(b',')?;
            add_number(bytes, alloc, class as u32)?;
        }
    }
    bytes.push(b']')?;
    Ok(())
}

/// Adds the nodes of an open net, as an array.
fn add_nodes(bytes: &mut Vec<u8>, alloc: Global, shape: &OpenNet) -> Result<(), AllocError>
    ensures { OnOk result (bytes.new.items ≡ bytes.old.items ++ nodes_text shape.now) }
{
    bytes.push(b'[')?;
    for number in 0..shape.nodes() {
        add_comma(bytes, number as usize)?;
        add_node(bytes, alloc, shape.node(number))?;
    }
    bytes.push(b']')?;
    Ok(())
}

/// Adds a comma and a number.
fn add_further(bytes: &mut Vec<u8>, alloc: Global, number: u32) -> Result<(), AllocError>
    ensures { OnOk result (bytes.new.items ≡ bytes.old.items ++ further number) }
{
    bytes.push(b',')?;
    add_number(bytes, alloc, number)
}

/// Adds the operands of a step, after its word.
fn add_operands(bytes: &mut Vec<u8>, alloc: Global, step: &Step) -> Result<(), AllocError>
    ensures { OnOk result (bytes.new.items ≡ bytes.old.items ++ operands_text step.now) }
{
    match step {
        Step::Empty => Ok(()),
        Step::Link { wire } => add_further(bytes, alloc, *wire),
        Step::Given { node } => add_further(bytes, alloc, *node),
        Step::Graft { node, classes } => {
            add_further(bytes, alloc, *node)?;
            bytes.push(b',')?;
            add_numbers(bytes, alloc, classes.as_slice())
        }
        Step::Cut { wire, a, b } => {
            add_further(bytes, alloc, *wire)?;
            add_further(bytes, alloc, *a)?;
            add_further(bytes, alloc, *b)
        }
        Step::Mix { a, b } => {
            add_further(bytes, alloc, *a)?;
            add_further(bytes, alloc, *b)
        }
    }
}

/// The name of a step.
fn step_name(step: &Step) -> &'static str
    ensures { result.now ≡ step_name step.now }
{
    match step {
        Step::Empty => "empty",
        Step::Link { wire: _ } => "link",
        Step::Given { node: _ } => "given",
        Step::Graft {
            node: _,
            classes: _,
        } => "graft",
        Step::Cut {
            wire: _,
            a: _,
            b: _,
        } => "cut",
        Step::Mix { a: _, b: _ } => "mix",
    }
}

/// Adds a step: its name and its operands.
fn add_step(bytes: &mut Vec<u8>, alloc: Global, step: &Step) -> Result<(), AllocError>
    ensures { OnOk result (bytes.new.items ≡ bytes.old.items ++ step_text (Some step.now)) }
{
    bytes.push(b'[')?;
    add_name(bytes, step_name(step))?;
    add_operands(bytes, alloc, step)?;
    bytes.push(b']')?;
    Ok(())
}

/// Adds the steps of a derivation, as an array.
fn add_steps(bytes: &mut Vec<u8>, alloc: Global, derivation: &Derivation) -> Result<(), AllocError>
    ensures { OnOk result (bytes.new.items ≡ bytes.old.items ++ steps_text derivation.now.steps) }
{
    let steps = derivation.steps.as_slice();
    bytes.push(b'[')?;
    for number in 0..steps.len() {
        add_comma(bytes, number)?;
        add_step(bytes, alloc, &steps[number])?;
    }
    bytes.push(b']')?;
    Ok(())
}

/// Adds the nodes of an open net and the steps that build it, as two members.
pub fn add_certificate(
    bytes: &mut Vec<u8>,
    alloc: Global,
    shape: &OpenNet,
    derivation: &Derivation,
) -> Result<(), AllocError>
    ensures { OnOk result (bytes.new.items ≡ bytes.old.items ++ certificate_text (Some shape.now) (Some derivation.now)) }
{
    add_key(bytes, "nodes")?;
    add_nodes(bytes, alloc, shape)?;
    bytes.push(b',')?;
    add_key(bytes, "steps")?;
    add_steps(bytes, alloc, derivation)
}
