//! A directed circle in an open net: each agent has an output that the next one takes, so a value is needed to compute itself.
use crate::circles::{Field, MOST_PORTS, Port};
use in_diagnosis_words::port;
use in_open_nets::{Node, OpenNet};
use in_syntax::{Source, SourceSymbol};
use std::alloc::{AllocError, Global};

/// A wire from the port that gives a value to the one that takes it.
#[derive(Clone, Copy)]
pub(crate) struct Flow {
    pub(crate) output: Port,
    pub(crate) input: Port,
}

/// The symbol of a node, if the node is an agent.
pub(crate) fn agent_symbol<'a>(
    source: &'a Source,
    open: &OpenNet,
    node: u32,
) -> Option<&'a SourceSymbol> {
    if node >= open.nodes() {
        return None;
    }
    match open.node(node) {
        Node::AgentNode(symbol) => source.symbols.get(symbol.0 as usize),
        Node::ClassNode(..) => None,
    }
}

impl Field<'_> {
    /// Whether a port is an output, and its class; `None` if it is no port of an agent of the part.
    fn sign(&self, at: Port) -> Option<(bool, usize)> {
        let (node, place) = at;
        if !matches!(self.part.get(node as usize), Some(true)) {
            return None;
        }
        let symbol = agent_symbol(self.source, self.open, node)?;
        let (class, declared) = port(symbol, place as usize)?;
        Some((declared.output, class))
    }

    /// Whether an agent gives a value at this port.
    fn gives(&self, at: Port) -> bool {
        matches!(self.sign(at), Some((true, _)))
    }

    /// Whether an agent takes a value at this port, and has no output in the same class.
    fn takes(&self, at: Port) -> bool {
        let Some((false, class)) = self.sign(at) else {
            return false;
        };
        let (node, _) = at;
        for place in 0..MOST_PORTS as u8 {
            if self.sign((node, place)) == Some((true, class)) {
                return false;
            }
        }
        true
    }

    /// The output of the part that an input is connected to.
    fn giver(&self, input: Port) -> Option<Port> {
        let output = self.wires.end(input)?;
        if self.takes(input) && self.gives(output) {
            Some(output)
        } else {
            None
        }
    }

    /// The input of the part that an output is connected to.
    fn taker(&self, output: Port) -> Option<Port> {
        let input = self.wires.end(output)?;
        if self.takes(input) && self.gives(output) {
            Some(input)
        } else {
            None
        }
    }

    /// The number of ports of a node that take outputs of agents of the part.
    fn taken(&self, node: u32) -> usize {
        let mut count: usize = 0;
        for place in 0..MOST_PORTS as u8 {
            if self.giver((node, place)).is_some() {
                count = count.saturating_add(1);
            }
        }
        count
    }

    /// Removes a node: each node that takes one of its outputs then takes one output less.
    fn take_out(
        &self,
        node: u32,
        taken: &mut [usize],
        ready: &mut Vec<u32>,
    ) -> Result<(), AllocError> {
        for place in 0..MOST_PORTS as u8 {
            if let Some((next, _)) = self.taker((node, place)) {
                if let Some(count) = taken.get_mut(next as usize) {
                    *count = count.saturating_sub(1);
                    if *count == 0 {
                        ready.push(next)?;
                    }
                }
            }
        }
        Ok(())
    }

    /// Counts the ports of each node that take outputs of agents, and lists the nodes without any.
    fn count_taken(&self, taken: &mut [usize], ready: &mut Vec<u32>) -> Result<(), AllocError> {
        for node in 0..self.open.nodes() {
            let count = self.taken(node);
            if let Some(found) = taken.get_mut(node as usize) {
                *found = count;
            }
            if count == 0 {
                ready.push(node)?;
            }
        }
        Ok(())
    }

    /// Removes nodes that take no output of the part, again and again. Each remaining node takes an output of a remaining one.
    fn take_out_all(&self, taken: &mut [usize], ready: &mut Vec<u32>) -> Result<(), AllocError> {
        self.count_taken(taken, ready)?;
        for index in 0..self.open.nodes() as usize {
            match ready.get(index).copied() {
                Some(node) => self.take_out(node, taken, ready)?,
                None => break,
            }
        }
        Ok(())
    }

    /// A wire by which a node takes an output of a remaining node.
    fn flow_to(&self, node: u32, taken: &[usize]) -> Option<Flow> {
        for place in 0..MOST_PORTS as u8 {
            if let Some(output) = self.giver((node, place)) {
                let (from, _) = output;
                if is_left(taken, from) {
                    return Some(Flow {
                        output,
                        input: (node, place),
                    });
                }
            }
        }
        None
    }

    /// Goes back from a remaining node, against the wires, until a node comes again, and returns that node.
    fn go_back(
        &self,
        first: u32,
        taken: &[usize],
        met: &mut [bool],
        way: &mut Vec<Flow>,
    ) -> Result<u32, AllocError> {
        let mut node = first;
        for _step in 0..self.open.nodes() {
            if matches!(met.get(node as usize), Some(true)) {
                break;
            }
            mark(met, node);
            match self.flow_to(node, taken) {
                Some(flow) => {
                    way.push(flow)?;
                    (node, _) = flow.output;
                }
                None => break,
            }
        }
        Ok(node)
    }

    /// The circle that is found by going back from a remaining node, in the direction of the values.
    fn circle_before(
        &self,
        alloc: Global,
        first: u32,
        taken: &[usize],
    ) -> Result<Vec<Flow>, AllocError> {
        let mut met = vec![in alloc; false; taken.len()]?;
        let mut way = Vec::new(alloc);
        let last = self.go_back(first, taken, &mut met, &mut way)?;
        circle_in(alloc, way.as_slice(), last)
    }

    /// A directed circle of agents, in the direction of the values. Each agent takes an output of the one before it, by a port whose class has no
    /// output. If there is no such circle, the list is empty.
    pub(crate) fn directed_circle(&self, alloc: Global) -> Result<Vec<Flow>, AllocError> {
        let mut taken = vec![in alloc; 0; self.open.nodes() as usize]?;
        let mut ready = Vec::new(alloc);
        self.take_out_all(&mut taken, &mut ready)?;
        match first_left(&taken, self.open.nodes()) {
            Some(first) => self.circle_before(alloc, first, &taken),
            None => Ok(Vec::new(alloc)),
        }
    }
}

/// Whether a node remains.
fn is_left(taken: &[usize], node: u32) -> bool {
    match taken.get(node as usize) {
        Some(count) => *count > 0,
        None => false,
    }
}

/// The first remaining node of the first `nodes` ones.
fn first_left(taken: &[usize], nodes: u32) -> Option<u32> {
    for node in 0..nodes {
        if is_left(taken, node) {
            return Some(node);
        }
    }
    None
}

fn mark(met: &mut [bool], node: u32) {
    if let Some(found) = met.get_mut(node as usize) {
        *found = true;
    }
}

/// The circle at the end of a way against the wires: from the last node back to it, turned round.
fn circle_in(alloc: Global, way: &[Flow], last: u32) -> Result<Vec<Flow>, AllocError> {
    let mut circle = Vec::new(alloc);
    for flow in way.iter().rev() {
        circle.push(*flow)?;
        let (node, _) = flow.input;
        if node == last {
            break;
        }
    }
    Ok(circle)
}
