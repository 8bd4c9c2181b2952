//! Rules and nets that no steps build: a directed circle of agents, or otherwise the first part that no node splits, and a circle in it.
use crate::circles::{Circle, Field, Port, Wires};
use crate::directed::{Flow, agent_symbol};
use crate::remedies::{MOST_TRIED, Refused, Remedy, add_help, add_help_for_value, add_remedy};
use crate::sentences;
use in_check::StuckPart;
use in_diagnosis_words::{
    Kind, Report, Value, Words, add_braces, changed_braces, port_of, say_node_at,
};
use in_open_nets::{Node, OpenNet};
use in_syntax::{Place, Source, SourceSymbol};
use std::alloc::{AllocError, Global};

/// A list with at most this many nodes is written whole.
const MOST_TOLD: usize = 6;

/// The number of the first nodes of a longer list that are written. Its last one is written too.
const FIRST_TOLD: usize = 4;

/// On a circle of at most this many nodes the line of the text is shown for each.
const MOST_SHOWN: usize = 3;

/// Whether the message names the node of this index in a list of `count`.
fn is_told(index: usize, count: usize) -> bool {
    count <= MOST_TOLD || index < FIRST_TOLD || index == count - 1
}

/// The number of nodes of a list of `count` that the message leaves out.
fn left_out(count: usize) -> usize {
    if count <= MOST_TOLD {
        0
    } else {
        count - FIRST_TOLD - 1
    }
}

/// The symbol of a node, and the class if it is a class node.
fn symbol_of<'a>(
    source: &'a Source,
    open: &OpenNet,
    node: u32,
) -> Option<(&'a SourceSymbol, Option<usize>)> {
    if node >= open.nodes() {
        return None;
    }
    match open.node(node) {
        Node::AgentNode(symbol) => Some((source.symbols.get(symbol.0 as usize)?, None)),
        Node::ClassNode(symbol, class) => {
            Some((source.symbols.get(symbol.0 as usize)?, Some(class as usize)))
        }
    }
}

/// The place of a node in the text.
fn place_of(open: &OpenNet, node: u32) -> Option<Place> {
    if node < open.nodes() {
        Some(open.node_place(node))
    } else {
        None
    }
}

/// A node in words, with its place.
fn say_node(words: &mut Words, source: &Source, open: &OpenNet, node: u32) {
    if let (Some((symbol, class)), Some(place)) = (
        symbol_of(source, open, node),
        place_of(open, node),
    ) {
        say_node_at(words, symbol, class, place);
    }
}

/// The separator before the node of this index in a list of `count`.
fn before_node(index: usize, count: usize) -> &'static str {
    if index == 0 {
        ""
    } else if count > MOST_TOLD && index >= FIRST_TOLD {
        ", and "
    } else {
        ", "
    }
}

/// Writes nodes; of many nodes the first ones and the last one, and the number of the others.
fn say_nodes(words: &mut Words, source: &Source, open: &OpenNet, nodes: &[u32]) {
    let count = nodes.len();
    for (index, node) in nodes.iter().enumerate() {
        if is_told(index, count) {
            words.say(before_node(index, count));
            say_node(words, source, open, *node);
        } else if index == FIRST_TOLD {
            let more = Value::Number(left_out(count));
            words.fill(", {count} more", &[("count", more)]);
        }
    }
}

/// Adds a sentence that ends with nodes.
fn note_nodes(report: &mut Report, source: &Source, open: &OpenNet, sentence: &str, nodes: &[u32]) {
    let mut words = Words::new(report.alloc);
    words.say(sentence);
    say_nodes(&mut words, source, open, nodes);
    report.add(Kind::Note, None, words);
}

/// Adds the ports between which a circle through a node of this symbol leads.
fn add_ports(report: &mut Report, symbol: &SourceSymbol, class: Option<usize>, circle: &Circle) {
    let slots = [
        ("first", port_of(symbol, class, circle.first)),
        ("second", port_of(symbol, class, circle.second)),
    ];
    let mut words = Words::new(report.alloc);
    words.fill(sentences::CIRCLE, &slots);
    report.add(Kind::Note, None, words);
}

/// Adds the place of a node in the text.
fn add_place(report: &mut Report, open: &OpenNet, node: u32) {
    if let Some(place) = place_of(open, node) {
        report.note(place, sentences::THROUGH_THIS);
    }
}

/// Adds the lines of the text with the nodes of a circle.
fn add_places(report: &mut Report, open: &OpenNet, way: &[u32]) {
    for node in way {
        add_place(report, open, *node);
    }
}

/// Adds the nodes of a circle; if they are few, with the lines of the text around them.
fn add_way(report: &mut Report, field: Field, way: &[u32]) {
    if way.len() <= MOST_SHOWN {
        add_places(report, field.open, way);
    } else {
        note_nodes(report, field.source, field.open, sentences::ON_ITS_WAY, way);
    }
}

/// Notes that the symbol at this byte is shown.
fn add_shown(shown: &mut Vec<u32>, at: u32) -> Result<(), AllocError> {
    shown.push(at)?;
    Ok(())
}

/// Shows the symbol of a node that is passed by these ports, unless it was shown.
fn add_passed_by(
    report: &mut Report,
    symbol: &SourceSymbol,
    class: Option<usize>,
    ports: (u8, u8),
    shown: &mut Vec<u32>,
) {
    let at = symbol.name.place.from;
    if !shown.as_slice().contains(&at) {
        report.keep(add_shown(shown, at));
        add_braces(report, symbol, class, ports);
    }
}

/// The same for a node on a way from one node to another.
fn add_passed(report: &mut Report, field: Field, way: (u32, u32, u32), shown: &mut Vec<u32>) {
    let (from, node, to) = way;
    if let (Some(ports), Some((symbol, class))) = (
        field.passed(from, node, to),
        symbol_of(field.source, field.open, node),
    ) {
        add_passed_by(report, symbol, class, ports, shown);
    }
}

/// The same for the nodes of a circle that the message names, each symbol once.
fn add_braces_on_the_way(
    report: &mut Report,
    field: Field,
    node: u32,
    way: &[u32],
    shown: &mut Vec<u32>,
) {
    let mut from = node;
    for (index, next) in way.iter().enumerate() {
        if is_told(index, way.len()) {
            let to = way.get(index + 1).copied().unwrap_or(node);
            add_passed(report, field, (from, *next, to), shown);
        }
        from = *next;
    }
}

/// Adds the symbols on the way of a circle from a node of this symbol, which is shown already.
fn add_reasons(
    report: &mut Report,
    field: Field,
    node: u32,
    symbol: &SourceSymbol,
    circle: &Circle,
) {
    let mut shown = Vec::new(report.alloc);
    report.keep(add_shown(&mut shown, symbol.name.place.from));
    add_braces_on_the_way(report, field, node, circle.way.as_slice(), &mut shown);
}

/// The nodes that are in the part, except one.
fn others(
    alloc: Global,
    open: &OpenNet,
    nodes: &[u32],
    node: u32,
) -> Result<Vec<bool>, AllocError> {
    let mut part = vec![in alloc; false; open.nodes() as usize]?;
    for other in nodes {
        if *other != node {
            if let Some(inside) = part.get_mut(*other as usize) {
                *inside = true;
            }
        }
    }
    Ok(part)
}

/// Adds a remedy to try: other braces for the symbol of a node that is passed by these ports.
fn add_remedy_at<'a>(
    remedies: &mut Vec<Remedy<'a>>,
    source: &'a Source,
    open: &OpenNet,
    node: u32,
    ports: (u8, u8),
) -> Result<(), AllocError> {
    if let Some((symbol, class)) = symbol_of(source, open, node) {
        if let Some(braces) = changed_braces(symbol, class, ports) {
            add_remedy(remedies, Remedy { symbol, braces })?;
        }
    }
    Ok(())
}

/// The remedies to try for a circle through a node: other braces for each node that it passes, while there is room.
fn remedies_for<'a>(
    alloc: Global,
    field: Field<'a>,
    node: u32,
    circle: &Circle,
) -> Result<Vec<Remedy<'a>>, AllocError> {
    let mut remedies = Vec::new(alloc);
    let ports = (circle.first, circle.second);
    add_remedy_at(&mut remedies, field.source, field.open, node, ports)?;
    let mut from = node;
    for (index, next) in circle.way.iter().enumerate() {
        let to = circle.way.get(index + 1).copied().unwrap_or(node);
        if let Some(ports) = field.passed(from, *next, to) {
            add_remedy_at(&mut remedies, field.source, field.open, *next, ports)?;
        }
        if remedies.len() == MOST_TRIED {
            break;
        }
        from = *next;
    }
    Ok(remedies)
}

/// Adds help against a circle through a node.
fn add_help_for(report: &mut Report, field: Field, node: u32, circle: &Circle, refused: Refused) {
    match remedies_for(report.alloc, field, node, circle) {
        Ok(remedies) => add_help(report, remedies.as_slice(), refused),
        Err(error) => report.fail(error),
    }
}

/// Adds a circle through a node.
fn add_found(report: &mut Report, field: Field, node: u32, circle: &Circle, refused: Refused) {
    if let Some((symbol, class)) = symbol_of(field.source, field.open, node) {
        add_ports(report, symbol, class, circle);
        add_way(report, field, circle.way.as_slice());
        add_braces(report, symbol, class, (circle.first, circle.second));
        add_reasons(report, field, node, symbol, circle);
        add_help_for(report, field, node, circle, refused);
    }
}

/// Adds a circle through a node, if there is one.
fn add_circle(report: &mut Report, field: Field, node: u32, refused: Refused) {
    match field.circle(report.alloc, node) {
        Ok(Some(circle)) => add_found(report, field, node, &circle, refused),
        Ok(None) => (),
        Err(error) => report.fail(error),
    }
}

/// Adds a circle through the first node of a part, if a circle leads from it back to it.
fn add_circle_of(
    report: &mut Report,
    source: &Source,
    open: &OpenNet,
    wires: &Wires,
    nodes: &[u32],
    refused: Refused,
) {
    let Some(node) = nodes.first().copied() else {
        return;
    };
    match others(report.alloc, open, nodes, node) {
        Ok(inside) => {
            let part = inside.as_slice();
            let field = Field {
                source,
                open,
                wires,
                part,
            };
            add_circle(report, field, node, refused);
        }
        Err(error) => report.fail(error),
    }
}

/// Adds a part in which no node splits, and a circle through its first node.
fn add_part(
    report: &mut Report,
    source: &Source,
    open: &OpenNet,
    wires: &Wires,
    nodes: &[u32],
    refused: Refused,
) {
    report.wrong_on(refused.place, sentences::NO_STEPS, refused.what);
    note_nodes(report, source, open, sentences::NONE_IS_LAST, nodes);
    add_circle_of(report, source, open, wires, nodes, refused);
}

// ---- a value that is needed to compute itself

/// The symbol of an agent, and the number of its port.
fn port_at<'a>(source: &'a Source, open: &OpenNet, at: Port) -> Option<Value<'a>> {
    let (node, place) = at;
    Some(Value::Port(agent_symbol(source, open, node)?, place as usize))
}

/// Writes that an agent gives a value that another one takes, or that it takes itself.
fn say_flow(words: &mut Words, field: Field, flow: Flow) {
    let ((from, _), (to, _)) = (flow.output, flow.input);
    if let (Some(output), Some(input), Some(place)) = (
        port_at(field.source, field.open, flow.output),
        port_at(field.source, field.open, flow.input),
        place_of(field.open, to),
    ) {
        let slots = [
            ("output", output),
            ("input", input),
            ("place", Value::Spot(place)),
        ];
        let sentence = if from == to {
            sentences::GIVES_ITSELF
        } else {
            sentences::GIVES_NEXT
        };
        words.fill(sentence, &slots);
    }
}

/// Adds that an agent gives a value that another one takes, or that it takes itself, and shows the line of the text at a place.
fn add_flow(report: &mut Report, field: Field, flow: Flow, shown: Option<Place>) {
    let mut words = Words::new(report.alloc);
    say_flow(&mut words, field, flow);
    report.add(Kind::Note, shown, words);
}

/// The place of the agent whose output a flow comes from.
fn giver_place(open: &OpenNet, flow: Flow) -> Option<Place> {
    let (from, _) = flow.output;
    place_of(open, from)
}

/// The same, unless the agent is shown already.
fn giver_place_elsewhere(open: &OpenNet, flow: Flow, shown: Place) -> Option<Place> {
    match giver_place(open, flow) {
        Some(place) if place.from != shown.from => Some(place),
        _ => None,
    }
}

/// The nodes of a circle, in the direction of the values.
fn nodes_of(alloc: Global, circle: &[Flow]) -> Result<Vec<u32>, AllocError> {
    let mut nodes = Vec::new(alloc);
    for flow in circle {
        let (from, _) = flow.output;
        nodes.push(from)?;
    }
    Ok(nodes)
}

/// Adds a circle of many agents.
fn add_long(report: &mut Report, field: Field, circle: &[Flow]) {
    match nodes_of(report.alloc, circle) {
        Ok(nodes) => note_nodes(
            report,
            field.source,
            field.open,
            sentences::GIVE_NEXT,
            nodes.as_slice(),
        ),
        Err(error) => report.fail(error),
    }
}

/// Adds each agent of a circle of a few.
fn add_short(report: &mut Report, field: Field, circle: &[Flow]) {
    for flow in circle {
        add_flow(report, field, *flow, giver_place(field.open, *flow));
    }
}

/// Adds the agents of a circle; a single one that is shown already is not shown again.
fn add_flows(report: &mut Report, field: Field, circle: &[Flow], shown: Place) {
    match circle {
        [flow] => add_flow(
            report,
            field,
            *flow,
            giver_place_elsewhere(field.open, *flow, shown),
        ),
        _ if circle.len() > MOST_SHOWN => add_long(report, field, circle),
        _ => add_short(report, field, circle),
    }
}

/// The remedies to try for a circle: for each agent that takes by an auxiliary port and gives by another one, both ports in one pair of braces.
fn remedies_for_value<'a>(
    alloc: Global,
    field: Field<'a>,
    circle: &[Flow],
) -> Result<Vec<Remedy<'a>>, AllocError> {
    let mut remedies = Vec::new(alloc);
    let mut before = circle.last().copied();
    for flow in circle {
        if let Some(
            Flow {
                input: (node, entered),
                ..
            },
        ) = before
        {
            let (_, left) = flow.output;
            add_remedy_at(
                &mut remedies,
                field.source,
                field.open,
                node,
                (entered, left),
            )?;
        }
        before = Some(*flow);
    }
    Ok(remedies)
}

/// Adds a value that is needed to compute itself.
fn add_value(report: &mut Report, field: Field, circle: &[Flow], refused: Refused) {
    report.wrong_on(refused.place, sentences::NEEDS_ITSELF, refused.what);
    add_flows(report, field, circle, refused.place);
    match remedies_for_value(report.alloc, field, circle) {
        Ok(remedies) => add_help_for_value(report, remedies.as_slice(), refused),
        Err(error) => report.fail(error),
    }
}

/// A directed circle of agents in an open net; without wires if there is none.
fn value_circle(
    alloc: Global,
    source: &Source,
    open: &OpenNet,
    wires: &Wires,
) -> Result<Vec<Flow>, AllocError> {
    let all = vec![in alloc; true; open.nodes() as usize]?;
    let part = all.as_slice();
    let field = Field {
        source,
        open,
        wires,
        part,
    };
    field.directed_circle(alloc)
}

/// Adds a value of an open net that is needed to compute itself, or otherwise the part in which no node splits.
fn add_open(
    report: &mut Report,
    source: &Source,
    open: &OpenNet,
    wires: &Wires,
    nodes: &[u32],
    refused: Refused,
) {
    match value_circle(report.alloc, source, open, wires) {
        Ok(circle) => {
            let field = Field {
                source,
                open,
                wires,
                part: &[],
            };
            if circle.is_empty() {
                add_part(report, source, open, wires, nodes, refused);
            } else {
                add_value(report, field, circle.as_slice(), refused);
            }
        }
        Err(error) => report.fail(error),
    }
}

/// Adds an open net that no steps build, with the part of it in which no node splits.
fn add_stuck_part(report: &mut Report, source: &Source, part: &StuckPart, refused: Refused) {
    let StuckPart { open, stuck } = part;
    match Wires::of(report.alloc, open) {
        Ok(wires) => add_open(
            report,
            source,
            open,
            &wires,
            stuck.nodes.as_slice(),
            refused,
        ),
        Err(error) => report.fail(error),
    }
}

/// Adds a rule or a net that no steps build.
pub(crate) fn add_stuck(
    report: &mut Report,
    source: &Source,
    part: Option<&StuckPart>,
    what: &str,
    place: Place,
) {
    match part {
        Some(part) => {
            let refused = Refused {
                text: report.text(),
                source,
                what,
                place,
            };
            add_stuck_part(report, source, part, refused);
        }
        None => report.wrong_on(place, sentences::NO_STEPS, what),
    }
}
