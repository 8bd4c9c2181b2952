//! Accepted programs: the rule of each pair, open nets, steps that are verified, words of the command line.
ghost use Rattle.std.specs.Prelude.{◌<◌, ◌^◌, length};

use crate::sheet::Sheet;
use crate::words::{small, word};
use in_arena::CellCounts;
use in_check::{Checked, Item};
use in_command_line::{Action, Request, Usage, action_of};
use in_cover::RuleNo;
use in_open_nets::OpenPoint;
use in_simple::{Derivation, Node, OpenNet, Step, verify};
use in_syntax::SymbolNo;
use sqlite_items::Items;
use std::alloc::{AllocError, Global};

/// Adds the number of the rule of two symbols, if they are declared and match.
fn add_rule_of(sheet: &mut Sheet, program: &Checked, one: SymbolNo, other: SymbolNo) {
    let symbols = program.symbols();
    if one.0 >= symbols.symbols() || other.0 >= symbols.symbols() {
        return;
    }
    if symbols.matching(one, other) {
        let rule = program.rule_of(one, other);
        sheet.fill(
            "rule of # #: #\n",
            &[one.0 as u64, other.0 as u64, rule.0 as u64],
        );
    }
}

fn add_kind(sheet: &mut Sheet, node: Node) {
    match node {
        Node::AgentNode(symbol) => sheet.fill("node #", &[symbol.0 as u64]),
        Node::ClassNode(symbol, class) => {
            sheet.fill("node # class #", &[symbol.0 as u64, class as u64])
        }
    }
}

fn add_node(sheet: &mut Sheet, shape: &OpenNet, number: u32)
    requires { number < length shape.now.nodes }
{
    add_kind(sheet, shape.node(number));
    sheet.add_place(shape.node_place(number));
    sheet.say("\n");
}

fn add_point(sheet: &mut Sheet, point: OpenPoint) {
    match point {
        OpenPoint::Port(node, place) => sheet.fill(" #.#", &[node as u64, place as u64]),
        OpenPoint::Free(number) => sheet.fill(" free#", &[number as u64]),
    }
}

/// Adds an open net: its nodes and its wires; and whether its steps build it.
fn add_shape(sheet: &mut Sheet, shape: &OpenNet, steps: &Derivation) {
    for number in 0..shape.nodes() {
        add_node(sheet, shape, number);
    }
    for number in 0..shape.wires() {
        let (one, other) = shape.wire(number);
        sheet.say("wire");
        add_point(sheet, one);
        add_point(sheet, other);
        sheet.say("\n");
    }
    let answer = verify(sheet.alloc, steps, shape);
    add_answer(sheet, answer);
}

/// Adds the result of `verify`.
fn add_answer(sheet: &mut Sheet, answer: Result<bool, AllocError>) {
    match answer {
        Ok(true) => sheet.say("built\n"),
        Ok(false) => sheet.say("not built\n"),
        Err(_) => sheet.fail(),
    }
}

/// Adds the parts of a program: its counts, the rule of each pair, and the open nets of its rules and of its net.
pub fn add_program(sheet: &mut Sheet, program: &Checked) {
    sheet.show(&program.counts());
    sheet.say("\n");
    for one in 0..program.symbols().symbols() {
        for other in 0..program.symbols().symbols() {
            add_rule_of(sheet, program, SymbolNo(one), SymbolNo(other));
        }
    }
    for number in 0..program.rules() {
        let (one, other) = program.rule(RuleNo(number)).written();
        sheet.fill("rule # #\n", &[one.0 as u64, other.0 as u64]);
        let item = Item::RuleItem(RuleNo(number));
        add_shape(sheet, program.shape(item), program.certificate(item));
    }
    sheet.fill("net of # agents\n", &[program.net().agents() as u64]);
    add_shape(
        sheet,
        program.shape(Item::NetItem),
        program.certificate(Item::NetItem),
    );
}

/// A graft with the classes that follow.
fn graft_at(alloc: Global, words: &[String], at: usize, node: u32) -> Result<Step, AllocError> {
    let mut classes = Items::new(alloc);
    for place in at.saturating_add(2)..words.len() {
        match word(words, place).parse::<u32>() {
            Ok(class) => classes.push(class)?,
            Err(_) => break,
        }
    }
    Ok(Step::Graft { node, classes })
}

/// The step that begins at a word, as `cut 0 1 2`; the classes of a graft are the words up to the next step.
fn step_at(alloc: Global, words: &[String], at: usize) -> Result<Step, AllocError> {
    let one = small(words, at.saturating_add(1));
    let two = small(words, at.saturating_add(2));
    let three = small(words, at.saturating_add(3));
    match word(words, at) {
        "link" => Ok(Step::Link { wire: one }),
        "given" => Ok(Step::Given { node: one }),
        "cut" => Ok(Step::Cut {
            wire: one,
            a: two,
            b: three,
        }),
        "mix" => Ok(Step::Mix { a: one, b: two }),
        "graft" => graft_at(alloc, words, at, one),
        _ => Ok(Step::Empty),
    }
}

/// The steps from this word on.
fn steps_from(alloc: Global, words: &[String], from: usize) -> Result<Derivation, AllocError> {
    let mut steps = Items::new(alloc);
    for at in from..words.len() {
        if word(words, at).parse::<u32>().is_err() {
            steps.push(step_at(alloc, words, at)?)?;
        }
    }
    Ok(Derivation { steps })
}

/// Whether the steps in the words build an open net.
fn add_steps(sheet: &mut Sheet, shape: &OpenNet, words: &[String]) {
    match steps_from(sheet.alloc, words, 3) {
        Ok(steps) => {
            let answer = verify(sheet.alloc, &steps, shape);
            add_answer(sheet, answer);
        }
        Err(_) => sheet.fail(),
    }
}

/// Whether the steps in the words build the net, or a rule: `net` or its number, and then the steps.
pub fn add_verified(sheet: &mut Sheet, program: &Checked, words: &[String]) {
    let rule = small(words, 2);
    if word(words, 2) == "net" {
        add_steps(sheet, program.shape(Item::NetItem), words);
    } else if rule < program.rules() {
        let item = Item::RuleItem(RuleNo(rule));
        add_steps(sheet, program.shape(item), words);
    } else {
        sheet.say("no rule\n");
    }
}

/// The numbers of cells: one if each class has as many, and otherwise those of the classes.
fn add_counts(sheet: &mut Sheet, cells: CellCounts) {
    let CellCounts {
        small_cells: small,
        large_cells: large,
        wide_cells: wide,
    } = cells;
    if large == small && wide == small {
        sheet.fill(" #", &[small as u64]);
    } else {
        sheet.fill(" # # #", &[small as u64, large as u64, wide as u64]);
    }
}

/// An action, with the limits of a run.
fn add_named(sheet: &mut Sheet, action: &Action) {
    let (name, limits) = match action {
        Action::Check => return sheet.say("check"),
        Action::Derive => return sheet.say("derive"),
        Action::Run(limits) => ("run # #", limits),
        Action::Count(limits) => ("count # #", limits),
    };
    sheet.fill(name, &[limits.workers() as u64, limits.limit()]);
    add_counts(sheet, limits.cells());
}

/// Adds the request of words to `inet`: the action, the file, whether figures are wanted, and whether the text has the large limits.
fn add_asked(sheet: &mut Sheet, request: &Request) {
    add_named(sheet, &request.action);
    if let Some(file) = request.file {
        sheet.say(" on ");
        sheet.say(file);
    }
    if request.stats {
        sheet.say(" with figures");
    }
    if request.large {
        sheet.say(" large");
    }
    sheet.say("\n");
}

/// Adds the reason why words of a command line make no request.
fn add_usage(sheet: &mut Sheet, usage: &Usage) {
    match usage {
        Usage::Help(_) => sheet.say("help: "),
        Usage::Wrong(_) => sheet.say("wrong: "),
        Usage::Version => {}
        Usage::Memory => return sheet.fail(),
    }
    sheet.tell(usage);
    sheet.say("\n");
}

fn add_action_of(sheet: &mut Sheet, words: &[&str]) {
    match action_of(sheet.alloc, words) {
        Ok(request) => add_asked(sheet, &request),
        Err(usage) => add_usage(sheet, &usage),
    }
}

/// Adds the request to `inet` of the words after the second one.
pub fn add_action(sheet: &mut Sheet, words: &[String]) {
    match words
        .iter()
        .map(|word| word.as_str())
        .collect::<Vec<&str>>(sheet.alloc)
    {
        Ok(words) => add_action_of(sheet, words.get(2..).unwrap_or(&[])),
        Err(_) => sheet.fail(),
    }
}
