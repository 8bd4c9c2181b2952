//! Tokens and trees.
use crate::sheet::Sheet;
use in_syntax::{
    Equation, NameUse, Place, Source, SourceClass, SourceFree, SourcePort, SourceRule,
    SourceSymbol, TextLimits, Token, names_of_body, names_of_rule, parse, tokens,
};
use sqlite_items::Items;
use std::alloc::AllocError;

fn add_token(sheet: &mut Sheet, token: &Token) {
    sheet.show(&token.kind);
    sheet.add_place(token.place);
    sheet.say("\n");
}

/// A line for each token: its kind and its place.
pub fn add_tokens(sheet: &mut Sheet, text: &[u8]) {
    match tokens(sheet.alloc, TextLimits::Usual, text) {
        Ok(tokens) => {
            for token in &tokens {
                add_token(sheet, token);
            }
        }
        Err(fault) => sheet.add_fault(&fault),
    }
}

/// Adds the number of tokens.
pub fn add_count(sheet: &mut Sheet, text: &[u8]) {
    match tokens(sheet.alloc, TextLimits::Usual, text) {
        Ok(tokens) => sheet.fill("# tokens\n", &[tokens.len() as u64]),
        Err(fault) => sheet.add_fault(&fault),
    }
}

/// The part of a tree that is written.
#[derive(Clone, Copy)]
pub enum Shown {
    /// The whole tree.
    Tree,
    /// The numbers of types, symbols, rules, free names and equations.
    Sizes,
}

/// The text at a place; empty if it isn't UTF-8.
fn words_at(text: &[u8], place: Place) -> &str {
    match text.get(place.from as usize..place.to as usize) {
        Some(bytes) => str::from_utf8(bytes).unwrap_or(""),
        None => "",
    }
}

fn add_port(sheet: &mut Sheet, port: &SourcePort) {
    sheet.say(" ");
    sheet.say(port.kind.text.as_str());
    sheet.say(if port.output { "+" } else { "-" });
}

fn add_class(sheet: &mut Sheet, class: &SourceClass) {
    sheet.say(" {");
    for port in class.as_slice() {
        add_port(sheet, port);
    }
    sheet.say(" }");
}

fn add_symbol(sheet: &mut Sheet, symbol: &SourceSymbol) {
    sheet.say("symbol ");
    sheet.say(symbol.name.text.as_str());
    sheet.add_place(symbol.name.place);
    sheet.say(" :");
    add_port(sheet, &symbol.port);
    for class in symbol.classes.as_slice() {
        add_class(sheet, class);
    }
    sheet.say("\n");
}

fn add_use(sheet: &mut Sheet, text: &[u8], found: &NameUse) {
    sheet.say(if found.is_head { "head " } else { "name " });
    sheet.say(words_at(text, found.place));
    sheet.add_place(found.place);
    sheet.fill(" of #\n", &[found.arguments as u64]);
}

/// Adds the names of a rule or of the net's equations: with the numbers of their arguments they determine the terms.
fn add_uses(sheet: &mut Sheet, text: &[u8], uses: Result<Items<NameUse>, AllocError>) {
    match uses {
        Ok(uses) => {
            for found in uses.as_slice() {
                add_use(sheet, text, found);
            }
        }
        Err(_) => sheet.fail(),
    }
}

/// Adds the places of the `~` of these equations.
fn add_signs(sheet: &mut Sheet, equations: &[Equation]) {
    for equation in equations {
        sheet.say("sign");
        sheet.add_place(equation.tilde);
        sheet.say("\n");
    }
}

fn add_rule(sheet: &mut Sheet, text: &[u8], rule: &SourceRule) {
    sheet.say("rule\n");
    let uses = names_of_rule(sheet.alloc, rule);
    add_uses(sheet, text, uses);
    add_signs(sheet, rule.equations.as_slice());
}

fn add_free(sheet: &mut Sheet, free: &SourceFree) {
    sheet.say("free ");
    sheet.say(free.name.text.as_str());
    sheet.add_place(free.name.place);
    sheet.say(" :");
    add_port(sheet, &free.port);
    sheet.say("\n");
}

fn add_declared(sheet: &mut Sheet, source: &Source) {
    for name in source.types.as_slice() {
        sheet.say("type ");
        sheet.say(name.text.as_str());
        sheet.add_place(name.place);
        sheet.say("\n");
    }
    for symbol in source.symbols.as_slice() {
        add_symbol(sheet, symbol);
    }
}

fn add_source(sheet: &mut Sheet, text: &[u8], source: &Source) {
    add_declared(sheet, source);
    for rule in source.rules.as_slice() {
        add_rule(sheet, text, rule);
    }
    sheet.say("net\n");
    for free in source.net.free.as_slice() {
        add_free(sheet, free);
    }
    let uses = names_of_body(sheet.alloc, &source.net);
    add_uses(sheet, text, uses);
    add_signs(sheet, source.net.equations.as_slice());
}

fn add_sizes(sheet: &mut Sheet, source: &Source) {
    let sizes = [
        source.types.len() as u64,
        source.symbols.len() as u64,
        source.rules.len() as u64,
        source.net.free.len() as u64,
        source.net.equations.len() as u64,
    ];
    sheet.fill(
        "# types, # symbols, # rules, # free names, # equations\n",
        &sizes,
    );
}

/// Adds that part of a text's tree, or the reason why the text is refused.
pub fn add_tree(sheet: &mut Sheet, text: &[u8], shown: Shown) {
    match parse(sheet.alloc, TextLimits::Usual, text) {
        Ok(source) => {
            match shown {
                Shown::Tree => add_source(sheet, text, &source),
                Shown::Sizes => add_sizes(sheet, &source),
            }
            drop(source);
        }
        Err(fault) => sheet.add_fault(&fault),
    }
}
