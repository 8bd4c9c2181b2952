//! The answers of the program `in_harness` on a text and on an accepted program, without machines, and the `Sheet` that it prints. It is its
//! own crate so that it is proved beside the machines and the runs.
#![tactic(auto)]

mod calls;
mod nets;
mod only;
mod opening;
mod orders;
mod programs;
mod queueing;
mod reducing;
mod sheet;
mod stocks;
mod templates;
mod texts;
mod words;

use crate::nets::{Read, add_read};
use crate::programs::{add_action, add_program, add_verified};
use crate::reducing::add_plain;
use crate::stocks::add_stock;
use crate::templates::add_templates;
use crate::texts::{Shown, add_count, add_tokens, add_tree};
pub use calls::{Came, add_call, add_calls, are_free, came_of, fresh};
use in_check::Checked;
pub use only::answer;
pub use sheet::Sheet;
pub use words::{number, small, word};

/// Adds the answer to a question about an accepted program.
fn add_of_program(sheet: &mut Sheet, program: &Checked, words: &[String]) {
    match word(words, 1) {
        "program" => add_program(sheet, program),
        "templates" => add_templates(sheet, program),
        "verify" => add_verified(sheet, program, words),
        "plain" => add_plain(sheet, program, words),
        "stock" => add_stock(sheet, program, words),
        _ => sheet.say("no such word\n"),
    }
}

/// The same of a text.
fn add_checked(sheet: &mut Sheet, words: &[String], text: &[u8]) {
    match answer(sheet.alloc, text) {
        Ok(program) => {
            add_of_program(sheet, &program, words);
            drop(program);
        }
        Err(fault) => sheet.add_fault(&fault),
    }
}

/// Answers the words on a text.
pub fn add_answer(sheet: &mut Sheet, words: &[String], text: &[u8]) {
    match word(words, 1) {
        "tokens" => add_tokens(sheet, text),
        "count" => add_count(sheet, text),
        "tree" => add_tree(sheet, text, Shown::Tree),
        "sizes" => add_tree(sheet, text, Shown::Sizes),
        "tables" => add_read(sheet, text, Read::Tables),
        "nets" => add_read(sheet, text, Read::Nets),
        "open" => add_read(sheet, text, Read::OpenNets),
        "orders" => add_read(sheet, text, Read::Orders),
        "action" => add_action(sheet, words),
        _ => add_checked(sheet, words, text),
    }
}
