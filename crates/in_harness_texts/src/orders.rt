//! The order in which the nodes of an open net are taken out, by each of the two ways to it: found node by node, and guessed and checked.
use crate::sheet::Sheet;
use in_node_orders::is_order;
use in_open_nets::Wired;
use in_order_search::likely_order;
use in_simple::{OpenNet, Undone, derive};
use in_simple_deriving::found_order;
use sqlite_items::Items;
use std::alloc::{AllocError, Global};

/// The order as it was found and as it was guessed, and whether the check says yes to each.
#[derive(Drop)]
struct Orders {
    found: Items<u32>,
    guessed: Items<u32>,
    takes_found: bool,
    takes_guessed: bool,
}

fn orders_of(alloc: Global, open: &OpenNet) -> Result<Orders, AllocError> {
    let wired = Wired::of(alloc, open)?;
    let found = found_order(alloc, &wired)?;
    let guessed = likely_order(alloc, &wired)?;
    let takes_found = is_order(alloc, &wired, &found)?;
    let takes_guessed = is_order(alloc, &wired, &guessed)?;
    Ok(Orders {
        found,
        guessed,
        takes_found,
        takes_guessed,
    })
}

fn add_nodes(sheet: &mut Sheet, what: &str, nodes: &[u32]) {
    sheet.say(what);
    for node in nodes {
        sheet.fill(" #", &[*node as u64]);
    }
    sheet.say("\n");
}

/// Adds whether the guess is the order that was found, and whether the check says yes to both; two orders that differ are written.
fn add_compared(sheet: &mut Sheet, orders: &Orders) {
    let is_same = orders.found.as_slice() == orders.guessed.as_slice();
    sheet.say(if is_same { "same" } else { "differs" });
    let takes_both = orders.takes_found && orders.takes_guessed;
    sheet.say(if takes_both { ", yes\n" } else { ", no\n" });
    if !is_same {
        add_nodes(sheet, "found", orders.found.as_slice());
        add_nodes(sheet, "guessed", orders.guessed.as_slice());
    }
}

/// Adds how deriving ends: with steps, or at the first stuck nodes.
fn add_end(sheet: &mut Sheet, open: &OpenNet) {
    match derive(sheet.alloc, open) {
        Ok(_) => sheet.say("derived: "),
        Err(Undone::Stuck(stuck)) => {
            let first = stuck.nodes.as_slice().first().copied().unwrap_or(0);
            sheet.fill("stuck at #: ", &[first as u64]);
        }
        Err(Undone::Memory(_)) => sheet.fail(),
    }
}

/// Adds the numbers of nodes and of those that are taken out, how deriving ends, and whether the two orders are the same and pass the check.
pub fn add_orders(sheet: &mut Sheet, open: &OpenNet) {
    match orders_of(sheet.alloc, open) {
        Ok(orders) => {
            let counts = [open.nodes() as u64, orders.found.len() as u64];
            sheet.fill("# nodes, # taken out, ", &counts);
            add_end(sheet, open);
            add_compared(sheet, &orders);
            drop(orders);
        }
        Err(_) => sheet.fail(),
    }
}
