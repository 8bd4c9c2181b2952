//! The slow reducer: the pair that has waited longest first, the newest one, or one that a seed picks.
ghost use Rattle.std.specs.Prelude.{◌≡◌, IfOk, IfSome};
ghost use Rattle.in_net.specs.ActivePairs.{IsActivePair};

use crate::nets::{add_net, add_pairs};
use crate::queueing::{Pair, first_pairs, waiting_after};
use crate::sheet::Sheet;
use crate::words::{small, word};
use in_check::{Checked, Plain};
use in_interaction::MOST_AGENTS;
use std::alloc::{AllocError, Global};

/// The choice of the next pair.
#[derive(Clone, Copy)]
enum Order {
    FirstInFirstOut,
    NewestFirst,
    Seeded(u32),
}

/// A number below the bound that a seed picks in this turn. No product or sum reaches 64 bits.
fn picked(seed: u32, turn: u32, bound: usize) -> usize {
    let turned = turn as u64 * 69_621;
    let mixed = (seed as u64 * 48_271 + turned) % 2_147_483_647;
    mixed as usize % bound.max(1)
}

/// The next pair of those that wait, if there is one.
fn next_of(waiting: &[Pair], order: Order, turn: u32) -> Option<Pair> {
    let next = match order {
        Order::FirstInFirstOut => waiting.first()?,
        Order::NewestFirst => waiting.last()?,
        Order::Seeded(seed) => waiting.get(picked(seed, turn, waiting.len()))?,
    };
    Some(*next)
}

/// The place of the pair, or the place past the last one if it isn't there.
fn place_of(active: &[Pair], wanted: Option<Pair>) -> usize {
    for place in 0..active.len() {
        if Some(active[place]) == wanted {
            return place;
        }
    }
    active.len()
}

/// The next of the pairs that wait, if there is one. It is an active pair of the net.
fn next_pair(
    alloc: Global,
    checked: &Checked,
    plain: &Plain,
    waiting: &[Pair],
    order: Order,
    turn: u32,
) -> Result<Option<Pair>, AllocError>
    requires { plain.now.program ≡ checked.now.program }
    ensures { IfOk result (λ found. IfSome found (λ q. IsActivePair checked.now.program.tables plain.now.net q)) }
{
    let pairs = plain.net().active_pairs(alloc, checked.symbols())?;
    let at = place_of(pairs.as_slice(), next_of(waiting, order, turn));
    match pairs.get(at) {
        Some(pair) => Ok(Some(*pair)),
        None => Ok(None),
    }
}

/// Does one interaction at the next pair. Returns whether there was one. The pairs that wait are then those of the net after it.
fn step(
    alloc: Global,
    checked: &Checked,
    plain: &mut Plain,
    waiting: &mut Vec<Pair>,
    order: Order,
    turn: u32,
) -> Result<bool, AllocError>
    requires { plain.old.program ≡ checked.now.program }
    ensures { plain.new.program ≡ checked.now.program }
{
    let Some((a, b)) = next_pair(alloc, checked, plain, waiting.as_slice(), order, turn)? else {
        return Ok(false);
    };
    let Some(symbol) = plain.net().symbol(a) else {
        return Ok(false);
    };
    if !checked.symbols().is_constructor(symbol) || plain.net().agents() > MOST_AGENTS {
        return Ok(false);
    }
    *waiting = waiting_after(alloc, checked, plain, waiting.as_slice(), (a, b))?;
    plain.step(alloc, a, b)?;
    Ok(true)
}

/// Does at most `turns` turns. Returns their number.
fn turned(
    alloc: Global,
    checked: &Checked,
    plain: &mut Plain,
    waiting: &mut Vec<Pair>,
    order: Order,
    turns: u32,
) -> Result<u32, AllocError>
    requires { plain.old.program ≡ checked.now.program }
    ensures { plain.new.program ≡ checked.now.program }
{
    for steps in 0..turns {
        if !step(alloc, checked, plain, waiting, order, steps)? {
            return Ok(steps);
        }
    }
    Ok(turns)
}

/// The order that the words request: `oldest`, `newest`, or a seed.
fn order_in(words: &[String]) -> Order {
    match word(words, 2) {
        "oldest" => Order::FirstInFirstOut,
        "newest" => Order::NewestFirst,
        _ => Order::Seeded(small(words, 2)),
    }
}

/// Adds the end of a run: the number of interactions, the number of agents of the program's net, the net that was reached, and its active pairs.
fn add_reached(sheet: &mut Sheet, checked: &Checked, plain: &Plain, waiting: &[Pair], turns: u32)
    requires { plain.now.program ≡ checked.now.program }
{
    let numbers = [turns as u64, checked.net().agents() as u64];
    sheet.fill("# interactions from # agents\n", &numbers);
    add_net(sheet, checked.symbols(), plain.net());
    add_pairs(sheet, "waiting", waiting);
}

/// Reduces a program's net for as many turns as the words say.
fn add_turned(
    sheet: &mut Sheet,
    checked: &Checked,
    plain: &mut Plain,
    words: &[String],
) -> Result<(), AllocError>
    requires { plain.old.program ≡ checked.now.program }
{
    let alloc = sheet.alloc;
    let mut waiting = first_pairs(alloc, checked, plain)?;
    let turns = turned(
        alloc,
        checked,
        plain,
        &mut waiting,
        order_in(words),
        small(words, 3),
    )?;
    add_reached(sheet, checked, plain, waiting.as_slice(), turns);
    Ok(())
}

/// Reduces a program's net by `Plain`, in the order and for as many turns as the words say.
pub fn add_plain(sheet: &mut Sheet, checked: &Checked, words: &[String]) {
    match Plain::new(sheet.alloc, checked) {
        Ok(mut plain) => {
            if add_turned(sheet, checked, &mut plain, words).is_err() {
                sheet.fail();
            }
        }
        Err(_) => sheet.fail(),
    }
}
