//! Stocks of an arena's cells, and a template placed from them: into a member's room, and as values, twice in one room.
ghost use Rattle.std.specs.Prelude.{◌≡◌, ◌≤◌, ℕ, length, Some, IfSome, slice_get};
ghost use Rattle.in_arena.specs.declared.content.CellNo.{CellNo as Number};
ghost use Rattle.in_arena.specs.Arenas.{NoneLeased, state_at};
ghost use Rattle.in_arena.specs.Bags.{AreOfOne, empty_bag};
ghost use Rattle.in_arena.specs.States.{IsLive};
ghost use Rattle.in_compile.specs.Placing.{HasNoCell};
ghost use Rattle.in_compile.specs.Templates.{AreTemplatesOf};

use crate::calls::{are_free, fresh};
use crate::sheet::Sheet;
use crate::templates::{add_joint, add_need, template_of};
use crate::words::small;
use in_arena::{Arena, CellClass};
use in_base::use_promise;
use in_check::Checked;
use in_compile::{
    Member, Need, Placed, PlacedTemplate, Stock, Template, Templates, compile, place, place_into,
};
use in_syntax::SymbolNo;
use std::mem::size_of;

/// The free cells while a stock of the cells of `need` is held, and after it is spent.
fn add_filled(sheet: &mut Sheet, arena: &mut Arena, need: Need)
    ensures { arena.new ≡ arena.old }
{
    if !are_free(arena, need) {
        return;
    }
    use_promise!(arena.cells());
    let Ok(stock) = Stock::fill(sheet.alloc, arena, need) else {
        return sheet.fail();
    };
    add_need(sheet, Need::free_in(arena));
    stock.spend(arena);
    add_need(sheet, Need::free_in(arena));
}

/// Whether an empty stock with room for the cells of `need` holds that many before they are added, and after.
fn add_added(sheet: &mut Sheet, arena: &mut Arena, need: Need)
    ensures { arena.new ≡ arena.old }
{
    if !are_free(arena, need) {
        return;
    }
    use_promise!(arena.cells());
    let Ok(mut stock) = Stock::empty(sheet.alloc, arena, need) else {
        return sheet.fail();
    };
    sheet.show(&stock.holds(need));
    stock.add(arena, need);
    sheet.say(" ");
    sheet.show(&stock.holds(need));
    sheet.say("\n");
    stock.spend(arena);
}

/// Whether it holds a cell of some class.
fn holds_any(stock: &Stock) -> bool {
    for class in CellClass::ALL {
        if stock.holds(Need::by_class(|other| u32::from(other == class))) {
            return true;
        }
    }
    false
}

/// Whether a stock of a member's need holds a cell before the member is placed, and after; and the number of placed agents.
fn add_placed(sheet: &mut Sheet, arena: &mut Arena, member: &Member)
    ensures { arena.new ≡ arena.old }
{
    if !are_free(arena, member.need()) {
        return;
    }
    use_promise!(arena.cells());
    let Ok(mut placed) = Placed::empty(sheet.alloc, arena, member.agents()) else {
        return sheet.fail();
    };
    let Ok(mut stock) = Stock::fill(sheet.alloc, arena, member.need()) else {
        return sheet.fail();
    };
    sheet.show(&holds_any(&stock));
    place_into(member, &mut stock, &mut placed);
    sheet.say(" ");
    sheet.show(&holds_any(&stock));
    sheet.fill(" #\n", &[placed.agents() as u64]);
    stock.spend(arena);
    placed.spend(arena);
}

/// A value that may be given to a thread.
fn is_sent<T: Send>(_sent: &T) {}

/// Adds the number of placed agents, and the other ends of the wires at the boundary ends.
fn add_ends(sheet: &mut Sheet, placed: &PlacedTemplate) {
    sheet.fill("# of", &[placed.agents() as u64]);
    for end in 0..placed.template().boundary_ends() {
        add_joint(sheet, placed.joint(end));
    }
    sheet.say("\n");
}

/// The symbols of the cells, which are live.
fn add_symbols(sheet: &mut Sheet, arena: &Arena, room: &Placed)
    requires { (k : ℕ) (n : Number) → slice_get room.now.cells k ≡ Some n → IsLive (state_at arena.now n.0) }
{
    sheet.say("symbols");
    for agent in 0..room.agents() {
        sheet.fill(" #", &[arena.symbol(room.cell(agent)) as u64]);
    }
    sheet.say("\n");
}

/// Places the template in the room, and spends it: the room comes back.
fn spent(sheet: &mut Sheet, arena: &mut Arena, template: &Template, room: Placed) -> Option<Placed>
    requires room { length template.now.member.agents ≤ room.room }
    requires none { HasNoCell room.bag }
    requires of_one { AreOfOne (empty_bag arena.old) room.bag }
    ensures arena { arena.new ≡ arena.old }
    ensures back { IfSome result (λ p. HasNoCell p.bag × AreOfOne (empty_bag arena.old) p.bag × (p.room ≡ room.room)) }
{
    if !are_free(arena, template.need()) {
        return None;
    }
    use_promise!(arena.cells());
    let Ok(mut stock) = Stock::fill(sheet.alloc, arena, template.need()) else {
        return None;
    };
    let placed = place(template, &mut stock, room);
    is_sent(&placed);
    add_ends(sheet, &placed);
    stock.spend(arena);
    let back = placed.spend(arena);
    Some(back)
}

/// .. and settles it: the room that comes back still has the numbers of its cells.
fn settle(sheet: &mut Sheet, arena: &mut Arena, template: &Template, room: Placed)
    requires whole { NoneLeased arena.old }
    requires room { length template.now.member.agents ≤ room.room }
    requires none { HasNoCell room.bag }
    requires of_one { AreOfOne (empty_bag arena.old) room.bag }
    ensures { NoneLeased arena.new }
{
    if !are_free(arena, template.need()) {
        return;
    }
    use_promise!(arena.cells());
    let Ok(mut stock) = Stock::fill(sheet.alloc, arena, template.need()) else {
        return sheet.fail();
    };
    let placed = place(template, &mut stock, room);
    add_ends(sheet, &placed);
    stock.spend(arena);
    let back = placed.settle(arena);
    add_symbols(sheet, arena, &back);
}

/// The template, placed and spent, and placed and settled in the same room; and the free cells after each.
fn add_twice(sheet: &mut Sheet, arena: &mut Arena, template: &Template)
    requires { NoneLeased arena.old }
    ensures { NoneLeased arena.new }
{
    let Ok(room) = Placed::empty(sheet.alloc, arena, template.agents()) else {
        return sheet.fail();
    };
    let Some(back) = spent(sheet, arena, template, room) else {
        return;
    };
    add_need(sheet, Need::free_in(arena));
    settle(sheet, arena, template, back);
    add_need(sheet, Need::free_in(arena));
}

/// All this in one arena.
fn add_in(sheet: &mut Sheet, arena: &mut Arena, template: &Template)
    requires { NoneLeased arena.old }
    ensures { NoneLeased arena.new }
{
    if !are_free(arena, template.need()) {
        return sheet.say("too few\n");
    }
    add_filled(sheet, arena, template.need());
    add_added(sheet, arena, template.need());
    add_placed(sheet, arena, template.member());
    add_twice(sheet, arena, template);
}

/// .. with this many cells of each class.
fn add_in_new(sheet: &mut Sheet, cells: u32, template: &Template) {
    if cells > 100 {
        return;
    }
    match fresh(sheet.alloc, cells) {
        Ok(mut arena) => {
            add_in(sheet, &mut arena, template);
            drop(arena);
        }
        Err(_) => sheet.fail(),
    }
}

/// The same for the template of two symbols, by their numbers.
fn add_of(sheet: &mut Sheet, program: &Checked, templates: &Templates, words: &[String])
    requires { AreTemplatesOf program.now.program templates.now }
{
    let first = SymbolNo(small(words, 2));
    let second = SymbolNo(small(words, 3));
    match template_of(program, templates, first, second) {
        Some(template) => add_in_new(sheet, small(words, 4), template),
        None => sheet.say("no template\n"),
    }
}

/// The cells in a stock for the template of two symbols, and the member placed from it, in an arena of as many cells of each class as the words say
/// after the two numbers; and whether the placed member is moved in few bytes.
pub fn add_stock(sheet: &mut Sheet, program: &Checked, words: &[String]) {
    match compile(sheet.alloc, program) {
        Ok(templates) => {
            add_of(sheet, program, &templates, words);
            drop(templates);
            sheet.show(&(size_of::<PlacedTemplate>() < 400));
            sheet.say("\n");
        }
        Err(_) => sheet.fail(),
    }
}
