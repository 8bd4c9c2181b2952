//! Templates.
ghost use Rattle.std.specs.Prelude.{◌≡◌, ◌<◌, length};
ghost use Rattle.in_compile.specs.Templates.{AreTemplatesOf};

use crate::sheet::Sheet;
use in_arena::CellClass;
use in_check::Checked;
use in_compile::{Joint, Need, Template, Templates, compile};
use in_syntax::SymbolNo;

pub fn add_need(sheet: &mut Sheet, need: Need) {
    let numbers = CellClass::ALL.map(|class| need.of(class) as u64);
    sheet.fill("# small, # large, # wide\n", &numbers);
}

/// A joint: an agent and its place, or a boundary end.
pub fn add_joint(sheet: &mut Sheet, joint: Joint) {
    match joint {
        Joint::ToAgent(agent, place) => sheet.fill(" #.#", &[agent as u64, place as u64]),
        Joint::ToBoundary(end) => sheet.fill(" end #", &[end as u64]),
    }
}

/// The number of an agent's symbol, its class, and the other ends at its places, in a line.
fn add_agent(sheet: &mut Sheet, template: &Template, agent: u32)
    requires { agent < length template.now.member.agents }
{
    sheet.fill("# ", &[template.symbol(agent).0 as u64]);
    sheet.show(&template.class(agent));
    sheet.say(":");
    for place in 0..template.places(agent) {
        add_joint(sheet, template.end(agent, place));
    }
    sheet.say("\n");
}

/// The other ends at the boundary ends, in a line.
fn add_ends(sheet: &mut Sheet, template: &Template) {
    sheet.say("ends:");
    for end in 0..template.boundary_ends() {
        add_joint(sheet, template.joint(end));
    }
    sheet.say("\n");
}

/// The active pairs, in a line.
fn add_pairs(sheet: &mut Sheet, template: &Template) {
    sheet.say("pairs:");
    for number in 0..template.pairs() {
        let (one, other) = template.pair(number);
        sheet.fill(" #~#", &[one as u64, other as u64]);
    }
    sheet.say("\n");
}

/// The symbols' numbers, the boundary ends, the need, the agents, the other ends, and the pairs.
fn add_template(sheet: &mut Sheet, template: &Template) {
    let (first, second) = template.heads();
    let numbers = [
        first.0 as u64,
        second.0 as u64,
        template.first_ends() as u64,
        template.boundary_ends() as u64,
    ];
    sheet.fill("# >< #, # of # ends, ", &numbers);
    add_need(sheet, template.need());
    for agent in 0..template.agents() {
        add_agent(sheet, template, agent);
    }
    add_ends(sheet, template);
    add_pairs(sheet, template);
}

/// The template of two symbols, if they match.
pub fn template_of<'a>(
    checked: &Checked,
    templates: &'a Templates,
    c: SymbolNo,
    d: SymbolNo,
) -> Option<&'a Template>
    requires { AreTemplatesOf checked.now.program templates.now }
{
    let symbols = checked.symbols();
    if c.0 >= symbols.symbols() || d.0 >= symbols.symbols() {
        return None;
    }
    if !symbols.matching(c, d) {
        return None;
    }
    Some(templates.of(c, d))
}

/// The template of each two symbols that match, in either order.
fn add_all(sheet: &mut Sheet, program: &Checked, templates: &Templates)
    requires { AreTemplatesOf program.now.program templates.now }
{
    for one in 0..program.symbols().symbols() {
        for other in 0..program.symbols().symbols() {
            if let Some(template) = template_of(
                program,
                templates,
                SymbolNo(one),
                SymbolNo(other),
            ) {
                sheet.fill("of # #: ", &[one as u64, other as u64]);
                add_template(sheet, template);
            }
        }
    }
}

/// A value that threads may share.
fn is_shared<T: Sync>(_shared: &T) {}

/// The templates of a program, and the largest need among them. Threads may share them.
pub fn add_templates(sheet: &mut Sheet, program: &Checked) {
    match compile(sheet.alloc, program) {
        Ok(templates) => {
            is_shared(&templates);
            add_all(sheet, program, &templates);
            sheet.say("largest need: ");
            add_need(sheet, templates.largest_need());
        }
        Err(_) => sheet.fail(),
    }
}
