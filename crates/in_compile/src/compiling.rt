// From an accepted program to its templates.
ghost use Rattle.std.specs.Prelude.{◌≡◌, ◌<◌, IfOk, OnOk, length};
ghost use Rattle.in_cover.specs.Cover.{IsTableOf};
ghost use Rattle.in_compile.specs.Finding.{AreFoundBySymbols, AreNumberedBySymbols, PutsAt, listed};
ghost use Rattle.in_compile.specs.Members.{IsMemberOf};
ghost use Rattle.in_compile.specs.Templates.{AreMostAgents, HaveTemplates, IsLargestNeed, AreTemplatesOf};

use crate::cells::Need;
use crate::member::Member;
use crate::members::{member_of, template};
use crate::template::Template;
use crate::templates::Templates;
use in_base::use_promise;
use in_check::Checked;
use in_cover::{RuleNo, RuleTable};
use in_syntax::with_room;
use sqlite_items::Items;
use std::alloc::{AllocError, Global};
use std::sync::Arc;

/// The template of each rule, by number.
fn templates_of(alloc: Global, checked: &Checked) -> Result<Items<Arc<Template>>, AllocError>
    ensures { IfOk result (λ ts. HaveTemplates checked.now.program.tables checked.now.program.rules (listed ts)) }
{
    use_promise!(checked.is_accepted());
    let mut templates = Items::new(alloc);
    for number in 0..checked.rules() {
        let rule = checked.rule(RuleNo(number));
        let made = template(alloc, checked.symbols(), rule)?;
        templates.push(Arc::new(alloc, made)?)?;
    }
    Ok(templates)
}

/// The number of the rule of each two symbols.
fn numbers_of(alloc: Global, checked: &Checked) -> Result<RuleTable, AllocError>
    ensures { IfOk result (λ t. IsTableOf checked.now.program.tables checked.now.program.rules t) }
{
    use_promise!(checked.is_accepted());
    checked.numbers().copy(alloc)
}

/// The initial net.
fn start_of(alloc: Global, checked: &Checked) -> Result<Member, AllocError>
    ensures { IfOk result (λ m. IsMemberOf checked.now.program.tables checked.now.program.net m) }
{
    use_promise!(checked.is_accepted());
    member_of(alloc, checked.symbols(), checked.net())
}

/// For each class, the most cells that a template needs.
fn largest_need(templates: &[Arc<Template>]) -> Need
    ensures { IsLargestNeed (listed templates.now) result }
{
    let mut largest = Need::each(0);
    for number in 0..templates.len() {
        largest = largest.or_more(templates[number].need());
    }
    largest
}

/// The most agents that a template has.
fn most_agents(templates: &[Arc<Template>]) -> u32
    ensures { AreMostAgents (listed templates.now) result }
{
    let mut most = 0;
    for number in 0..templates.len() {
        most = most.max(templates[number].agents());
    }
    most
}

/// A table of that many places, without a template.
fn no_templates(alloc: Global, places: usize) -> Result<Items<Option<Arc<Template>>>, AllocError>
    ensures { IfOk result (λ found. length found ≡ places) }
{
    let mut found = with_room(alloc, places)?;
    for place in 0..places {
        found.push(None)?;
    }
    Ok(found)
}

/// Puts a template at a place of the table.
fn put_at(
    found: &mut Items<Option<Arc<Template>>>,
    place: usize,
    template: &Arc<Template>,
) -> Result<(), AllocError>
    requires { place < length found.old }
    ensures { OnOk result (PutsAt found.old place template.now found.new) }
{
    let shared = Arc::try_clone(template)?;
    found.set(place, Some(shared));
    Ok(())
}

/// A table with a place for each two of `size` symbols, where the template of the two is, in either order.
fn by_symbols(
    alloc: Global,
    templates: &[Arc<Template>],
    numbers: &RuleTable,
    size: u32,
) -> Result<Items<Option<Arc<Template>>>, AllocError>
    requires { AreNumberedBySymbols (listed templates.now) numbers.now size }
    ensures { IfOk result (λ found. AreFoundBySymbols (listed templates.now) size (length templates.now) found) }
{
    let _ = numbers;
    let row = size as usize;
    let mut found = no_templates(alloc, row * row)?;
    for number in 0..templates.len() {
        let template = &templates[number];
        let (one, other) = template.heads();
        let (one, other) = (one.0 as usize, other.0 as usize);
        put_at(&mut found, one * row + other, template)?;
        put_at(&mut found, other * row + one, template)?;
    }
    Ok(found)
}

/// The templates of an accepted program: for each rule its right member, which is found by the rule's two symbols, and the initial net. So
/// every two matching symbols have one template. Refused only when out of memory.
pub fn compile(alloc: Global, checked: &Checked) -> Result<Templates, AllocError>
    ensures { IfOk result (λ ts. AreTemplatesOf checked.now.program ts) }
{
    use_promise!(checked.is_accepted());
    let templates = templates_of(alloc, checked)?;
    let numbers = numbers_of(alloc, checked)?;
    let start = start_of(alloc, checked)?;
    let largest = largest_need(templates.as_slice());
    let most_agents = most_agents(templates.as_slice());
    let size = checked.symbols().symbols();
    let found = by_symbols(alloc, templates.as_slice(), &numbers, size)?;
    Ok(Templates {
        listed: templates,
        numbers,
        found,
        size,
        start,
        largest,
        most_agents,
    })
}
