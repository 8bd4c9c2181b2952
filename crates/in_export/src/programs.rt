ghost use Rattle.std.specs.Prelude.{◌≡◌, ◌<◌, ◌++◌, length, slice_get, IfOk, OnOk};
ghost use Rattle.in_check.specs.Programs.{IsItemOf};
ghost use Rattle.in_export.specs.Programs.{both_members_text, ends_text, format_text, heads_text, item_text, net_text, program_line, rule_text, rules_text, rules_and_net_text, tables_text};

use crate::json::{add_comma, add_key, add_number};
use crate::nets::{add_free_ends, add_graph};
use crate::steps::add_certificate;
use crate::symbols::{add_symbols, add_types};
use in_check::{Checked, Item};
use in_cover::RuleNo;
use in_net::{Net, Rule};
use in_syntax::SymbolNo;
use std::alloc::{AllocError, Global};

/// The number of this form of the line.
const FORMAT: u32 = 1;

/// Adds the number of this form of the line, as a member.
fn add_format(bytes: &mut Vec<u8>, alloc: Global) -> Result<(), AllocError>
    ensures { OnOk result (bytes.new.items ≡ bytes.old.items ++ format_text) }
{
    add_key(bytes, "format")?;
    add_number(bytes, alloc, FORMAT)
}

/// Adds the two symbols of a rule, the constructor first.
fn add_heads(
    bytes: &mut Vec<u8>,
    alloc: Global,
    heads: (SymbolNo, SymbolNo),
) -> Result<(), AllocError>
    ensures { OnOk result (bytes.new.items ≡ bytes.old.items ++ heads_text heads) }
{
    let (constructor, destructor) = heads;
    add_key(bytes, "constructor")?;
    add_number(bytes, alloc, constructor.0)?;
    bytes.push(b',')?;
    add_key(bytes, "destructor")?;
    add_number(bytes, alloc, destructor.0)
}

/// Adds the heads of a rule and its right member.
fn add_both_members(bytes: &mut Vec<u8>, alloc: Global, rule: &Rule) -> Result<(), AllocError>
    ensures { OnOk result (bytes.new.items ≡ bytes.old.items ++ both_members_text rule.now) }
{
    add_heads(bytes, alloc, rule.heads())?;
    bytes.push(b',')?;
    add_graph(bytes, alloc, rule.member())?;
    Ok(())
}

/// Adds the nodes and steps of a rule or of the net.
fn add_item(
    bytes: &mut Vec<u8>,
    alloc: Global,
    checked: &Checked,
    item: Item,
) -> Result<(), AllocError>
    requires { IsItemOf checked.now.program item }
    ensures { OnOk result (bytes.new.items ≡ bytes.old.items ++ item_text checked.now item) }
{
    add_certificate(bytes, alloc, checked.shape(item), checked.certificate(item))
}

/// Adds a rule.
fn add_rule(
    bytes: &mut Vec<u8>,
    alloc: Global,
    checked: &Checked,
    number: RuleNo,
) -> Result<(), AllocError>
    requires { number.0 < length checked.now.program.rules }
    ensures { OnOk result (bytes.new.items ≡ bytes.old.items ++ rule_text checked.now number.0 (slice_get checked.now.program.rules number.0)) }
{
    let rule = checked.rule(number);
    bytes.push(b'{')?;
    add_both_members(bytes, alloc, rule)?;
    bytes.push(b',')?;
    add_item(bytes, alloc, checked, Item::RuleItem(number))?;
    bytes.push(b'}')?;
    Ok(())
}

/// Adds the rules, as an array.
fn add_rules(bytes: &mut Vec<u8>, alloc: Global, checked: &Checked) -> Result<(), AllocError>
    ensures { OnOk result (bytes.new.items ≡ bytes.old.items ++ rules_text checked.now) }
{
    bytes.push(b'[')?;
    for number in 0..checked.rules() {
        add_comma(bytes, number as usize)?;
        add_rule(bytes, alloc, checked, RuleNo(number))?;
    }
    bytes.push(b']')?;
    Ok(())
}

/// Adds the free ends of a net, its agents and its wires.
fn add_ends(bytes: &mut Vec<u8>, alloc: Global, net: &Net) -> Result<(), AllocError>
    ensures { OnOk result (bytes.new.items ≡ bytes.old.items ++ ends_text net.now) }
{
    add_key(bytes, "free")?;
    add_free_ends(bytes, alloc, net)?;
    bytes.push(b',')?;
    add_graph(bytes, alloc, net)
}

/// Adds the net.
fn add_net(bytes: &mut Vec<u8>, alloc: Global, checked: &Checked) -> Result<(), AllocError>
    ensures { OnOk result (bytes.new.items ≡ bytes.old.items ++ net_text checked.now) }
{
    bytes.push(b'{')?;
    add_ends(bytes, alloc, checked.net())?;
    bytes.push(b',')?;
    add_item(bytes, alloc, checked, Item::NetItem)?;
    bytes.push(b'}')?;
    Ok(())
}

/// Adds the types and the symbols, as two members.
fn add_tables(bytes: &mut Vec<u8>, alloc: Global, checked: &Checked) -> Result<(), AllocError>
    ensures { OnOk result (bytes.new.items ≡ bytes.old.items ++ tables_text checked.now.program) }
{
    add_key(bytes, "types")?;
    add_types(bytes, checked.symbols())?;
    bytes.push(b',')?;
    add_key(bytes, "symbols")?;
    add_symbols(bytes, alloc, checked.symbols())
}

/// Adds the rules and the net, as two members.
fn add_rules_and_net(
    bytes: &mut Vec<u8>,
    alloc: Global,
    checked: &Checked,
) -> Result<(), AllocError>
    ensures { OnOk result (bytes.new.items ≡ bytes.old.items ++ rules_and_net_text checked.now) }
{
    add_key(bytes, "rules")?;
    add_rules(bytes, alloc, checked)?;
    bytes.push(b',')?;
    add_key(bytes, "net")?;
    add_net(bytes, alloc, checked)
}

/// The line of an accepted program.
pub fn line_of(alloc: Global, checked: &Checked) -> Result<Vec<u8>, AllocError>
    ensures { IfOk result (λ line. line.items ≡ program_line checked.now) }
{
    let mut bytes = Vec::new(alloc);
    bytes.push(b'{')?;
    add_format(&mut bytes, alloc)?;
    bytes.push(b',')?;
    add_tables(&mut bytes, alloc, checked)?;
    bytes.push(b',')?;
    add_rules_and_net(&mut bytes, alloc, checked)?;
    bytes.extend_from_slice(b"}\n")?;
    Ok(bytes)
}
