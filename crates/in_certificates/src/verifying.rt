// Whether given steps build a rule or the net.
ghost use Rattle.std.specs.Prelude.{◌≡◌, IfOk, Some, IsTrue, ◌↔◌, option_map};
ghost use Rattle.in_check.specs.Programs.{IsItemOf};
ghost use Rattle.in_certificates.specs.Given.{steps_of};
ghost use Rattle.in_certificates.specs.Verifying.{AreStepsOf, Verifies, item_of, shape_of};

use crate::given::{GivenStep, steps_of};
use in_check::{Checked, Item, check};
use in_cover::RuleNo;
use in_simple::{Derivation, OpenNet, verify};
use in_syntax::{Fault, TextLimits};
use std::alloc::{AllocError, Global};

/// The rule of that number, or the net, which has the number after the last rule's.
fn item_of(checked: &Checked, number: u32) -> Option<Item>
    ensures { result ≡ item_of checked.now.program number }
{
    if number < checked.rules() {
        Some(Item::RuleItem(RuleNo(number)))
    } else if number == checked.rules() {
        Some(Item::NetItem)
    } else {
        None
    }
}

/// Whether these numbers are steps that build an open net.
fn are_steps_of(
    alloc: Global,
    open: &OpenNet,
    given: &[GivenStep],
    parts: &[u32],
) -> Result<bool, AllocError>
    ensures { IfOk result (λ yes. IsTrue yes ↔ AreStepsOf (Some «open».now) (steps_of parts.now given.now)) }
{
    match steps_of(alloc, given, parts)? {
        Some(steps) => verify(alloc, &Derivation { steps }, open),
        None => Ok(false),
    }
}

/// Whether these numbers are steps that build the rule of that number, or the net, of an accepted program.
fn builds_item(
    alloc: Global,
    checked: &Checked,
    number: u32,
    given: &[GivenStep],
    parts: &[u32],
) -> Result<bool, AllocError>
    ensures { IfOk result (λ yes. IsTrue yes ↔ AreStepsOf (shape_of checked.now (item_of checked.now.program number)) (steps_of parts.now given.now)) }
{
    match item_of(checked, number) {
        Some(item) => are_steps_of(alloc, checked.shape(item), given, parts),
        None => Ok(false),
    }
}

/// Whether these steps build the open net of a rule of the program of a text with these limits, or of its net, if the text is accepted: each names
/// earlier steps that fit it, each except the last is named once, each node is in one step, and the open ends of the last one lead to the free ends. `number`
/// is the rule's, from 0 in the order of the text, or the number of rules for the net; for any other number the answer is no. The nodes and
/// wires are numbered as `in_export` writes them, and `parts` has the steps to which agents are grafted. The answer is that of
/// `in_simple::verify`, for steps from anywhere.
///
/// Otherwise the text is refused as `check` refuses it, or memory runs out.
pub fn verify_given(
    alloc: Global,
    limits: TextLimits,
    text: &[u8],
    number: u32,
    given: &[GivenStep],
    parts: &[u32],
) -> Result<bool, Fault>
    ensures { Verifies limits text.now number given.now parts.now result }
{
    let checked = check(alloc, limits, text)?;
    match builds_item(alloc, &checked, number, given, parts) {
        Ok(yes) => Ok(yes),
        Err(error) => Err(Fault::Memory(error)),
    }
}
