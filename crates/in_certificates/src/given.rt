// Steps as numbers.
ghost use Rattle.std.specs.Prelude.{◌≡◌, IfOk, option_copied};
ghost use Rattle.in_certificates.specs.Given.{graft_of, some_of, step_of, steps_of};

use in_simple::Step;
use sqlite_items::Items;
use std::alloc::{AllocError, Global};

/// A step of a derivation as numbers. The kind gives the meaning of the others:
///
/// - 0: the empty net;
/// - 1: the wire `first` by itself;
/// - 2: the class node `first`;
/// - 3: the agent `first`, with a step for each class of its auxiliary ports: those of a list apart, `third` of them from number `second` on;
/// - 4: the steps `second` and `third`, joined along the wire `first`;
/// - 5: the steps `first` and `second`, side by side.
///
/// Numbers that a kind doesn't name are ignored. The kinds are in the order of the constructions as the export names them; the
/// numbers are this project's own choice.
#[repr(C)]
#[derive(Clone, Copy, Debug, PartialEq, Eq)]
pub struct GivenStep {
    pub kind: u32,
    pub first: u32,
    pub second: u32,
    pub third: u32,
}

/// `count` numbers of a list from number `from` on; `None` if it has fewer.
fn some_of(parts: &[u32], from: u32, count: u32) -> Option<&[u32]>
    ensures { option_copied result ≡ some_of parts.now from count }
{
    let (from, count) = (from as usize, count as usize);
    if from <= parts.len() && count <= parts.len() - from {
        Some(&parts[from..from + count])
    } else {
        None
    }
}

/// The graft of an agent; `None` if the list has fewer numbers.
fn graft(alloc: Global, given: GivenStep, parts: &[u32]) -> Result<Option<Step>, AllocError>
    ensures { IfOk result (λ found. found ≡ graft_of parts.now given) }
{
    match some_of(parts, given.second, given.third) {
        Some(classes) => Ok(Some(Step::Graft {
            node: given.first,
            classes: Items::from_slice(alloc, classes)?,
        })),
        None => Ok(None),
    }
}

/// The step with these numbers; `None` if they are those of no step.
fn step_of(alloc: Global, given: GivenStep, parts: &[u32]) -> Result<Option<Step>, AllocError>
    ensures { IfOk result (λ found. found ≡ step_of parts.now given) }
{
    let GivenStep {
        kind,
        first,
        second,
        third,
    } = given;
    match kind {
        0 => Ok(Some(Step::Empty)),
        1 => Ok(Some(Step::Link { wire: first })),
        2 => Ok(Some(Step::Given { node: first })),
        3 => graft(alloc, given, parts),
        4 => Ok(Some(Step::Cut {
            wire: first,
            a: second,
            b: third,
        })),
        5 => Ok(Some(Step::Mix {
            a: first,
            b: second,
        })),
        _ => Ok(None),
    }
}

/// The steps with these numbers; `None` if one of them has the numbers of no step.
pub(crate) fn steps_of(
    alloc: Global,
    given: &[GivenStep],
    parts: &[u32],
) -> Result<Option<Items<Step>>, AllocError>
    ensures { IfOk result (λ found. found ≡ steps_of parts.now given.now) }
{
    let mut steps = Items::new(alloc);
    for index in 0..given.len() {
        match step_of(alloc, given[index], parts)? {
            Some(step) => steps.push(step)?,
            None => return Ok(None),
        }
    }
    Ok(Some(steps))
}
