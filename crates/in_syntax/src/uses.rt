ghost use Rattle.std.specs.Prelude.{◌≡◌, ◌++◌, ◌∷◌, [], IfOk, OnOk, false};
ghost use Rattle.std.specs.List.{flat_map};
ghost use Rattle.in_syntax.specs.Uses.{use_of, uses_of_head, uses_of_rule, uses_of_equation, uses_of_body, listing, lists};

use crate::places::Place;
use crate::tree::{Equation, Head, Name, SourceNet, SourceRule};
use crate::walks::{Visitor, walk_equations, walk_terms};
use sqlite_items::Items;
use std::alloc::{AllocError, Global};

/// The place of a name in a rule or in an equation of the net, and the number of terms in brackets after it.
#[derive(Clone, Copy)]
pub struct NameUse {
    pub place: Place,
    /// The number of arguments of a term's name, or of terms of a head's name.
    pub arguments: usize,
    /// Whether it is a head's name, which has brackets even without a term.
    pub is_head: bool,
}

impl NameUse {
    /// A name with `arguments` terms after it.
    fn of(name: &Name, arguments: usize, is_head: bool) -> NameUse
        ensures { result ≡ use_of name.now arguments is_head }
    {
        NameUse {
            place: name.place,
            arguments,
            is_head,
        }
    }
}

/// The uses of names so far.
#[derive(Drop)]
struct Listed {
    uses: Items<NameUse>,
}

impl Visitor for Listed {
    type Known = ();

    ghost visits = { listing };

    fn name(&mut self, name: &Name, arguments: usize) -> Result<(), AllocError> {
        self.uses.push(NameUse::of(name, arguments, false))
    }

    fn argument(&mut self, _of: (), _number: usize, _argument: ()) -> Result<(), AllocError> {
        Ok(())
    }

    fn equation(&mut self, _left: (), _right: (), _tilde: Place) -> Result<(), AllocError> {
        Ok(())
    }
}

/// Lists the names of a head: its own, and then those of its terms.
fn list_head(listed: &mut Listed, head: &Head) -> Result<(), AllocError>
    ensures { OnOk result (listed.new ≡ lists listed.old (uses_of_head head.now)) }
{
    listed
        .uses
        .push(NameUse::of(&head.name, head.terms.len(), true))?;
    walk_terms(listed, (), head.terms.as_slice())
}

/// Lists the names of these equations.
fn list_equations(listed: &mut Listed, equations: &[Equation]) -> Result<(), AllocError>
    ensures { OnOk result (listed.new ≡ lists listed.old (flat_map uses_of_equation equations.now)) }
{
    walk_equations(listed, equations)
}

/// The uses of names in a rule, in the order of the text: in its first head, in its second one, and in its equations. The word
/// before its equations is no name. The only error is running out of memory.
pub fn names_of_rule(alloc: Global, rule: &SourceRule) -> Result<Items<NameUse>, AllocError>
    ensures { IfOk result (λ uses. uses ≡ uses_of_rule rule.now) }
{
    let mut listed = Listed {
        uses: Items::new(alloc),
    };
    list_head(&mut listed, &rule.first)?;
    list_head(&mut listed, &rule.second)?;
    list_equations(&mut listed, rule.equations.as_slice())?;
    Ok(listed.uses)
}

/// The uses of names in the net's equations, in the order of the text; the declarations of its free ends are not among them. The
/// only error is running out of memory.
pub fn names_of_body(alloc: Global, net: &SourceNet) -> Result<Items<NameUse>, AllocError>
    ensures { IfOk result (λ uses. uses ≡ uses_of_body net.now) }
{
    let mut listed = Listed {
        uses: Items::new(alloc),
    };
    list_equations(&mut listed, net.equations.as_slice())?;
    Ok(listed.uses)
}
