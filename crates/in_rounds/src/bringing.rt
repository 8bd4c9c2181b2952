// The owner's work once all hands are back.
ghost use Rattle.std.specs.Prelude.{◌≡◌, ◌++◌};
ghost use Rattle.in_rounds.specs.Gathers.{bags_of};
ghost use Rattle.in_rounds.specs.Holding.{AreBagsOf, Returns};
ghost use Rattle.in_rounds.specs.Bringing.{in_hand, in_hands, AreMadeWith, HandsAreMadeWith, IsHandMadeWith};

use crate::gather::Gather;
use crate::hand::Hand;
use in_arena::Arena;
use in_compile::Templates;

/// Frees the stock of a hand, and gathers its results. Cells of a result that can't be gathered are freed.
fn bring<'t>(hand: Hand<'t>, templates: &Templates, gather: &mut Gather<'t>, arena: &mut Arena)
    requires bags { AreBagsOf (in_hand hand ++ bags_of gather.old.slots) arena.old }
    requires made { IsHandMadeWith templates.now hand × AreMadeWith templates.now gather.old.slots }
    ensures returns { Returns (in_hand hand.entry ++ bags_of gather.old.slots) (bags_of gather.new.slots) arena.old arena.new }
    ensures bags { AreBagsOf (bags_of gather.new.slots) arena.new }
    ensures jobs { gather.new.jobs ≡ gather.old.jobs }
    ensures made { AreMadeWith templates.now gather.new.slots }
{
    let Hand {
        seat: _,
        stock,
        rooms: _,
        mut done,
    } = hand;
    stock.spend(arena);
    while let Some(one) = done.pop() {
        if let Err((back, _why)) = gather.put(one) {
            back.spend(arena);
        }
    }
}

/// Brings in all hands.
pub(crate) fn bring_all<'t>(
    mut hands: Vec<Hand<'t>>,
    templates: &Templates,
    gather: &mut Gather<'t>,
    arena: &mut Arena,
)
    requires bags { AreBagsOf (in_hands hands.items ++ bags_of gather.old.slots) arena.old }
    requires made { HandsAreMadeWith templates.now hands.items × AreMadeWith templates.now gather.old.slots }
    ensures returns { Returns (in_hands hands.entry.items ++ bags_of gather.old.slots) (bags_of gather.new.slots) arena.old arena.new }
    ensures bags { AreBagsOf (bags_of gather.new.slots) arena.new }
    ensures jobs { gather.new.jobs ≡ gather.old.jobs }
    ensures made { AreMadeWith templates.now gather.new.slots }
{
    while let Some(hand) = hands.pop() {
        bring(hand, templates, gather, arena);
    }
}
