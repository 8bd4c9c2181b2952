//! Laws over the definitions alone. No function here does anything.

ghost use Rattle.in_cells.specs.Between.{PairsAreAddedOnce};
ghost use Rattle.in_cells.specs.Start.{SetHasSymbols, SetIsReady, ShownIsStep};
ghost use Rattle.in_cells.specs.Laws.{ExchangesAreOne, CopiesAreShown, NoneIsLeased, AllAreClosed, CopiesStandBeside, PartStandsBeside};

/// Two ends are exchanged in one way: the cells and the list of ends afterwards are determined.
pub fn exchanges_are_one()
    ensures { ExchangesAreOne }
{}

/// If the cells showed a net, and the right member is in other cells, the pair is retired and the sides of the boundary ends are set,
/// then joining can begin.
pub fn set_is_ready()
    ensures { SetIsReady }
{}

/// In this state each live cell has the number of a symbol, if the net and the right member are over the symbols.
pub fn set_has_symbols()
    ensures { SetHasSymbols }
{}

/// When joining is done, each net that the cells show, with the free ends of the net before, is the net after the interaction.
pub fn shown_is_step()
    ensures { ShownIsStep }
{}

/// The pairs that an interaction adds over boundary ends are determined, and so is their order.
pub fn pairs_are_added_once()
    ensures { PairsAreAddedOnce }
{}

/// The net that the cells show afterwards has the copied agents under their new names, with their wires, beside its earlier agents.
pub fn copies_are_shown()
    ensures { CopiesAreShown }
{}

/// If no cell was on lease, none is afterwards.
pub fn none_is_leased()
    ensures { NoneIsLeased }
{}

/// All agents of a net lead to each other and to its free ends.
pub fn all_are_closed()
    ensures { AllAreClosed }
{}

/// If all agents of a net are copied to the cells of another one, both nets are side by side, for any order of their free ends.
pub fn copies_stand_beside()
    ensures { CopiesStandBeside }
{}

/// If agents that lead only to each other and to free ends are copied to cells that show no agent, and taken out, the net before is the rest
/// and the part side by side.
pub fn part_stands_beside()
    ensures { PartStandsBeside }
{}
