// Laws on the classes of cells and on a change of an arena.
ghost use Rattle.in_arena.specs.Classes.{ClassesAreApart, ClassesAreAll, NumbersAreApart, NumbersAreAll};
ghost use Rattle.in_arena.specs.Changes.{FreeCountsChange, LeaseTakesOne, AllCellsStay, LeasesStay, LeasesDiffer, EmptyBagIsOf, BagsStay, FreeCellsAreInNoBag, LeaseToTakesOne, BagsStayApart, MovingKeepsApart, LeaseIsInNoBag};
ghost use Rattle.in_arena.specs.Beginning.{BegunCellsAreOne, SmallCellsBegunAreOne};
ghost use Rattle.in_arena.specs.Lending.{LeaseLends, LendingsJoin, LendingGoesBack, OthersStay};
ghost use Rattle.in_arena.specs.RowStarts.{RowStartsAreOne, RowStartsStay};

/// A number of ends that some class holds is held by one class alone.
pub fn classes_are_apart()
    ensures { ClassesAreApart }
{}

/// Each number of ends up to the greatest width is held by some class.
pub fn classes_are_all()
    ensures { ClassesAreAll }
{}

/// No number is that of cells of two classes.
pub fn numbers_are_apart()
    ensures { NumbersAreApart }
{}

/// Each number below that of all cells is that of a cell of some class.
pub fn numbers_are_all()
    ensures { NumbersAreAll }
{}

/// If a cell changes, its class has one free cell more if the cell becomes free, and one less if it was free; other classes have as many as before.
/// So a lease takes one, `settle` and `set_port` none, and `give_back` and `retire` give one.
pub fn free_counts_change()
    ensures { FreeCountsChange }
{}

/// A lease takes one free cell of its class.
pub fn lease_takes_one()
    ensures { LeaseTakesOne }
{}

/// A change of a cell leaves the number of cells of each class.
pub fn all_cells_stay()
    ensures { AllCellsStay }
{}

/// A lease is one of its arena after another cell has changed.
pub fn leases_stay()
    ensures { LeasesStay }
{}

/// A lease made while another one is out is of another cell, and the earlier one stays a lease of the arena.
pub fn leases_differ()
    ensures { LeasesDiffer }
{}

/// A bag without a cell is of its arena.
pub fn empty_bag_is_of()
    ensures { EmptyBagIsOf }
{}

/// A bag stays one of its arena if a cell changes that the bag doesn't have.
pub fn bags_stay()
    ensures { BagsStay }
{}

/// A free cell of an arena is in none of its bags.
pub fn free_cells_are_in_no_bag()
    ensures { FreeCellsAreInNoBag }
{}

/// A lease into a bag takes one free cell of its class from the arena and gives the bag one more.
pub fn lease_to_takes_one()
    ensures { LeaseToTakesOne }
{}

/// Bags of one arena without a common cell stay so if a cell is leased into one of them.
pub fn bags_stay_apart()
    ensures { BagsStayApart }
{}

/// They stay so if a cell is moved from one to the other.
pub fn moving_keeps_apart()
    ensures { MovingKeepsApart }
{}

/// A cell that is leased into a bag while a lease is out is another cell, and the lease stays one of the arena.
pub fn lease_is_in_no_bag()
    ensures { LeaseIsInNoBag }
{}

/// A lease is a lending of one cell.
pub fn lease_lends()
    ensures { LeaseLends }
{}

/// Two lendings, one after the other, are one lending of both lists of leases.
pub fn lendings_join()
    ensures { LendingsJoin }
{}

/// Once all leases of a lending are given back, the arena is as before.
pub fn lending_goes_back()
    ensures { LendingGoesBack }
{}

/// The other leases of an arena stay its leases if the cell of one becomes free or live.
pub fn others_stay()
    ensures { OthersStay }
{}

/// The row of an arena begins at one place.
pub fn row_starts_are_one()
    ensures { RowStartsAreOne }
{}

/// It begins there after a change of a cell.
pub fn row_starts_stay()
    ensures { RowStartsStay }
{}

/// A cell that is begun is one up to its number: of two answers to one call, the second has like cells at other numbers of the same classes.
/// Each cell that wasn't free keeps its number and its state.
pub fn begun_cells_are_one()
    ensures { BegunCellsAreOne }
{}

/// Small cells that are begun one after another are as many in each answer, and one up to their numbers: so are the ends at their points.
pub fn small_cells_begun_are_one()
    ensures { SmallCellsBegunAreOne }
{}
