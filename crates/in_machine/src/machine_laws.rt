//! Laws on machines and their runs, for proofs above them. No function here does anything.

ghost use Rattle.in_machine.specs.MachineLaws.{MachinesAreReducers, MachinesAsPromised, NormalEndsAreOne, QueuesAreQueues, QueuesMoveUp, RoomLasts, RunsReach, SameAreMachines, SameAreReached, StartsAreMachines, StartsAreSame, StepsKeepMachines};
ghost use Rattle.in_machine.specs.Taking.{FirstsTakenAreOne};

/// The net that a machine shows is as promised. It is typed, has one rule for each active pair, and has no crossing circle and no vicious one. Each
/// interaction ends. Each agent leads on. The net is written whole.
pub fn machines_as_promised()
    ensures { MachinesAsPromised }
{}

/// The queue of a machine has each active pair of its net once, as the text of a net requires.
pub fn queues_are_queues()
    ensures { QueuesAreQueues }
{}

/// A run of any number of steps reaches its net by as many interactions more.
pub fn runs_reach()
    ensures { RunsReach }
{}

/// An interaction of a machine leads to a machine, under any numbers of the new agents.
pub fn steps_keep_machines()
    ensures { StepsKeepMachines }
{}

/// A machine is a reducer: the laws of `in_reducer` on reducers that are the same up to the numbers of agents hold of machines.
pub fn machines_are_reducers()
    ensures { MachinesAreReducers }
{}

/// A state that is the same as a machine up to the numbers of its agents is a machine.
pub fn same_are_machines()
    ensures { SameAreMachines }
{}

/// And it is reached by as many interactions.
pub fn same_are_reached()
    ensures { SameAreReached }
{}

/// An accepted program and a number of cells have one first machine, up to the numbers of its agents.
pub fn starts_are_same()
    ensures { StartsAreSame }
{}

/// A start of an accepted program is a machine: the laws on machines hold of it.
pub fn starts_are_machines()
    ensures { StartsAreMachines }
{}

/// A machine without active pairs is the only end of its program: each run that ends, in any order, has as many interactions and the same text.
pub fn normal_ends_are_one()
    ensures { NormalEndsAreOne }
{}

/// If there is room for the first pairs of the queue together, each of them has room at its turn, first in, first out, after any agents that were
/// made before.
pub fn room_lasts()
    ensures { RoomLasts }
{}

/// While pairs of the queue are left, interactions take them in turn, first in, first out, and add the new ones behind them.
pub fn queues_move_up()
    ensures { QueuesMoveUp }
{}

/// `take_first` has one result: one number of interactions, and one machine up to the numbers of its agents.
pub fn firsts_taken_are_one()
    ensures { FirstsTakenAreOne }
{}
