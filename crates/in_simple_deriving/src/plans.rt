ghost use Rattle.std.specs.Prelude.{[], ◌∷◌, ◌≡◌, ◌<◌, ◌≤◌, ◌+◌, ◌-◌, ◌↔◌, suc, length, false, IfOk, IsTrue, ℕ};
ghost use Rattle.in_simple_deriving.specs.Procedure.{AreSizedTasks, StaysForRest, IsPlanAtTurn, KeepsPlan, Lists};
ghost use Rattle.in_open_nets.specs.Parts.{IsFirst, IsRest};
ghost use Rattle.in_open_nets.specs.Members.{nodes_in};
ghost use Rattle.in_simple_deriving.specs.Progress.{HasNoTurnLeft, after_ports, at_end, later, progress, until};
ghost use Rattle.in_open_nets.specs.OpenNets.{IsAgent, IsClass, IsOrderly, class_in};
ghost use Rattle.in_simple_deriving.specs.Planned.{AreTouched, HasFateOfTurn, IsAuxiliaryPort, LeadsBack, Skips, TakesPart, WhatComes, WhatPort, WithEmpties, after_fate};
ghost use Rattle.in_open_nets.specs.Pieces.{IsPieceOrWhole};
ghost use Rattle.in_simple_deriving.specs.Stacks.{PutsShapes, no_wires, shape};
ghost use Rattle.in_open_nets.specs.Stuck.{ports_of, turn};
ghost use Rattle.in_simple_deriving.specs.TaskStates.{with_task};
ghost use Rattle.in_simple_deriving.specs.declared.plans.Task.TheVariants.{Make};

use crate::heads::{Headed, Heads, Met};
use in_base::use_promise;
use in_open_nets::{OpenPoint, Wired};
use sqlite_items::Items;
use std::alloc::{AllocError, Global};
use std::marker::Model;

/// A step over the last ones.
#[derive(Clone, Copy)]
pub(crate) enum StackStep {
    Empty,
    Link(u32),
    Given(u32),
    /// With this number of classes.
    Graft(u32, usize),
    /// Along a wire.
    Cut(u32),
    Mix,
}

/// A task: a part to derive, or a step.
#[derive(Drop)]
pub(crate) enum Task<'a> {
    Derive(Headed<'a>),
    Make(StackStep),
}

/// The fate of the component at a turn.
enum Fate<'a> {
    /// It is left and not derived yet.
    Waits(Headed<'a>),
    /// It is left, and derived.
    Derived,
    /// No node there is left.
    Outside,
}

/// Whether the point is one of the node's ports up to this one.
fn leads_back(point: OpenPoint, node: usize, port: usize) -> bool
    ensures { IsTrue result ↔ LeadsBack node port point }
{
    match point {
        OpenPoint::Port(near, place) => near as usize == node && place as usize <= port,
        OpenPoint::Free(_) => false,
    }
}

/// The tasks of a part without one node.
struct TaskPlan<'a> {
    heads: &'a Heads<'a>,
    node: usize,
    tasks: Items<Task<'a>>,
}

// By hand, so that each drop is a call: a derived one is written out in each proof, at each way out.
impl<'a> Drop for TaskPlan<'a> {
    fn drop(self) {
        let TaskPlan {
            heads: _,
            node: _,
            tasks: _,
        } = self;
    }
}

// Contracts see the nodes that are left, and those that the tasks derive.
impl<'a> Model for TaskPlan<'a> {
    ghost use Rattle.std.specs.Prelude.{◌<◌, length};
    ghost use Rattle.in_simple_deriving.specs.TaskStates.{TaskState, state_of};
    ghost use Rattle.in_simple_deriving.specs.Turns.{turn_of};

    ghost Value = { TaskState };

    ghost view = { λ p. state_of p.heads.now p.node p.tasks };

    ghost invariant = { λ p. (p.node < length p.heads.now.net.nodes) × (turn_of p.heads.now p.node < p.heads.now.taken) };
}

impl<'a> TaskPlan<'a> {
    /// One more task.
    fn push(self, task: Task<'a>) -> Result<TaskPlan<'a>, AllocError>
        ensures { IfOk result (λ plan. plan ≡ with_task self.entry task.entry) }
    {
        let TaskPlan {
            heads,
            node,
            mut tasks,
        } = self;
        tasks.push(task)?;
        Ok(TaskPlan { heads, node, tasks })
    }

    /// One more step.
    fn make(self, joint: StackStep) -> Result<TaskPlan<'a>, AllocError>
        ensures { IfOk result (λ plan. plan ≡ with_task self.entry (Make joint)) }
    {
        self.push(Task::Make(joint))
    }

    /// Its tasks.
    fn into_tasks(self) -> Items<Task<'a>>
        ensures { result ≡ self.entry.tasks }
    {
        let TaskPlan {
            heads: _,
            node: _,
            tasks,
        } = self;
        tasks
    }

    /// Whether the part is in one piece, so that the node touches all components that it leaves. Any part but the whole net is.
    fn is_of_piece(&self) -> bool
        ensures piece { IsTrue result → AreTouched self.now }
        ensures whole { result ≡ false → self.now.turns ≡ suc (ports_of self.now.net self.now.node) + length self.now.net.nodes }
    {
        self.heads.order().turn(self.node) > 0
    }

    /// The fate of the component at a turn.
    fn fate(&self, turn: usize) -> Fate<'a>
        requires plan { IsPlanAtTurn self.now.net self.now.node turn self.now }
        requires turn { turn < self.now.turns }
        ensures { HasFateOfTurn self.now turn result }
    {
        match self.heads.met(self.node, turn) {
            Met::Head(head) => Fate::Waits(Headed::of(self.heads, head)),
            Met::Again => Fate::Derived,
            Met::Gone => Fate::Outside,
        }
    }

    /// Derives the component of a node that waits, and joins it to the earlier ones.
    fn join(self, fate: Fate<'a>, joint: StackStep) -> Result<TaskPlan<'a>, AllocError>
        ensures { IfOk result (λ plan. plan ≡ after_fate joint self.entry fate.entry) }
    {
        match fate {
            Fate::Waits(part) => self.push(Task::Derive(part))?.make(joint),
            Fate::Derived | Fate::Outside => Ok(self),
        }
    }

    /// The component that an agent's auxiliary port touches, unless it is derived; or the port's wire, if it leads out of the part or to a later
    /// port. Returns whether something was added.
    fn port(
        self,
        wired: &Wired,
        node: usize,
        port: usize,
    ) -> Result<(TaskPlan<'a>, bool), AllocError>
        requires port { IsAuxiliaryPort wired.now node port }
        requires plan { IsPlanAtTurn wired.now node port self }
        ensures plan { IfOk result (λ r. StaysForRest wired.now node (suc port) self.entry r.0) }
        ensures adds { IfOk result (λ r. WhatPort wired.now node port self.entry r.0 r.1) }
        ensures comes { IfOk result (λ r. WhatComes wired.now node port self.entry r.0 r.1) }
    {
        let (wire, point) = wired.partner(node, port);
        match self.fate(port) {
            Fate::Waits(part) => Ok((self.push(Task::Derive(part))?, true)),
            Fate::Derived => Ok((self, false)),
            Fate::Outside => {
                if leads_back(point, node, port) {
                    Ok((self, false))
                } else {
                    Ok((self.make(StackStep::Link(wire))?, true))
                }
            }
        }
    }
}

/// Nothing, for classes with no port.
fn skip<'a>(plan: TaskPlan<'a>, classes: usize) -> Result<TaskPlan<'a>, AllocError>
    ensures plan { IfOk result (KeepsPlan plan.entry) }
    ensures skips { IfOk result (Skips classes plan.entry) }
    ensures tasks { IfOk result (WithEmpties classes plan.entry) }
{
    let mut skipped = plan;
    for class in 0..classes {
        skipped = skipped.make(StackStep::Empty)?;
    }
    Ok(skipped)
}

/// A plan with no task yet, for a part without a node that splits it.
#[derive(Drop)]
struct BegunPlan<'a> {
    wired: &'a Wired<'a>,
    node: usize,
    plan: TaskPlan<'a>,
}

impl<'a> Model for BegunPlan<'a> {
    ghost use Rattle.in_simple_deriving.specs.Progress.{Progress, StartsPlan, progress};

    ghost Value = { Progress };

    ghost view = { λ b. progress b.wired.now b.node b.plan.rest 0 };

    ghost invariant = { λ b. StartsPlan b.wired.now b.node b.plan };
}

/// A plan that puts the nets of an agent's classes, as far as the ports before this one go; `begun` classes are begun.
#[derive(Drop)]
struct Classes<'a> {
    wired: &'a Wired<'a>,
    node: usize,
    plan: TaskPlan<'a>,
    port: usize,
    begun: usize,
}

impl<'a> Model for Classes<'a> {
    ghost use Rattle.in_simple_deriving.specs.Progress.{PlansClasses, Progress, progress};

    ghost Value = { Progress };

    ghost view = { λ c. progress c.wired.now c.node c.plan.rest c.port };

    ghost invariant = { λ c. PlansClasses c.wired.now c.node c.port c.begun c.plan };
}

/// A plan that puts one net: that of the node, with the components whose turns come before this one.
#[derive(Drop)]
struct JoinedPlan<'a> {
    wired: &'a Wired<'a>,
    node: usize,
    plan: TaskPlan<'a>,
    turn: usize,
}

impl<'a> Model for JoinedPlan<'a> {
    ghost use Rattle.in_simple_deriving.specs.Progress.{PlansNet, Progress, progress};

    ghost Value = { Progress };

    ghost view = { λ j. progress j.wired.now j.node j.plan.rest j.turn };

    ghost invariant = { λ j. PlansNet j.wired.now j.node j.turn j.plan };
}

impl<'a> BegunPlan<'a> {
    /// A plan with no task yet.
    fn of(alloc: Global, wired: &'a Wired<'a>, part: Headed<'a>) -> BegunPlan<'a>
        requires net { part.net ≡ wired.now }
        requires first { IsFirst wired.now part.nodes part.head }
        requires piece { IsPieceOrWhole wired.now part.nodes }
        ensures start { result ≡ progress wired.now part.entry.head result.rest 0 }
        ensures rest { IsRest part.entry.head part.entry.nodes result.rest }
    {
        let (heads, node) = part.apart();
        use_promise!(heads.order().taken());
        let plan = TaskPlan {
            heads,
            node,
            tasks: Items::new(alloc),
        };
        BegunPlan { wired, node, plan }
    }

    /// The nets of an agent's classes, without the last classes, which have no port.
    fn classes(self) -> Result<Classes<'a>, AllocError>
        requires { IsAgent self.net self.node }
        ensures { IfOk result (λ classes. classes ≡ until self.entry (1 + (ports_of self.entry.net self.entry.node - 1))) }
    {
        let BegunPlan { wired, node, plan } = self;
        let mut classes = Classes {
            wired,
            node,
            plan,
            port: 1,
            begun: 0,
        };
        for port in 1..wired.ports(node) {
            classes = classes.port()?;
        }
        Ok(classes)
    }

    /// An agent: the nets of its classes, the graft, and the component at its principal port.
    fn agent(self) -> Result<JoinedPlan<'a>, AllocError>
        requires { IsAgent self.net self.node }
        ensures { IfOk result (λ joined. joined ≡ after_ports self.entry) }
    {
        let ports = self.wired.ports(self.node);
        let joined = self.classes()?.graft()?;
        if ports > 0 {
            joined.port(0)
        } else {
            Ok(joined)
        }
    }

    /// A class node, and the components at its ports.
    fn class(self) -> Result<JoinedPlan<'a>, AllocError>
        requires { IsClass self.net self.node }
        ensures { IfOk result (λ joined. joined ≡ after_ports self.entry) }
    {
        let BegunPlan { wired, node, plan } = self;
        let ports = wired.ports(node);
        let plan = plan.make(StackStep::Given(node as u32))?;
        let mut joined = JoinedPlan {
            wired,
            node,
            plan,
            turn: 0,
        };
        for port in 0..ports {
            joined = joined.port(port)?;
        }
        // No port of a class node has the turn after these.
        joined.turn = ports + 1;
        Ok(joined)
    }

    /// The components that the node touches.
    fn touched(self) -> Result<JoinedPlan<'a>, AllocError>
        ensures { IfOk result (λ joined. joined ≡ after_ports self.entry) }
    {
        if self.wired.is_agent(self.node) {
            self.agent()
        } else {
            self.class()
        }
    }
}

impl<'a> Classes<'a> {
    /// The first port of a class; the classes between it and the last one have no port.
    fn first_port(self, class: usize) -> Result<Classes<'a>, AllocError>
        requires port { self.next < ports_of self.net self.node }
        requires class { class ≡ class_in self.net self.node self.next }
        requires later { class_in self.net self.node (self.next - 1) < class }
        ensures { IfOk result (λ classes. classes ≡ later self.entry) }
    {
        let Classes {
            wired,
            node,
            plan,
            port,
            begun,
        } = self;
        let skipped = skip(plan, class - begun - 1)?;
        // Some task is added: a component that touches ports of two classes would keep the node from splitting.
        let (plan, _) = skipped.port(wired, node, port)?;
        Ok(Classes {
            wired,
            node,
            plan,
            port: port + 1,
            begun: class,
        })
    }

    /// A further port of a class.
    fn further_port(self) -> Result<Classes<'a>, AllocError>
        requires port { self.next < ports_of self.net self.node }
        requires class { class_in self.net self.node self.next ≡ class_in self.net self.node (self.next - 1) }
        ensures { IfOk result (λ classes. classes ≡ later self.entry) }
    {
        let Classes {
            wired,
            node,
            plan,
            port,
            begun,
        } = self;
        let (next, came) = plan.port(wired, node, port)?;
        let plan = if came {
            next.make(StackStep::Mix)?
        } else {
            next
        };
        Ok(Classes {
            wired,
            node,
            plan,
            port: port + 1,
            begun,
        })
    }

    /// The next port.
    fn port(self) -> Result<Classes<'a>, AllocError>
        requires { self.next < ports_of self.net self.node }
        ensures { IfOk result (λ classes. classes ≡ later self.entry) }
    {
        let class = self.wired.class(self.node, self.port);
        if class > self.begun {
            self.first_port(class)
        } else {
            self.further_port()
        }
    }

    /// Grafts the agent on its classes, of which the last ones have no port.
    fn graft(self) -> Result<JoinedPlan<'a>, AllocError>
        requires { self.next ≡ 1 + (ports_of self.net self.node - 1) }
        ensures { IfOk result (λ joined. joined ≡ self.entry) }
    {
        let Classes {
            wired,
            node,
            plan,
            port,
            begun,
        } = self;
        let classes = wired.classes(node);
        let filled = skip(plan, classes.saturating_sub(begun))?;
        let plan = filled.make(StackStep::Graft(node as u32, classes))?;
        Ok(JoinedPlan {
            wired,
            node,
            plan,
            turn: port,
        })
    }
}

impl<'a> JoinedPlan<'a> {
    /// The component that a port touches, unless it is derived, cut to the earlier ones.
    fn port(self, port: usize) -> Result<JoinedPlan<'a>, AllocError>
        requires port { port < ports_of self.net self.node }
        requires turn { self.next ≡ turn self.net self.node port }
        requires principal { IsAgent self.net self.node → port ≡ 0 }
        ensures { IfOk result (λ joined. joined ≡ later self.entry) }
    {
        let JoinedPlan {
            wired,
            node,
            plan,
            turn,
        } = self;
        let (wire, _) = wired.partner(node, port);
        let fate = plan.fate(turn);
        let plan = plan.join(fate, StackStep::Cut(wire))?;
        Ok(JoinedPlan {
            wired,
            node,
            plan,
            turn: turn + 1,
        })
    }

    /// The components that the node doesn't touch, beside the earlier ones.
    fn others(self) -> Result<JoinedPlan<'a>, AllocError>
        requires { self.next ≡ suc (ports_of self.net self.node) }
        ensures { IfOk result (λ whole. whole ≡ at_end self.entry) }
    {
        let JoinedPlan {
            wired,
            node,
            plan,
            turn,
        } = self;
        let count = wired.nodes();
        if plan.is_of_piece() {
            return Ok(JoinedPlan {
                wired,
                node,
                plan,
                turn: turn + count,
            });
        }
        let mut whole = plan;
        for near in 0..count {
            let fate = whole.fate(turn + near);
            whole = whole.join(fate, StackStep::Mix)?;
        }
        Ok(JoinedPlan {
            wired,
            node,
            plan: whole,
            turn: turn + count,
        })
    }
}

/// The tasks of a part that its head splits.
pub(crate) fn tasks_of<'a>(
    alloc: Global,
    wired: &'a Wired<'a>,
    part: Headed<'a>,
) -> Result<Items<Task<'a>>, AllocError>
    requires net { part.net ≡ wired.now }
    requires first { IsFirst wired.now part.nodes part.head }
    requires piece { IsPieceOrWhole wired.now part.nodes }
    ensures steps { IfOk result (λ tasks. PutsShapes wired.now tasks (shape (nodes_in part.entry.nodes) no_wires ∷ [])) }
    ensures takes { IfOk result (λ tasks. TakesPart wired.now (nodes_in part.entry.nodes) tasks) }
    ensures net { IfOk result (λ tasks. IsOrderly wired.now) }
    ensures lists { IfOk result (λ tasks. Lists wired.now part.entry.head (nodes_in part.entry.nodes) 0 tasks) }
    ensures sized { IfOk result (AreSizedTasks wired.now) }
{
    let begun = BegunPlan::of(alloc, wired, part);
    let touched = begun.touched()?;
    let whole = touched.others()?;
    Ok(whole.plan.into_tasks())
}
