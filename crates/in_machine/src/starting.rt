ghost use Rattle.std.specs.Prelude.{◌≡◌};

use in_arena::CellClass;
use std::alloc::AllocError;

/// The reason why there is no machine: the program's net has more agents of a class than cells, or memory ran out.
#[derive(Debug, Drop)]
pub enum StartFault {
    Full {
        class: CellClass,
        need: u32,
        free: u32,
    },
    Memory(AllocError),
}

impl From<AllocError> for StartFault {
    ghost use Rattle.in_machine.specs.declared.starting.StartFault.TheVariants as start;

    ghost from_gives = { λ e r. r ≡ start.Memory e };

    fn from(error: AllocError) -> StartFault {
        StartFault::Memory(error)
    }
}
