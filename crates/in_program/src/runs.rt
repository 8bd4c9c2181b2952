ghost use Rattle.std.specs.Prelude.{◌≡◌, IfOk};
ghost use Rattle.in_run.specs.declared.stops.Stop.TheVariants.{Full};
ghost use Rattle.in_program.specs.Lines.{class_name, run_lines, start_line};

use in_run::{CellClass, Stop};
use std::alloc::{AllocError, Global};

fn class_name(class: CellClass) -> &'static str
    ensures { result.now ≡ class_name class }
{
    match class {
        CellClass::Small => "small",
        CellClass::Large => "large",
        CellClass::Wide => "wide",
    }
}

/// The lines after the net of a run that stopped for lack of cells.
fn full_lines(
    alloc: Global,
    interactions: u64,
    class: CellClass,
    need: u32,
    free: u32,
) -> Result<Vec<u8>, AllocError>
    ensures { IfOk result (λ lines. lines.items ≡ run_lines interactions (Full class need free)) }
{
    let name = class_name(class);
    let lines = format!(in alloc;
        "interactions: {interactions}\nstop: full {name} need {need} free {free}\n"
    )?;
    Ok(lines.into_bytes())
}

/// The lines after a printed net: the number of interactions, and the stop.
pub fn run_lines(alloc: Global, interactions: u64, stop: Stop) -> Result<Vec<u8>, AllocError>
    ensures { IfOk result (λ lines. lines.items ≡ run_lines interactions stop) }
{
    let lines = match stop {
        Stop::Normal => format!(in alloc; "interactions: {interactions}\nstop: normal\n")?,
        Stop::Limit => format!(in alloc; "interactions: {interactions}\nstop: limit\n")?,
        Stop::Full { class, need, free } => {
            return full_lines(alloc, interactions, class, need, free);
        }
    };
    Ok(lines.into_bytes())
}

/// The line of a net with more agents of a class than cells.
pub fn start_line(
    alloc: Global,
    class: CellClass,
    need: u32,
    free: u32,
) -> Result<Vec<u8>, AllocError>
    ensures { IfOk result (λ line. line.items ≡ start_line class need free) }
{
    let name = class_name(class);
    let line = format!(in alloc; "start: full {name} need {need} free {free}\n")?;
    Ok(line.into_bytes())
}
