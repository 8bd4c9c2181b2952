ghost use Rattle.std.specs.Prelude.{◌≡◌, ◌++◌, IfOk, OnOk, slice_range};
ghost use Rattle.in_program.specs.Lines.{accepted_line, code_name, line_end, text_at, other_at, refused_line};

use in_check::ProgramCounts;
use in_syntax::{Code, Place, Refusal};
use std::alloc::{AllocError, Global};

/// The line of an accepted program.
pub fn accepted_line(alloc: Global, counts: ProgramCounts) -> Result<Vec<u8>, AllocError>
    ensures { IfOk result (λ line. line.items ≡ accepted_line counts) }
{
    let ProgramCounts {
        types,
        symbols,
        rules,
        agents,
    } = counts;
    let line = format!(in alloc;
        "accepted: {types} types, {symbols} symbols, {rules} rules, {agents} agents\n"
    )?;
    Ok(line.into_bytes())
}

fn code_name(code: Code) -> &'static str
    ensures { result.now ≡ code_name code }
{
    match code {
        Code::E01 => "E01",
        Code::E02 => "E02",
        Code::E03 => "E03",
        Code::E04 => "E04",
        Code::E05 => "E05",
        Code::E06 => "E06",
        Code::E07 => "E07",
        Code::E08 => "E08",
        Code::E09 => "E09",
        Code::E10 => "E10",
        Code::E11 => "E11",
        Code::E12 => "E12",
        Code::E13 => "E13",
        Code::E14 => "E14",
        Code::E15 => "E15",
    }
}

/// The bytes of the text at a place, as far as the text goes.
fn part(text: &[u8], place: Place) -> &[u8]
    ensures { result.now ≡ slice_range text.now place.from place.to }
{
    let to = (place.to as usize).min(text.len());
    &text[(place.from as usize).min(to)..to]
}

/// Adds a colon and the text at the place, if the place isn't empty.
fn add_text(bytes: &mut Vec<u8>, text: &[u8], place: Place) -> Result<(), AllocError>
    ensures { OnOk result (bytes.new.items ≡ bytes.old.items ++ text_at text.now place) }
{
    if place.from != place.to {
        bytes.extend_from_slice(b": ")?;
        bytes.extend_from_slice(part(text, place))?;
    }
    Ok(())
}

/// Adds a comma and the text at the other place, if there is one.
fn add_other(bytes: &mut Vec<u8>, text: &[u8], other: Option<Place>) -> Result<(), AllocError>
    ensures { OnOk result (bytes.new.items ≡ bytes.old.items ++ other_at text.now other) }
{
    if let Some(place) = other {
        bytes.extend_from_slice(b", ")?;
        bytes.extend_from_slice(part(text, place))?;
    }
    Ok(())
}

/// Adds the text at the place, the text at the other place, and the end of the line.
fn add_places(
    bytes: &mut Vec<u8>,
    text: &[u8],
    place: Place,
    other: Option<Place>,
) -> Result<(), AllocError>
    ensures { OnOk result (bytes.new.items ≡ bytes.old.items ++ (text_at text.now place ++ (other_at text.now other ++ line_end))) }
{
    add_text(bytes, text, place)?;
    add_other(bytes, text, other)?;
    bytes.push(b'\n')?;
    Ok(())
}

/// The line of a refused text: the code, the line and the column, the text at the place, if the place isn't empty, and the text at the other place,
/// if there is one.
pub fn refused_line(alloc: Global, text: &[u8], refusal: Refusal) -> Result<Vec<u8>, AllocError>
    ensures { IfOk result (λ line. line.items ≡ refused_line text.now refusal) }
{
    let Refusal { code, place, other } = refusal;
    let Place { line, col, .. } = place;
    let name = code_name(code);
    let mut bytes = format!(in alloc; "refused {name} at {line}:{col}")?.into_bytes();
    add_places(&mut bytes, text, place, other)?;
    Ok(bytes)
}
