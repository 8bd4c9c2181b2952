ghost use Rattle.std.specs.Prelude.{◌≡◌, IfOk};
ghost use Rattle.in_syntax.specs.Refusals.{code_number};
ghost use Rattle.in_diagnosis.specs.Data.{data_head};

use in_syntax::{Code, Place, Refusal};
use std::alloc::{AllocError, Global};

/// The number of a code: 1 for E01, 15 for E15.
pub fn code_number(code: Code) -> u32
    ensures { result ≡ code_number code }
{
    match code {
        Code::E01 => 1,
        Code::E02 => 2,
        Code::E03 => 3,
        Code::E04 => 4,
        Code::E05 => 5,
        Code::E06 => 6,
        Code::E07 => 7,
        Code::E08 => 8,
        Code::E09 => 9,
        Code::E10 => 10,
        Code::E11 => 11,
        Code::E12 => 12,
        Code::E13 => 13,
        Code::E14 => 14,
        Code::E15 => 15,
    }
}

/// The beginning of the data of a refusal: the number of the form, the number of the code, and the place.
pub(crate) fn head(alloc: Global, refusal: Refusal) -> Result<Vec<u8>, AllocError>
    ensures { IfOk result (λ bytes. bytes.items ≡ data_head refusal) }
{
    let Refusal { code, place, .. } = refusal;
    let Place {
        from,
        to,
        line,
        col,
    } = place;
    let number = code_number(code);
    let text = format!(in alloc;
        "{{\"format\":1,\"code\":{number},\"line\":{line},\"column\":{col},\"bytes\":[{from},{to}],"
    )?;
    Ok(text.into_bytes())
}
