ghost use Rattle.std.specs.Prelude.{◌≡◌, ◌++◌, decimal, OnOk};
ghost use Rattle.in_export.specs.Json.{bool_text, comma, key, name_text, numbers_text};

use std::alloc::{AllocError, Global};

/// Adds a number in decimal digits.
pub fn add_number(bytes: &mut Vec<u8>, alloc: Global, number: u32) -> Result<(), AllocError>
    ensures { OnOk result (bytes.new.items ≡ bytes.old.items ++ decimal number) }
{
    let text = format!(in alloc; "{number}")?;
    bytes.extend_from_slice(text.as_bytes())
}

/// Adds a name between quotation marks.
pub fn add_name(bytes: &mut Vec<u8>, name: &str) -> Result<(), AllocError>
    ensures { OnOk result (bytes.new.items ≡ bytes.old.items ++ name_text name.now) }
{
    bytes.push(b'"')?;
    bytes.extend_from_slice(name.as_bytes())?;
    bytes.push(b'"')?;
    Ok(())
}

/// Adds the name of a member of an object, and a colon.
pub fn add_key(bytes: &mut Vec<u8>, name: &str) -> Result<(), AllocError>
    ensures { OnOk result (bytes.new.items ≡ bytes.old.items ++ key name.now) }
{
    bytes.push(b'"')?;
    bytes.extend_from_slice(name.as_bytes())?;
    bytes.extend_from_slice(b"\":")
}

/// Adds `true` or `false`.
pub fn add_bool(bytes: &mut Vec<u8>, value: bool) -> Result<(), AllocError>
    ensures { OnOk result (bytes.new.items ≡ bytes.old.items ++ bool_text value) }
{
    if value {
        bytes.extend_from_slice(b"true")
    } else {
        bytes.extend_from_slice(b"false")
    }
}

/// Adds a comma, except before the element of number 0.
pub fn add_comma(bytes: &mut Vec<u8>, number: usize) -> Result<(), AllocError>
    ensures { OnOk result (bytes.new.items ≡ bytes.old.items ++ comma number) }
{
    if number > 0 {
        bytes.push(b',')?;
    }
    Ok(())
}

/// Adds an array of numbers.
pub fn add_numbers(bytes: &mut Vec<u8>, alloc: Global, numbers: &[u32]) -> Result<(), AllocError>
    ensures { OnOk result (bytes.new.items ≡ bytes.old.items ++ numbers_text numbers.now) }
{
    bytes.push(b'[')?;
    for index in 0..numbers.len() {
        add_comma(bytes, index)?;
        add_number(bytes, alloc, numbers[index])?;
    }
    bytes.push(b']')?;
    Ok(())
}
