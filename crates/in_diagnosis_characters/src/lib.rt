//! The names of characters that begin no name of a program: signs, digits, marks, spaces and hidden characters.
//!
//! There is one call, and a table of some 14,000 lines, which `bench/characters` writes from the data of Unicode 18.
#![tactic(auto)]

mod tables;

use crate::tables::table_of;
use std::str;

/// The name in a line, if the line is that of the number.
fn name_on(line: &'static str, number: u32) -> Option<&'static str> {
    let (digits, name) = line.split_once(' ')?;
    if u32::from_str_radix(digits, 16) == Ok(number) {
        Some(name)
    } else {
        None
    }
}

/// The name of a character by Unicode 18, in small letters except for proper names, such as "leftwards arrow" or "Greek question mark".
/// `None` for characters that may begin an identifier (`XID_Start`), and for those without a name: private and unassigned ones. A correction
/// replaces a faulty name; a few characters have their better known names, such as "slash" and "byte order mark".
///
/// That characters have names here is this project's own choice: diagnoses write them. No clause says which character has which name.
pub fn name_of(c: char) -> Option<&'static str> {
    let number = u32::from(c);
    let names = str::from_utf8(table_of(number)).unwrap_or("");
    for line in names.lines() {
        if let Some(name) = name_on(line, number) {
            return Some(name);
        }
    }
    None
}
