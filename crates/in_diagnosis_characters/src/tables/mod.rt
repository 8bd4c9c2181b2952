// Written by bench/characters. Do not edit.
mod from_0000;
mod from_116e0;
mod from_1db00;
mod from_2859;

/// The table in which a number would have its line.
pub(crate) fn table_of(number: u32) -> &'static [u8] {
    if number < 0x2859 {
        from_0000::names()
    } else if number < 0x116E0 {
        from_2859::names()
    } else if number < 0x1DB00 {
        from_116e0::names()
    } else {
        from_1db00::names()
    }
}
