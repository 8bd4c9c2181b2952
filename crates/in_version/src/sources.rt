/// The first twelve digits of the sum of the code of both programs, without comments, tests and this file. `dist/keep stamp` writes it.
pub const SOURCES: &str = "d5d6bddd565b";
