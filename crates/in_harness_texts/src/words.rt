//! The program's words. The first is its name.

/// The word at this index; empty if there is none.
pub fn word(words: &[String], at: usize) -> &str {
    match words.get(at) {
        Some(word) => word.as_str(),
        None => "",
    }
}

/// The number at this index; 0 if there is none.
pub fn number(words: &[String], at: usize) -> u64 {
    word(words, at).parse::<u64>().unwrap_or(0)
}

/// The same of a number of 32 bits.
pub fn small(words: &[String], at: usize) -> u32 {
    word(words, at).parse::<u32>().unwrap_or(0)
}
