//! Changes of a text.
use in_syntax::Place;
use std::alloc::{AllocError, Global};

/// A change of a text: these words replace its bytes from `from` up to `to`.
#[derive(Drop)]
pub struct Edit {
    pub from: usize,
    pub to: usize,
    pub words: String,
}

impl Edit {
    /// The change that replaces the text at this place by these words.
    pub(crate) fn new(alloc: Global, place: Place, words: &str) -> Result<Edit, AllocError> {
        let mut copied = String::new(alloc);
        copied.push_str(words)?;
        Ok(Edit {
            from: place.from as usize,
            to: place.to as usize,
            words: copied,
        })
    }
}
