//! A diagnosis, part by part, and its text or data.
use crate::data::add_parts;
use crate::edits::Edit;
use crate::excerpts::{add_excerpt, text_at};
use crate::slots::Slot;
use crate::words::Words;
use in_syntax::{Place, TextLimits};
use std::alloc::{AllocError, Global};

/// The kind of a part of a diagnosis: an error, a note or help.
#[derive(Clone, Copy, PartialEq, Eq)]
pub enum Kind {
    Error,
    Note,
    Help,
}

/// A sentence of a diagnosis, and the place of the text for it.
#[derive(Drop)]
pub(crate) struct Remark {
    pub(crate) kind: Kind,
    pub(crate) place: Option<Place>,
    pub(crate) sentence: String,
}

/// A change of the text that the part of this number suggests, and whether a check of the text with all changes of that part found the program
/// accepted; without such a check, it is false.
#[derive(Drop)]
pub(crate) struct Remedy {
    pub(crate) part: usize,
    pub(crate) edit: Edit,
    pub(crate) accepted: bool,
}

/// A diagnosis of a program's text that is being made. It keeps that memory ran out, and `into_text` returns this: so code that makes one has one
/// way out.
#[derive(Drop)]
pub struct Report<'a> {
    /// The allocator of its memory.
    pub alloc: Global,
    /// The limits of the text.
    pub limits: TextLimits,
    text: &'a [u8],
    parts: Vec<Remark>,
    remedies: Vec<Remedy>,
    failure: Option<AllocError>,
}

impl<'a> Report<'a> {
    /// A diagnosis of a text, with no part yet.
    pub fn new(alloc: Global, limits: TextLimits, text: &'a [u8]) -> Report<'a> {
        Report {
            alloc,
            limits,
            text,
            parts: Vec::new(alloc),
            remedies: Vec::new(alloc),
            failure: None,
        }
    }

    /// The text.
    pub fn text(&self) -> &'a [u8] {
        self.text
    }

    /// The text at a place.
    pub(crate) fn at(&self, place: Place) -> &'a str {
        text_at(self.text, place)
    }

    /// Keeps that memory ran out, so that there will be no diagnosis: `into_text` returns the error, or the last one of several.
    pub fn fail(&mut self, error: AllocError) {
        self.failure = Some(error);
    }

    /// Keeps that memory ran out, if it did, as `fail` does.
    pub fn keep(&mut self, done: Result<(), AllocError>) {
        if let Err(error) = done {
            self.fail(error);
        }
    }

    /// Adds a part.
    fn push(&mut self, kind: Kind, place: Option<Place>, words: Words) -> Result<(), AllocError> {
        let sentence = words.into_text()?;
        self.parts.push(Remark {
            kind,
            place,
            sentence,
        })?;
        Ok(())
    }

    /// Adds a part with these words.
    pub fn add(&mut self, kind: Kind, place: Option<Place>, words: Words) {
        let done = self.push(kind, place, words);
        self.keep(done);
    }

    /// Adds a part with this sentence, which has no slot.
    fn add_plain(&mut self, kind: Kind, place: Option<Place>, sentence: &str) {
        let mut words = Words::new(self.alloc);
        words.say(sentence);
        self.add(kind, place, words);
    }

    /// Adds a part with this sentence, and this text in its one slot.
    fn add_on(&mut self, kind: Kind, place: Option<Place>, sentence: &str, text: &str) {
        let mut words = Words::new(self.alloc);
        words.fill_one(sentence, text);
        self.add(kind, place, words);
    }

    /// Adds a part with this sentence, and these values in its slots.
    fn add_with(&mut self, kind: Kind, place: Option<Place>, sentence: &str, slots: &[Slot]) {
        let mut words = Words::new(self.alloc);
        words.fill(sentence, slots);
        self.add(kind, place, words);
    }

    /// Adds an error at a place of the text: a sentence without a slot.
    pub fn wrong(&mut self, place: Place, sentence: &str) {
        self.add_plain(Kind::Error, Some(place), sentence);
    }

    /// The same with a text in the one slot of the sentence.
    pub fn wrong_on(&mut self, place: Place, sentence: &str, text: &str) {
        self.add_on(Kind::Error, Some(place), sentence, text);
    }

    /// The same with values in the slots of the sentence.
    pub fn wrong_with(&mut self, place: Place, sentence: &str, slots: &[Slot]) {
        self.add_with(Kind::Error, Some(place), sentence, slots);
    }

    /// Adds a note at a place of the text: a sentence without a slot.
    pub fn note(&mut self, place: Place, sentence: &str) {
        self.add_plain(Kind::Note, Some(place), sentence);
    }

    /// The same with a text in the one slot of the sentence.
    pub fn note_on(&mut self, place: Place, sentence: &str, text: &str) {
        self.add_on(Kind::Note, Some(place), sentence, text);
    }

    /// The same with values in the slots of the sentence.
    pub fn note_with(&mut self, place: Place, sentence: &str, slots: &[Slot]) {
        self.add_with(Kind::Note, Some(place), sentence, slots);
    }

    /// Adds help: a sentence without a slot.
    pub fn help(&mut self, sentence: &str) {
        self.add_plain(Kind::Help, None, sentence);
    }

    /// The same with a text in the one slot of the sentence.
    pub fn help_on(&mut self, sentence: &str, text: &str) {
        self.add_on(Kind::Help, None, sentence, text);
    }

    /// The same with values in the slots of the sentence.
    pub fn help_with(&mut self, sentence: &str, slots: &[Slot]) {
        self.add_with(Kind::Help, None, sentence, slots);
    }

    /// Adds a change of the text to the last part, which has to be there.
    fn push_change(&mut self, edit: Edit, accepted: bool) -> Result<(), AllocError> {
        let part = self.parts.len().saturating_sub(1);
        self.remedies.push(Remedy {
            part,
            edit,
            accepted,
        })?;
        Ok(())
    }

    /// Adds these changes of the text to the last part, as data, and whether the program is accepted with all of them.
    pub fn change_by(&mut self, edits: Vec<Edit>, accepted: bool) {
        for edit in edits {
            let done = self.push_change(edit, accepted);
            self.keep(done);
        }
    }

    /// Adds the change that replaces the text at this place by these words to the last part.
    pub(crate) fn change(&mut self, place: Place, words: &str) {
        match Edit::new(self.alloc, place, words) {
            Ok(edit) => {
                let done = self.push_change(edit, false);
                self.keep(done);
            }
            Err(error) => self.fail(error),
        }
    }

    /// The place of the error, which comes first.
    pub(crate) fn wrong_place(&self) -> Option<Place> {
        self.parts.first()?.place
    }

    /// The whole diagnosis. Refused only when out of memory, also if memory ran out while the diagnosis was made.
    pub fn into_text(self) -> Result<String, AllocError> {
        let Report {
            alloc,
            limits: _,
            text,
            parts,
            remedies: _,
            failure,
        } = self;
        match failure {
            None => text_of(alloc, text, parts.as_slice()),
            Some(error) => Err(error),
        }
    }

    /// The same as data: the members of a JSON object that hold the parts, and its end. Refused as the text is.
    pub fn into_data(self) -> Result<String, AllocError> {
        let Report {
            alloc,
            limits: _,
            text,
            parts,
            remedies,
            failure,
        } = self;
        match failure {
            None => data_of(alloc, text, parts.as_slice(), remedies.as_slice()),
            Some(error) => Err(error),
        }
    }
}

/// The data of these parts.
fn data_of(
    alloc: Global,
    text: &[u8],
    parts: &[Remark],
    remedies: &[Remedy],
) -> Result<String, AllocError> {
    let mut page = Words::new(alloc);
    add_parts(&mut page, text, parts, remedies);
    page.into_text()
}

/// The text of these parts.
fn text_of(alloc: Global, text: &[u8], parts: &[Remark]) -> Result<String, AllocError> {
    let mut page = Words::new(alloc);
    for part in parts {
        add_part(&mut page, text, part);
    }
    page.into_text()
}

/// The words before a sentence of this kind.
fn head(kind: Kind) -> &'static str {
    match kind {
        Kind::Error => "error: ",
        Kind::Note => "note: ",
        Kind::Help => "help: ",
    }
}

/// A part in a line, and under it the line of the text with a mark under the place.
fn add_part(page: &mut Words, text: &[u8], part: &Remark) {
    page.say(head(part.kind));
    page.say(part.sentence.as_str());
    page.say("\n");
    if let Some(place) = part.place {
        add_excerpt(page, text, place);
    }
}
