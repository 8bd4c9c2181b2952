use in_program::Status;

/// An answer to a text: bytes, and the program's status.
#[derive(Drop)]
pub struct Answer {
    pub bytes: Vec<u8>,
    pub status: Status,
}

/// The statuses that this crate itself returns: the program has them too.
pub const ACCEPTED: Status = Status(0);

pub const REFUSED: Status = Status(1);

pub const WRONG_WORDS: Status = Status(2);

pub const LIMIT: Status = Status(3);

pub const FULL: Status = Status(4);

pub const MEMORY: Status = Status(5);

pub const FAULT: Status = Status(6);
