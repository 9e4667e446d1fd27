use model_cursor::Reply;

/// What a lane's player is told. A lane has its own cursors, of the numbers 0 to `GREATEST_CURSOR`,
/// all closed at first.
#[derive(Clone, Copy, Debug, PartialEq, Eq)]
pub enum Command {
    /// To open a cursor at the beginning of the line.
    Open { c: u8 },
    /// To give at most so many of the frames that follow, 1 to `GREATEST_READ`.
    Read { c: u8, n: u32 },
    /// To go to the frame of this number.
    Seek { c: u8, p: u64 },
    /// To go to the frame of this number, and over to it from the frames that follow.
    Lap { c: u8, p: u64 },
    /// To go over to where the new cursor `d` is from the frames that follow at the old cursor `c`,
    /// which stays.
    Cross { c: u8, d: u8 },
    /// To tell where a cursor stands.
    Tell { c: u8 },
    /// To close a cursor.
    Close { c: u8 },
}

/// The first word of a line.
#[derive(Clone, Copy, Debug, PartialEq, Eq)]
pub enum Verb {
    Lane,
    Open,
    Read,
    Seek,
    Lap,
    Cross,
    Tell,
    Close,
}

/// What a line of a script says.
#[derive(Clone, Copy, Debug, PartialEq, Eq)]
pub enum Line {
    /// A lane begins.
    Lane,
    /// The lane has this command.
    Gives { command: Command },
}

/// What is answered to a command.
#[derive(Debug, Drop)]
pub enum Answer {
    /// The cursor was opened, or closed, or crossed.
    Ok,
    /// The cursor was to be opened, and is open.
    AlreadyOpen,
    /// The cursor isn't open, or one of two.
    NoCursor,
    /// The cursor stands before the frame of this number, or at the end.
    Told { place: u64 },
    /// What the cursor answered to a read, a seek or a lap.
    Given { reply: Reply },
}
