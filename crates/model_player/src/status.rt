/// How a run of the program ends.
#[derive(Clone, Copy, Debug, PartialEq, Eq)]
pub enum Status {
    /// The output was written whole.
    Ok,
    /// The words are no command.
    Usage,
    /// A file of the command could not be read.
    Input,
    /// The constants file is refused.
    Constants,
    /// The film is refused.
    Film,
    /// The script or the schedule is refused.
    Script,
    /// A sink failed.
    Output,
    /// Memory ran out.
    Memory,
    /// A file of the command has more bytes than its limit.
    TooLong,
}

impl Status {
    ghost use Rattle.std.specs.Prelude.{◌≡◌};
    ghost use Rattle.model_player.specs.Commands.{exit_code};

    /// The exit code: 0 for `Ok`, then 2 to 9 in order.
    pub fn code(self) -> u8
        ensures { result ≡ exit_code self }
    {
        match self {
            Status::Ok => 0,
            Status::Usage => 2,
            Status::Input => 3,
            Status::Constants => 4,
            Status::Film => 5,
            Status::Script => 6,
            Status::Output => 7,
            Status::Memory => 8,
            Status::TooLong => 9,
        }
    }
}
