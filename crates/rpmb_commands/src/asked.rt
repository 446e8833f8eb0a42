//! The commands.
ghost use Rattle.std.specs.Prelude.{◌≡◌};
ghost use Rattle.rpmb_commands.specs.Performing.{asked_of};

/// The request whose line a command makes.
#[derive(Clone, Copy)]
pub enum Making {
    /// One that programs a key.
    ProgramKey,
    /// One for the write counter.
    ReadCounter,
    /// One that reads blocks.
    Read,
    /// One for the result of a key or a write.
    Outcome,
}

/// What a command is to do.
#[derive(Clone, Copy)]
pub enum Asked {
    /// Make the line of one request.
    Make(Making),
    /// Make the lines that write blocks.
    Write,
    /// Say what replies are.
    Explain,
    /// Write the blocks of a read.
    ReadData,
    /// Say whether a board file and a script are read.
    Check,
    /// No command has the name.
    Unknown,
}

/// The command of a name.
#[tactic(auto, unfolding(crate::specs::Performing::asked_of))]
pub fn asked_of(name: &str) -> Asked
    ensures { result ≡ asked_of name.now }
{
    match name {
        "program-key" => Asked::Make(Making::ProgramKey),
        "read-counter" => Asked::Make(Making::ReadCounter),
        "write" => Asked::Write,
        "read" => Asked::Make(Making::Read),
        "result" => Asked::Make(Making::Outcome),
        "explain" => Asked::Explain,
        "read-data" => Asked::ReadData,
        "check" => Asked::Check,
        _ => Asked::Unknown,
    }
}
