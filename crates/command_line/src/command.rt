//! The commands.

/// A version of an image: how a partition's blocks stand in it.
#[derive(Clone, Copy, Debug, PartialEq, Eq)]
pub enum ImageVersion {
    /// A write is logged, and then made in place: four syncs.
    One,
    /// A write goes into the slot that isn't read: two syncs where its guest writes on.
    Two,
}

/// What the program is to do, with the paths of the files that the words name.
#[derive(Clone, Copy, Debug, PartialEq, Eq)]
pub enum Command<'a> {
    /// Makes a fresh image of a board.
    Format {
        /// The path of the board file.
        board: &'a str,
        /// Whether a file that is there is refused.
        only_new: bool,
        /// The version that the image is to have.
        version: ImageVersion,
    },
    /// Prints what the image of a board holds.
    Show {
        /// The path of the board file.
        board: &'a str,
        /// Whether it is printed in JSON.
        as_json: bool,
    },
    /// Makes the image of a board one of version 2.
    Upgrade {
        /// The path of the board file.
        board: &'a str,
    },
    /// Performs a script on the guests of a board, one line after another.
    Run {
        /// The path of the board file.
        board: &'a str,
        /// The path of the script.
        script: &'a str,
    },
    /// Performs a script on the guests of a board, each guest's lines beside the others'.
    Serve {
        /// The path of the board file.
        board: &'a str,
        /// The path of the script.
        script: &'a str,
    },
}

impl<'a> Command<'a> {
    /// The path of the board file.
    pub fn board(self) -> &'a str {
        match self {
            Command::Format { board, .. } => board,
            Command::Show { board, .. } | Command::Upgrade { board } => board,
            Command::Run { board, .. } | Command::Serve { board, .. } => board,
        }
    }

    /// The path of the script, of a command that has one.
    pub fn script(self) -> Option<&'a str> {
        match self {
            Command::Run { script, .. } | Command::Serve { script, .. } => Some(script),
            _ => None,
        }
    }
}
