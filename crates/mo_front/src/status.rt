//! How the program ended.
ghost use Rattle.std.specs.Prelude.{◌≡◌};

/// How the program ended.
#[derive(Clone, Copy, Debug, PartialEq, Eq)]
pub enum Status {
    /// The text was written whole.
    Done,
    /// A rule is broken, and the line that names it was written.
    Refused,
    /// Not every equation or not every unknown can be assigned, and the text was written.
    Singular,
    /// The words are of no form that the program knows; nothing was written.
    Usage,
    /// A file that the words name could not be read; nothing was written.
    ReadFault,
    /// The text could not be written whole; some of its first bytes were.
    WriteFault,
    /// Memory was refused; nothing was written.
    NoMemory,
    /// A printed report does not hold, and the line that says where was written.
    Differs,
}

impl Status {
    ghost use Rattle.mo_front.specs.Run.{status_number};

    /// The number that the program ends with.
    pub fn number(self) -> u8
        ensures { result ≡ status_number self }
    {
        match self {
            Status::Done => 0,
            Status::Refused => 1,
            Status::Singular => 2,
            Status::Usage => 3,
            Status::ReadFault => 4,
            Status::WriteFault => 5,
            Status::NoMemory => 6,
            Status::Differs => 7,
        }
    }
}
