ghost use Rattle.std.specs.Prelude.{◌≡◌};
ghost use Rattle.g4exact.specs.Ends.{code_of};

/// How a run ends.
#[derive(Clone, Copy, Debug, PartialEq, Eq)]
pub enum Status {
    Clean = 0,
    Refuted = 1,
    TextFault = 2,
    WordsFault = 3,
    ReadFault = 4,
    WriteFault = 5,
    NoMemory = 6,
}

/// The program's exit status.
pub fn exit_code(status: Status) -> u8
    ensures { result ≡ code_of status }
{
    status as u8
}
