ghost use Rattle.std.specs.Prelude.{◌≡◌};
ghost use Rattle.std.specs.Option.{option_map};
ghost use Rattle.fmf.specs.Statuses.{exit_code, fixed_line};

/// How a run ended. `Memory` is want of memory, the one answer that nothing explains; `Rejected` says that a certificate isn't
/// good.
#[derive(Clone, Copy, Debug, PartialEq, Eq)]
pub enum Status {
    Done,
    Usage,
    Script,
    ReadFault,
    WriteFault,
    Memory,
    Rejected,
}

impl Status {
    /// The exit code of the program.
    pub fn code(self) -> u8
        ensures { result ≡ exit_code self }
    {
        match self {
            Status::Done => 0,
            Status::Usage => 1,
            Status::Script => 2,
            Status::ReadFault => 3,
            Status::WriteFault => 4,
            Status::Memory => 5,
            Status::Rejected => 10,
        }
    }

    /// The line that the program prints on standard error, if any.
    pub fn message(self) -> Option<&'static str>
        ensures { option_map (λ m. m.now) result ≡ fixed_line self }
    {
        match self {
            Status::Done | Status::Script | Status::Rejected => None,
            Status::Usage => Some("fmf: usage"),
            Status::ReadFault => Some("fmf: read fault"),
            Status::WriteFault => Some("fmf: write fault"),
            Status::Memory => Some("fmf: out of memory"),
        }
    }
}
