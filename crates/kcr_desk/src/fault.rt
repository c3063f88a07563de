//! Why a stream was not answered to its end.
use kcr_print::WriteFailed;
use std::alloc::AllocError;

/// Why a stream was not answered to its end. What was written is a prefix of the answers of its messages.
#[derive(Clone, Copy, PartialEq, Eq)]
pub enum DeskFault {
    /// A read failed, or more than 1,000,000 reads would be needed.
    Read,
    /// A write failed, or took no byte.
    Write,
    /// No memory was found to take a head or a body in.
    Memory,
}

impl From<AllocError> for DeskFault {
    ghost use Rattle.std.specs.Prelude.{◌≡◌};
    ghost use Rattle.kcr_desk.specs.declared.fault.DeskFault.TheVariants.{Memory};

    ghost from_gives = { λ _ e. e ≡ Memory };

    fn from(_error: AllocError) -> DeskFault {
        DeskFault::Memory
    }
}

impl From<WriteFailed> for DeskFault {
    ghost use Rattle.std.specs.Prelude.{◌≡◌};
    ghost use Rattle.kcr_desk.specs.declared.fault.DeskFault.TheVariants.{Write};

    ghost from_gives = { λ _ e. e ≡ Write };

    fn from(_error: WriteFailed) -> DeskFault {
        DeskFault::Write
    }
}
