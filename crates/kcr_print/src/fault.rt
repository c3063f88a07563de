//! Why a report was not written whole.
use kcr_base::Refusal;

/// A write failed, or took no byte.
#[derive(Clone, Copy)]
pub struct WriteFailed;

/// Why a report was not written whole. What was written is a prefix of it.
#[derive(Clone, Copy)]
pub enum PrintFault {
    /// The register refused: the ceremony is unknown (12), memory runs out (33), the device failed (34), or the
    /// register is broken (35).
    Refused(Refusal),
    /// A write failed, or took no byte.
    Write,
}

impl From<WriteFailed> for PrintFault {
    ghost use Rattle.std.specs.Prelude.{◌≡◌};
    ghost use Rattle.kcr_print.specs.declared.fault.PrintFault.TheVariants.{Write};

    ghost from_gives = { λ _ e. e ≡ Write };

    fn from(_error: WriteFailed) -> PrintFault {
        PrintFault::Write
    }
}

impl From<Refusal> for PrintFault {
    ghost use Rattle.std.specs.Prelude.{◌≡◌};
    ghost use Rattle.kcr_print.specs.declared.fault.PrintFault.TheVariants.{Refused};

    ghost from_gives = { λ refusal e. e ≡ Refused refusal };

    fn from(refusal: Refusal) -> PrintFault {
        PrintFault::Refused(refusal)
    }
}
