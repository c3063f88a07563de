//! Codes with commas between them.
ghost use Rattle.std.specs.Prelude.{◌≡◌, ◌++◌, OnOk, string_bytes};
ghost use Rattle.kcr_history.specs.Texts;

use kcr_base::lists::ListElement;
use std::alloc::AllocError;

/// Writes codes with commas between them behind a text.
pub(crate) fn push_codes<T: ListElement>(text: &mut String, codes: &[T]) -> Result<(), AllocError>
    ensures { OnOk result (string_bytes text.new ≡ string_bytes text.old ++ Texts.listed (T.texts codes.now)) }
{
    let mut separator = "";
    for code in codes {
        text.push_str(separator)?;
        text.push_str(code.code())?;
        separator = ",";
    }
    Ok(())
}
