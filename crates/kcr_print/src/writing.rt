//! Writing whole pieces, by one loop over `write`.
ghost use Rattle.std.specs.Prelude.{◌≡◌, ◌<◌, OnErr, OnOk};
ghost use Rattle.kcr_base.specs.Counted.{inner_of, failures_of};
ghost use Rattle.kcr_print.specs.Written.{Writes};

use crate::fault::WriteFailed;
use kcr_base::Counted;
use std::io::Write;

/// Writes the whole piece. After a fault a prefix of it was written.
pub fn write_whole<W: Write>(writer: &mut Counted<W>, piece: &[u8]) -> Result<(), WriteFailed>
    ensures written { Writes result (W.contents (inner_of writer.old)) (W.contents (inner_of writer.new)) piece.now }
    ensures calm { OnOk result (failures_of writer.new ≡ failures_of writer.old) }
    ensures fault { OnErr result (failures_of writer.old < failures_of writer.new) }
{
    let mut at = 0;
    while at < piece.len() {
        match writer.write(&piece[at..]) {
            Ok(0) => return Err(WriteFailed),
            Ok(count) => at += count,
            Err(_) => return Err(WriteFailed),
        }
    }
    Ok(())
}
