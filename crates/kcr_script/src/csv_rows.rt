//! The rows of a script file, as `csv` reads them.
ghost use Rattle.std.specs.Prelude.{IfOk, IfErr, map};
ghost use Rattle.csv.specs.Records.{fields_of};
ghost use Rattle.kcr_script.specs.{Script.AreRows, CsvFault.IsNoLength};

use csv::{ByteRecord, Error, ReaderBuilder};
use std::alloc::Global;

/// Why the rows were not read.
#[derive(Drop)]
pub enum CsvFault {
    /// Memory ran out.
    Memory,
    /// What `csv` said.
    Csv(Error),
}

/// Every row of a text in the order of its lines, as `csv` reads it with default settings, but that no row is taken as
/// a header and rows may have any length. One byte order mark at the front is dropped. Commas, quotes and doubled
/// quotes are those of RFC 4180; outside quotes LF, CR LF or CR alone ends a line, and blank lines are no rows. The
/// only fault that can come is out of memory.
pub fn read_csv_rows(alloc: Global, text: &[u8]) -> Result<Vec<ByteRecord>, CsvFault>
    ensures rows { IfOk result (λ v. AreRows text.now (map fields_of v.items)) }
    ensures lengths { IfErr result IsNoLength }
{
    let rdr = ReaderBuilder::new()
        .has_headers(false)
        .flexible(true)
        .from_reader(alloc, text);
    let mut rows = Vec::new(alloc);
    for row in rdr.into_byte_records() {
        let row = match row {
            Ok(row) => row,
            Err(error) => return Err(CsvFault::Csv(error)),
        };
        if rows.push(row).is_err() {
            return Err(CsvFault::Memory);
        }
    }
    Ok(rows)
}
