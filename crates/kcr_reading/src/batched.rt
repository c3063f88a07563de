//! Rows that are read several at a time, and given one by one.

ghost use Rattle.std.specs.Prelude.{◌≡◌, ◌++◌, []};
ghost use Rattle.kcr_history.specs.Tables as machine;
ghost use Rattle.kcr_tables.specs.Frame.{Reads};
ghost use Rattle.kcr_reading.specs.{Frame.OfOpenTables, Remaining.IsNextOf, Remaining.IsNextBatchOf, Remaining.read_ahead};

use crate::cursor::Cursor;
use kcr_base::Refusal;
use sqlite::{Alter, Transaction};
use std::alloc::Global;
use std::vec::IntoIter;

/// Where rows come from several at a time: the place that was reached.
pub trait BatchSource: Drop {
    ghost use Rattle.std.specs.Prelude.{List};

    /// What it gives several of.
    type Row: Drop;

    /// The rows that are still to come, by the tables.
    ghost to_come: { Self → machine.Tables → List Self.Row };

    /// The next rows, a few of them at most, or none past the last, if the store that serves holds these tables.
    /// Nothing is changed in the database. The error is `Memory` when out of memory, and else `Disk`: the device
    /// failed, or a row is invalid.
    fn next_batch<S: Alter>(
        &mut self,
        alloc: Global,
        tx: &mut Transaction<'_, S>,
    ) -> Result<Vec<Self::Row>, Refusal>
        ensures gives { OfOpenTables S.Store tx.old tx.new result
            (λ m rows. IsNextBatchOf (to_come self.old m) rows.items (to_come self.new m)) }
        ensures frame { Reads S.Store tx.old tx.new result };
}

/// The first of the rows that were read ahead, which is taken out.
fn take_first<R: Drop>(ready: &mut Option<IntoIter<R>>) -> Option<R>
    ensures { IsNextOf (read_ahead ready.old) result (read_ahead ready.new) }
{
    match ready {
        Some(rows) => rows.next(),
        None => None,
    }
}

/// Rows of a source, given one by one: those that were read and not given yet wait in memory.
#[derive(Drop)]
pub struct Batched<F: BatchSource> {
    source: F,
    /// None before the first are read.
    ready: Option<IntoIter<F::Row>>,
}

impl<F: BatchSource> Batched<F> {
    /// Before anything is read.
    pub(crate) fn from_source(source: F) -> Batched<F>
        ensures source { result.source ≡ source }
        ensures ready { read_ahead result.ready ≡ [] }
    {
        Batched {
            source,
            ready: None,
        }
    }
}

impl<F: BatchSource> Cursor for Batched<F> {
    type Row = F::Row;

    ghost to_come = { λ p m. read_ahead p.ready ++ F.to_come p.source m };

    fn next<S: Alter>(
        &mut self,
        alloc: Global,
        tx: &mut Transaction<'_, S>,
    ) -> Result<Option<F::Row>, Refusal> {
        if let Some(row) = take_first(&mut self.ready) {
            return Ok(Some(row));
        }
        let rows = self.source.next_batch(alloc, tx)?;
        self.ready = Some(rows.into_iter());
        Ok(take_first(&mut self.ready))
    }
}
