//! Questions whose answers are lists: the rows of a reading or of a table, read in one transaction.
ghost use Rattle.std.specs.Prelude.{IfOk, MatchResult};
ghost use Rattle.kcr_history.specs.Questions.{AreStepsShown, IsSheetShown, IsCustodyShown};
ghost use Rattle.kcr_rows.specs.Frame.{ImpliesOpen, StaysInTransaction};
ghost use Rattle.kcr_tables.specs.{Frame.ChangesMachineTables, Refusals.IsFault};
ghost use Rattle.kcr_store.specs.Commands.{IsQuestionRefusal, MayRefuseQuestion};
ghost use Rattle.kcr_store.specs.{Rows.IsRowOf, Rows.HasNoRow, Rows.MayHaveNoRow, Stored.OfStoredRows, Stored.OfStored};
ghost use Rattle.kcr_store.specs.ShownBy.{AreStepsShownBy, IsSheetShownBy, IsCustodyShownBy, HasNoRowBy, IsQuestionRefusalBy, IsRowBy};

use kcr_base::{CeremonyNumber, Refusal, Thing};
use kcr_custody::SafeRow;
use kcr_history::{CeremonyRow, CustodyShown, Question, StayWithName, StepsShown};
use kcr_reading::{
    BagCursor, ExceptionCursor, LooseCursor, StayCursor, StepCursor, remaining_rows,
};
use kcr_tables::{all_rows, find_row};
use sqlite::{Alter, Transaction};
use std::alloc::Global;

/// The row of a ceremony; one that was never planned is refused as unknown.
pub(crate) fn find_ceremony<S: Alter>(
    alloc: Global,
    tx: &mut Transaction<'_, S>,
    ceremony: CeremonyNumber,
) -> Result<CeremonyRow, Refusal>
    ensures row { OfStored S.Store tx.old tx.new (λ A. MatchResult result (IsRowOf A ceremony) (HasNoRow A ceremony)) }
    ensures rows { OfStoredRows S.Store tx.old tx.new (λ m. MatchResult result (IsRowBy m ceremony) (HasNoRowBy m ceremony)) }
    ensures opened { ImpliesOpen S.Store tx.old tx.new result }
    ensures tables { ChangesMachineTables S.Store tx.old tx.new result (λ m. m) }
    ensures frame { StaysInTransaction S.Store (MayHaveNoRow ceremony) tx.old tx.new result }
{
    let number = ceremony.get();
    find_row::<_, u32, CeremonyRow>(alloc, tx, &number)?.ok_or(Refusal::Unknown {
        thing: Thing::Ceremony(number),
    })
}

/// The script of a ceremony as it was done; a ceremony that was never planned is refused as unknown.
pub(crate) fn read_steps<S: Alter>(
    alloc: Global,
    tx: &mut Transaction<'_, S>,
    ceremony: CeremonyNumber,
) -> Result<StepsShown, Refusal>
    ensures shown { OfStored S.Store tx.old tx.new (λ A. MatchResult result (AreStepsShown A ceremony)
        (IsQuestionRefusal A (Question.Steps ceremony))) }
    ensures rows { OfStoredRows S.Store tx.old tx.new (λ m. MatchResult result (AreStepsShownBy m ceremony)
        (IsQuestionRefusalBy m (Question.Steps ceremony))) }
    ensures frame { StaysInTransaction S.Store (MayRefuseQuestion (Question.Steps ceremony)) tx.old tx.new result }
{
    let row = find_ceremony(alloc, tx, ceremony)?;
    let steps = remaining_rows(alloc, tx, StepCursor::new(ceremony.get()))?;
    let exceptions = remaining_rows(alloc, tx, ExceptionCursor::new(ceremony.get()))?;
    Ok(StepsShown {
        ceremony: row,
        steps,
        exceptions,
    })
}

/// The stays of a ceremony, with names; a ceremony that was never planned is refused as unknown.
pub(crate) fn read_sheet<S: Alter>(
    alloc: Global,
    tx: &mut Transaction<'_, S>,
    ceremony: CeremonyNumber,
) -> Result<Vec<StayWithName>, Refusal>
    ensures shown { OfStored S.Store tx.old tx.new (λ A. MatchResult result (λ stays. IsSheetShown A ceremony stays.items)
        (IsQuestionRefusal A (Question.Sheet ceremony))) }
    ensures rows { OfStoredRows S.Store tx.old tx.new (λ m. MatchResult result (λ stays. IsSheetShownBy m ceremony stays.items)
        (IsQuestionRefusalBy m (Question.Sheet ceremony))) }
    ensures frame { StaysInTransaction S.Store (MayRefuseQuestion (Question.Sheet ceremony)) tx.old tx.new result }
{
    find_ceremony(alloc, tx, ceremony)?;
    remaining_rows(alloc, tx, StayCursor::new(ceremony.get()))
}

/// The safes, the bags with their items, and the loose items.
pub(crate) fn read_custody<S: Alter>(
    alloc: Global,
    tx: &mut Transaction<'_, S>,
) -> Result<CustodyShown, Refusal>
    ensures shown { OfStored S.Store tx.old tx.new (λ A. IfOk result (IsCustodyShown A)) }
    ensures rows { OfStoredRows S.Store tx.old tx.new (λ m. IfOk result (IsCustodyShownBy m)) }
    ensures frame { StaysInTransaction S.Store IsFault tx.old tx.new result }
{
    let safes = all_rows::<_, SafeRow>(alloc, tx)?;
    let bags = remaining_rows(alloc, tx, BagCursor::new())?;
    let loose = remaining_rows(alloc, tx, LooseCursor::new())?;
    Ok(CustodyShown { safes, bags, loose })
}
