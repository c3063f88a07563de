//! One command as one transaction, and one question or one row of a report as one that changes nothing.
ghost use Rattle.std.specs.Prelude.{◌≡◌, false, length, Ok, IsTrue, IfErr, IfOk, OnOk, MatchResult, ⊤};
ghost use Rattle.sqlite.specs.{State.HasCleanDisk, State.Survives, Held.state};
ghost use Rattle.kcr_history.specs.{History.History, AsksByKind.asks_of, Tables.Tables, Views.IsViewOf};
ghost use Rattle.kcr_machine.specs.RowDecision.{MayBeRefused, is_full_by};
ghost use Rattle.kcr_rules.specs.ByRows.{IsCleared};
ghost use Rattle.kcr_tables.specs.{Frame.ChangesMachineTables, Frame.OfMachineTables, MachineTables.HoldsTables, Refusals.IsFault};
ghost use Rattle.kcr_rows.specs.Frame.{IfClean, StaysInTransaction};
ghost use Rattle.kcr_store.specs.Frame.{IfCleanOver, OfDurable, OfRowsOver, OnlyReads};
ghost use Rattle.kcr_store.specs.{Stored.Stores, Stored.OfStoredRows, Stored.OfStored, Register.HasRows, Register.IsDurableWith, Shown.IsShownByRows};
ghost use Rattle.kcr_history.specs.Questions.{ArePeopleShown, AreCustodiansShown, IsBagShown, IsRoomShown};
ghost use Rattle.kcr_store.specs.Commands as steps;
ghost use Rattle.kcr_store.specs.Commands.{AppliesCommand, with_reply, IsQuestionResult, IsQuestionRefusal, MayBeReplied, MayRefuseQuestion};
ghost use Rattle.kcr_store.specs.ByRows.{DecidesBy, EndsByRows, RefusesNew, RepliesBy};
ghost use Rattle.kcr_store.specs.TransactionResult.{ends_with, EndsCommand, RefusesAsMachine, result_of};
ghost use Rattle.kcr_store.specs.Rows.{GivesNext, IsRowOf, HasNoRow, MayHaveNoRow};
ghost use Rattle.kcr_store.specs.ShownBy.{ArePeopleShownBy, AreCustodiansShownBy, IsBagShownBy, IsRoomShownBy};
ghost use Rattle.kcr_store.specs.ShownBy.{HasNoRowBy, IsQuestionRefusalBy, IsQuestionResultBy, IsRowBy};

use crate::full_view::read_full_view;
use crate::lists::{find_ceremony, read_custody, read_sheet, read_steps};
use crate::shown::{custodians_shown, people_shown};
use kcr_base::{CeremonyNumber, Day, Key, Moment, Refusal, Serial, Thing};
use kcr_custody::{Bag, Item};
use kcr_history::{
    BagShown, CeremonyRow, Command, CustodiansShown, KeyRow, PersonShown, Question, ReplyData,
    RoomShown, Shown, Verdict, View, asks,
};
use kcr_machine::{check_early, decide_new, decide_repeat};
use kcr_people::{Person, Training, Withdrawal};
use kcr_reading::{Cursor, codes_of};
use kcr_room::present_in;
use kcr_tables::{
    all_rows, appointments_ending_after, change_all, find_row, find_rows, read_early_rows,
    read_remaining_rows, stays_ending_at_or_after,
};
use sqlite::{Alter, Connection, Error, ErrorCode, Transaction};
use std::alloc::Global;

/// The rows that a command whose key is new asks for; `count` is the number of the last command before it. If the first
/// part of them tells its refusal, the others are not read. Nothing is changed.
fn read_cleared<S: Alter>(
    alloc: Global,
    tx: &mut Transaction<'_, S>,
    count: u32,
    command: &Command,
) -> Result<View, Refusal>
    ensures view { OfMachineTables S.Store tx.old tx.new result (IsViewOf (asks_of command.now)) }
    ensures cleared { IfOk result (λ view. IsCleared view (is_full_by count) command.now.act) }
    ensures kind { IfErr result (MayBeRefused command.now) }
    ensures tables { ChangesMachineTables S.Store tx.old tx.new result (λ m. m) }
    ensures frame { StaysInTransaction S.Store (RefusesNew S.Store count command.now tx.old tx.new) tx.old tx.new result }
{
    let Ok(asked) = asks(alloc, command) else {
        return Err(Refusal::Memory);
    };
    let front = read_early_rows(alloc, tx, &asked)?;
    check_early(alloc, &front, count, command)?;
    read_remaining_rows(alloc, tx, &asked, front)
}

/// Decides a command and puts the rows that the decision gives; `count` is the number of the last command before it. The
/// row of its key alone decides a repeat, which puts none. A command whose key is new is decided by the rows that it asks
/// for. Nothing is committed.
fn decide_and_write<S: Alter>(
    alloc: Global,
    tx: &mut Transaction<'_, S>,
    count: u32,
    command: &Command,
) -> Result<Verdict, Refusal>
    // Over the tables of a history, an answer is the machine's, and the transaction then holds the tables after it.
    ensures done { IfClean S.Store tx.old tx.new (λ old new. IsTrue old.in_transaction
        → (A : History) → count ≡ length A → (IsTrue old.is_open → Stores A old.now) → IfOk result (λ verdict.
        AppliesCommand A command.now (Ok verdict.reply) (with_reply A command.now verdict.new_reply)
        × Stores (with_reply A command.now verdict.new_reply) new.now × IsTrue new.in_transaction)) }

    // By whatever rows the tables hold: they decide the command, and the transaction then holds them with its changes.
    ensures by_rows { IfClean S.Store tx.old tx.new (λ old new. (m : Tables) → (IsTrue old.is_open → HoldsTables m old.now)
        → DecidesBy m count command.now result new.now) }

    // Whatever the tables hold, the reply or the refusal is one of a command of this kind.
    ensures kind { MayBeReplied command.now (ends_with result) }
    ensures frame { RefusesAsMachine S.Store count command.now tx.old tx.new result }
{
    if let Some(row) = find_row::<_, Key, KeyRow>(alloc, tx, &command.key)? {
        return decide_repeat(alloc, &row, command);
    }
    let view = read_cleared(alloc, tx, count, command)?;
    let verdict = decide_new(alloc, &view, count, command)?;
    change_all(alloc, tx, verdict.changes.as_slice())?;
    Ok(verdict)
}

/// How one command ended.
#[derive(Drop)]
pub(crate) enum TransactionResult {
    Accepted(Verdict),
    /// Nothing was changed.
    Refused(Refusal),
    /// The commit failed with this, and a crash may leave what it would have made.
    InDoubt(Error),
}

/// The number of the last command after one that is not refused: that of its reply, or the same after a repeat.
pub(crate) fn number_after(count: u32, new_reply: Option<ReplyData>) -> u32
    ensures { result ≡ steps.number_after count new_reply }
{
    match new_reply {
        Some(reply) => reply.accepted,
        None => count,
    }
}

/// One command as one transaction, which is gone at the return. A repeat is committed as well: nothing was written,
/// and the commit says that the store still serves. `count` is the number of the last command.
pub(crate) fn run_command<S: Alter>(
    alloc: Global,
    conn: &mut Connection<S>,
    count: u32,
    command: &Command,
) -> TransactionResult
    requires autocommit { conn.old.in_transaction ≡ false }
    ensures autocommit { conn.new.in_transaction ≡ false }
    ensures clean { HasCleanDisk (state S.Store conn.new) → HasCleanDisk (state S.Store conn.old) }
    ensures step { IfCleanOver S.Store conn.old conn.new (λ old new. (A : History) → IsDurableWith count A old
        → EndsCommand count A command.now result new) }
    ensures by_rows { IfCleanOver S.Store conn.old conn.new (λ old new. (m : Tables)
        → (IsTrue old.is_open → HoldsTables m old.now) → RepliesBy m count command.now (result_of result) new) }
    ensures rows { IfCleanOver S.Store conn.old conn.new (λ old new. (m : Tables) → HasRows m old
        → EndsByRows m count command.now result new) }
    ensures kind { MayBeReplied command.now (result_of result) }
    ensures served { IfCleanOver S.Store conn.old conn.new (λ _ new. OnOk (result_of result) (IsTrue new.is_open)) }
{
    let mut tx = conn.transaction();
    let verdict = match decide_and_write(alloc, &mut tx, count, command) {
        Ok(verdict) => verdict,
        Err(refusal) => return TransactionResult::Refused(refusal),
    };
    match tx.commit() {
        Ok(()) => TransactionResult::Accepted(verdict),
        Err(Error::SqliteFailure(ErrorCode::OutOfMemory)) => {
            // The store may be shut, and then the commit may stand.
            match conn.prepare("COMMIT") {
                Ok(_) => TransactionResult::Refused(Refusal::Memory),
                Err(error) => TransactionResult::InDoubt(error),
            }
        }
        Err(error) => TransactionResult::InDoubt(error),
    }
}

/// What is asked of the tables, and read in one transaction.
pub(crate) trait TableQuery {
    ghost use Rattle.std.specs.Prelude.{Result};
    ghost use Rattle.kcr_base.specs.declared.refusal.Refusal.{Refusal};

    type Answer;

    /// What the answer is to a history.
    ghost is_answer: { Self → History → Result Self.Answer Refusal → Type 0 };

    /// What the answer is by the rows of the tables.
    ghost is_answer_by: { Self → Tables → Result Self.Answer Refusal → Type 0 };

    /// What the answer may be, whatever the database holds.
    ghost may_answer: { Self → Self.Answer → Type 0 };

    /// What it may be refused with, whatever the history.
    ghost may_refuse: { Self → Refusal → Type 0 };

    /// The answer. Nothing is changed.
    fn read<S: Alter>(
        &self,
        alloc: Global,
        tx: &mut Transaction<'_, S>,
    ) -> Result<Self::Answer, Refusal>
        ensures answer { OfStored S.Store tx.old tx.new (λ A. is_answer self.now A result) }
        ensures rows { OfStoredRows S.Store tx.old tx.new (λ m. is_answer_by self.now m result) }
        ensures by_rows { IfOk result (may_answer self.now) }
        ensures frame { StaysInTransaction S.Store (may_refuse self.now) tx.old tx.new result };
}

/// What is asked, read in a transaction that is rolled back.
pub(crate) fn run_query<S: Alter, Q: TableQuery>(
    alloc: Global,
    conn: &mut Connection<S>,
    asked: &Q,
) -> Result<Q::Answer, Refusal>
    requires autocommit { conn.old.in_transaction ≡ false }
    ensures answer { OfDurable S.Store conn.old conn.new (λ A. Q.is_answer asked.now A result) }
    ensures rows { OfRowsOver S.Store conn.old conn.new (λ m. Q.is_answer_by asked.now m result) }
    ensures by_rows { IfOk result (Q.may_answer asked.now) }
    ensures survives { Survives (state S.Store conn.old) (state S.Store conn.new) (λ _. ⊥) }
    ensures frame { OnlyReads S.Store (Q.may_refuse asked.now) conn.old conn.new result }
{
    let mut tx = conn.transaction();
    let answer = asked.read(alloc, &mut tx);
    tx.rollback();
    answer
}

impl TableQuery for Question {
    type Answer = Shown;

    ghost is_answer = { λ question A result. IsQuestionResult A question result };

    ghost is_answer_by = { λ question m result. IsQuestionResultBy m question result };

    ghost may_answer = { IsShownByRows };

    ghost may_refuse = { MayRefuseQuestion };

    fn read<S: Alter>(&self, alloc: Global, tx: &mut Transaction<'_, S>) -> Result<Shown, Refusal> {
        match self {
            Question::People => Ok(Shown::People(read_people(alloc, tx)?)),
            Question::Custodians(day) => Ok(Shown::Custodians(read_custodians(alloc, tx, *day)?)),
            Question::Bag(serial) => Ok(Shown::Bag(read_bag(alloc, tx, *serial)?)),
            Question::Room(ceremony, at) => Ok(Shown::Room(read_room(alloc, tx, *ceremony, *at)?)),
            Question::Steps(ceremony) => Ok(Shown::Steps(read_steps(alloc, tx, *ceremony)?)),
            Question::Sheet(ceremony) => Ok(Shown::Sheet(read_sheet(alloc, tx, *ceremony)?)),
            Question::Custody => Ok(Shown::Custody(read_custody(alloc, tx)?)),
            Question::All => Ok(Shown::All(read_full_view(alloc, tx)?)),
        }
    }
}

/// Everybody who was entered, with their trainings.
fn read_people<S: Alter>(
    alloc: Global,
    tx: &mut Transaction<'_, S>,
) -> Result<Vec<PersonShown>, Refusal>
    ensures shown { OfStored S.Store tx.old tx.new (λ A. IfOk result (λ rows. ArePeopleShown A rows.items)) }
    ensures rows { OfStoredRows S.Store tx.old tx.new (λ m. IfOk result (λ rows. ArePeopleShownBy m rows.items)) }
    ensures by_rows { IfOk result (λ rows. IsShownByRows Question.People (Shown.People rows)) }
    ensures frame { StaysInTransaction S.Store IsFault tx.old tx.new result }
{
    let people = all_rows::<_, Person>(alloc, tx)?;
    let trainings = all_rows::<_, Training>(alloc, tx)?;
    let withdrawals = all_rows::<_, Withdrawal>(alloc, tx)?;
    Ok(people_shown(alloc, people, &trainings, &withdrawals)?)
}

/// Who holds which place on the day.
fn read_custodians<S: Alter>(
    alloc: Global,
    tx: &mut Transaction<'_, S>,
    day: Day,
) -> Result<CustodiansShown, Refusal>
    ensures shown { OfStored S.Store tx.old tx.new (λ A. IfOk result (AreCustodiansShown A day)) }
    ensures rows { OfStoredRows S.Store tx.old tx.new (λ m. IfOk result (AreCustodiansShownBy m day)) }
    ensures by_rows { IfOk result (λ shown. IsShownByRows (Question.Custodians day) (Shown.Custodians shown)) }
    ensures frame { StaysInTransaction S.Store IsFault tx.old tx.new result }
{
    let appointments = appointments_ending_after(alloc, tx, day)?;
    Ok(custodians_shown(alloc, &appointments, day)?)
}

/// Where the bag lies and what it holds; one that was never sealed is refused as unknown.
fn read_bag<S: Alter>(
    alloc: Global,
    tx: &mut Transaction<'_, S>,
    serial: Serial,
) -> Result<BagShown, Refusal>
    ensures shown { OfStored S.Store tx.old tx.new (λ A. MatchResult result (IsBagShown A serial)
        (IsQuestionRefusal A (Question.Bag serial))) }
    ensures rows { OfStoredRows S.Store tx.old tx.new (λ m. MatchResult result (IsBagShownBy m serial)
        (IsQuestionRefusalBy m (Question.Bag serial))) }
    ensures by_rows { IfOk result (λ shown. IsShownByRows (Question.Bag serial) (Shown.Bag shown)) }
    ensures frame { StaysInTransaction S.Store (MayRefuseQuestion (Question.Bag serial)) tx.old tx.new result }
{
    let Some(bag) = find_row::<_, Serial, Bag>(alloc, tx, &serial)? else {
        return Err(Refusal::Unknown {
            thing: Thing::Bag(serial),
        });
    };
    let items = find_rows::<_, Serial, Item>(alloc, tx, &serial)?;
    Ok(BagShown {
        serial,
        spot: bag.spot,
        items: codes_of(alloc, &items)?,
    })
}

/// Who is in the room of the ceremony at the moment; a ceremony that was never planned is refused as unknown.
fn read_room<S: Alter>(
    alloc: Global,
    tx: &mut Transaction<'_, S>,
    ceremony: CeremonyNumber,
    at: Moment,
) -> Result<RoomShown, Refusal>
    ensures shown { OfStored S.Store tx.old tx.new (λ A. MatchResult result (IsRoomShown A ceremony at)
        (IsQuestionRefusal A (Question.Room ceremony at))) }
    ensures rows { OfStoredRows S.Store tx.old tx.new (λ m. MatchResult result (IsRoomShownBy m ceremony at)
        (IsQuestionRefusalBy m (Question.Room ceremony at))) }
    ensures by_rows { IfOk result (λ shown. IsShownByRows (Question.Room ceremony at) (Shown.Room shown)) }
    ensures frame { StaysInTransaction S.Store (MayRefuseQuestion (Question.Room ceremony at)) tx.old tx.new result }
{
    let number = ceremony.get();
    find_ceremony(alloc, tx, ceremony)?;
    let stays = stays_ending_at_or_after(alloc, tx, number, at)?;
    let people = present_in(alloc, &stays, number, at)?;
    Ok(RoomShown { at, people })
}

/// The next row of a reading, in a transaction that is rolled back.
pub(crate) fn next_row<S: Alter, R: Cursor>(
    alloc: Global,
    conn: &mut Connection<S>,
    reading: &mut R,
) -> Result<Option<R::Row>, Refusal>
    requires autocommit { conn.old.in_transaction ≡ false }
    ensures rows { OfRowsOver S.Store conn.old conn.new (GivesNext R.to_come reading.old reading.new result) }
    ensures frame { OnlyReads S.Store IsFault conn.old conn.new result }
{
    let mut tx = conn.transaction();
    let row = reading.next(alloc, &mut tx);
    tx.rollback();
    row
}

/// A ceremony's number asks for its row; one that was never planned is refused as unknown.
impl TableQuery for CeremonyNumber {
    type Answer = CeremonyRow;

    ghost is_answer = { λ ceremony A result. MatchResult result (IsRowOf A ceremony) (HasNoRow A ceremony) };

    ghost is_answer_by = { λ ceremony m result. MatchResult result (IsRowBy m ceremony) (HasNoRowBy m ceremony) };

    ghost may_answer = { λ ceremony row. ⊤ };

    ghost may_refuse = { MayHaveNoRow };

    fn read<S: Alter>(
        &self,
        alloc: Global,
        tx: &mut Transaction<'_, S>,
    ) -> Result<CeremonyRow, Refusal> {
        find_ceremony(alloc, tx, *self)
    }
}
