//! The register itself.
ghost use Rattle.std.specs.Prelude.{[], false, ◌≡◌, ◌↔◌, IsTrue, IfOk, IfErr, OnOk, Ok, Err, None, is_some};
ghost use Rattle.sqlite.specs.{State.HasCleanDisk, Held.state};
ghost use Rattle.kcr_history.specs.History.{History};
ghost use Rattle.kcr_store.specs.ByRows.{RepliesBy, TakesStepByRows};
ghost use Rattle.kcr_store.specs.Commands.{IsQuestionResult, MayBeReplied, MayRefuseQuestion, TakesStep};

use crate::breakage::{Breakage, breakage_of};
use crate::full_view::{audit_database, full_view, read_table};
use crate::open::{OpenFault, connect, open_or_migrate};
use crate::transaction::{TransactionResult, number_after, run_command, run_query};
use crate::unbroken::Unbroken;
use kcr_base::Refusal;
use kcr_history::{Command, Finding, FullView, Question, Reply, Shown};
use kcr_tables::TableRow;
use sqlite::{Alter, Connection, FileFrom, FileStore, MemStore, Start};
use sqlite_disk::Disk;
use std::alloc::Global;
use std::marker::Model;

/// The commands that were accepted, kept in a database. Clauses see its connection, whether it is broken, and the
/// number of its last command; of what it accepted they speak by what the database holds (`StandsAt`).
pub struct Register<S: Alter> {
    /// What is read of it, which is lent as long as nothing has broken it.
    unbroken: Unbroken<S>,
    /// What broke it, if anything did.
    breakage: Option<Breakage>,
    /// The number of its last command.
    last_number: u32,
}

/// A register in a file of which this stands for what it held.
pub type FileRegister<F> = Register<FileStore<FileFrom<F>>>;

impl<S: Alter + Drop> Drop for Register<S> {
    fn drop(self) {
        self.close();
    }
}

impl<S: Alter> Model for Register<S> {
    ghost use Rattle.std.specs.Prelude.{is_some};
    ghost use Rattle.kcr_store.specs.Register.{RegisterState, register_state_code};

    ghost Value = { RegisterState S };

    ghost coded = { register_state_code S.code };

    ghost view = { λ r. record { conn = r.unbroken; is_broken = is_some r.breakage; last_number = r.last_number } };
}

impl<S: Alter + Drop> Register<S> {
    ghost use Rattle.std.specs.Prelude.{MatchResult, ◌⊎◌, ◌≢◌};
    ghost use Rattle.sqlite.specs.{Held.Held, State.Survives};
    ghost use Rattle.kcr_older.specs.{Kind.IsForeignSchema, Kind.IsTaken, Kind.no_schema, declared.migration.OldVersion.OldVersion};
    ghost use Rattle.kcr_store.specs.Register.{IsConsistent, StandsAt, whole};
    ghost use Rattle.kcr_store.specs.Opening.{IsGenuine, IsOpeningOf, MigratesRows, RefusesAs};

    /// Takes a database that is empty or a register's. An empty one gets its tables, and a register of version 1 or 2
    /// is migrated to this version, which is 3, each in one transaction: the stays are made of the sheet, and there are
    /// no withdrawals. It stands at each history of which the database held the tables. Any other database is refused:
    /// one with the number of another version for its version, whatever else it has, and the rest as foreign. An
    /// opening that fails leaves the database as it was, but if the device failed: then a crash leaves it as it was or
    /// as it was to become.
    pub fn adopt(
        alloc: Global,
        connection: Connection<S>,
    ) -> Result<Register<S>, (OpenFault, Connection<S>)>
        requires autocommit { connection.in_transaction ≡ false }
        ensures unbroken { IfOk result (λ r. r.is_broken ≡ false) }
        ensures kept { IfOk result (IsConsistent S.Store) }

        // Of whatever history the database was, at that the register stands; and such a database is refused only for
        // memory or the device.
        ensures adopted { IfOk result (λ r. (A : History) → IsGenuine A (state S.Store connection)
            → StandsAt S.Store (whole A) r) }
        ensures taken { IfErr result (λ e. (A : History) → IsGenuine A (state S.Store connection)
            → IsTrue (state S.Store connection).is_open → HasCleanDisk (state S.Store e.1)
            → (e.0 ≡ OpenFault.Memory) ⊎ (e.0 ≡ OpenFault.Disk)) }

        // Whoever wrote them: the valid rows of a register of version 1 or 2 become those that the migration makes of
        // them.
        ensures older { IfOk result (λ r. HasCleanDisk (state S.Store r.conn) → (from : OldVersion)
            → MigratesRows from (state S.Store connection).now (state S.Store r.conn)) }

        // What is taken is empty or a register's, and each refusal is what its name says: no database is two of these.
        ensures answer { MatchResult result
            (λ r. HasCleanDisk (state S.Store r.conn) → IsTaken (state S.Store connection).now)
            (λ e. HasCleanDisk (state S.Store e.1) → RefusesAs (state S.Store connection).now e.0) }
        ensures known { IfOk result (λ _. ¬ IsForeignSchema (state S.Store connection).now.schema) }

        // An opening that fails changes nothing, but after an I/O error it may have.
        ensures left { IfErr result (λ e. e.0 ≢ OpenFault.Disk
            → Survives (state S.Store connection) (state S.Store e.1) (λ _. ⊥)) }

        // The connection that it gives back is outside of a transaction: so it can be adopted again.
        ensures outside { IfErr result (λ e. e.1.in_transaction ≡ false) }

        // A crash leaves what was there, or what the opening makes of it.
        ensures crash { MatchResult result
            (λ r. Survives (state S.Store connection) (state S.Store r.conn) (IsOpeningOf (state S.Store connection).now))
            (λ e. Survives (state S.Store connection) (state S.Store e.1) (IsOpeningOf (state S.Store connection).now)) }
    {
        let mut conn = connection;
        match open_or_migrate(alloc, &mut conn) {
            Ok(count) => Ok(Register {
                unbroken: Unbroken { conn, alloc },
                breakage: None,
                last_number: count,
            }),
            Err(fault) => Err((fault, conn)),
        }
    }

    /// A new register over a store that has nothing, and whose disk is never in doubt.
    fn new_empty(alloc: Global, connection: Connection<S>) -> Result<Register<S>, OpenFault>
        requires autocommit { connection.in_transaction ≡ false }
        requires empty { (state S.Store connection).now.schema ≡ no_schema }
        requires opened { IsTrue (state S.Store connection).is_open }
        requires certain { (conn : Held S) → HasCleanDisk (state S.Store conn) }
        ensures new { IfOk result (λ r. StandsAt S.Store (whole []) r × IsConsistent S.Store r) }
        ensures fault { IfErr result (λ e. (e ≡ OpenFault.Memory) ⊎ (e ≡ OpenFault.Disk)) }
    {
        match Register::adopt(alloc, connection) {
            Ok(register) => Ok(register),
            Err((fault, _)) => Err(fault),
        }
    }
}

impl Register<MemStore> {
    ghost use Rattle.std.specs.Prelude.{◌⊎◌};
    ghost use Rattle.sqlite.specs.Steps.{over_memory};
    ghost use Rattle.kcr_store.specs.Register.{IsConsistent, StandsAt, whole};

    /// A new register in memory, with no command. It is lost with the process. When out of memory there is none: the
    /// fault is `Memory`, or `Disk` as the store tells it, and never `Foreign` or `Version`.
    pub fn in_memory(alloc: Global) -> Result<Register<MemStore>, OpenFault>
        ensures new { IfOk result (λ r. StandsAt over_memory (whole []) r × IsConsistent over_memory r) }
        ensures fault { IfErr result (λ e. (e ≡ OpenFault.Memory) ⊎ (e ≡ OpenFault.Disk)) }
    {
        let Ok(connection) = Connection::open_in_memory(alloc) else {
            return Err(OpenFault::Memory);
        };
        Register::new_empty(alloc, connection)
    }
}

impl<F: Start> Register<FileStore<FileFrom<F>>> {
    ghost use Rattle.sqlite.specs.{Files.over_files, Held.state, WalFiles.image_at};
    ghost use Rattle.kcr_older.specs.{Migrated.migrated_tables, declared.migration.OldVersion.OldVersion};
    ghost use Rattle.kcr_tables.specs.StoredTables.{StoredTables};
    ghost use Rattle.kcr_store.specs.Opening.{FilesHoldHistory, FilesHoldRowsAs, ShowsRows};
    ghost use Rattle.kcr_store.specs.Register.{IsConsistent, StandsAt, whole};

    /// Opens the register in the file at the path and its log beside it, as `adopt` takes a database; a file that is
    /// not there is made. `start` stands for what the two held, which no code can read: the register stands at each
    /// history of which that was the tables. `Disk` comes also if another process has the file open, if it
    /// is no database, and for the name `:memory:`.
    pub fn open_from(rt: &HostRuntime, path: &str, start: F) -> Result<FileRegister<F>, OpenFault>
        ensures unbroken { IfOk result (λ r. r.is_broken ≡ false) }
        ensures stands { IfOk result (λ r. (A : History) → FilesHoldHistory A (image_at F.Start)
            → StandsAt over_files (whole A) r) }

        // Valid rows of version 1 or 2, whoever wrote them, become those that the migration makes of them.
        ensures older { IfOk result (λ r. HasCleanDisk (state over_files r.conn) → (from : OldVersion)
            → (t : StoredTables) → FilesHoldRowsAs from t (image_at F.Start)
            → ShowsRows (migrated_tables from t) (state over_files r.conn)) }
        ensures kept { IfOk result (IsConsistent over_files) }
    {
        let connection = connect(rt, path, start)?;
        match Register::adopt(rt.alloc(), connection) {
            Ok(register) => Ok(register),
            Err((fault, _)) => Err(fault),
        }
    }
}

impl<D: Disk + Drop> Register<FileStore<D>> {
    ghost use Rattle.sqlite.specs.Files.{over_files};
    ghost use Rattle.sqlite_store.specs.FileStore.{view, state as stored};
    ghost use Rattle.sqlite_trees.specs.View.{IsClean};
    ghost use Rattle.sqlite_wal.specs.Recovery.{Image};
    ghost use Rattle.kcr_store.specs.{Opening.LeavesEither, Opening.OpensAtEither, Register.RegisterHistory, Register.StandsAt};

    /// Lets go of its files, as a stop between two calls does: nothing is written to them. What they are after a crash,
    /// and where the register stands that is opened from that, is what the register's history says. `N` is the store of
    /// that one.
    pub fn stop<N: Alter>(self) -> FileStore<D>
        // Each image of the two files that a crash may leave holds the tables of what was accepted, or those of the
        // history that was tried.
        ensures left { IsClean (view result) → (s : RegisterHistory) → StandsAt over_files s self → (left : Image)
            → (stored result).may_leave left → LeavesEither s left }

        // So whatever is opened from one, as `open_from` opens it, stands at one of the two.
        ensures opens { IsClean (view result) → (s : RegisterHistory) → StandsAt over_files s self → (left : Image)
            → (stored result).may_leave left → OpensAtEither N.Store s left }
    {
        self.close().into_store()
    }
}

impl<S: Alter> Register<S> {
    ghost use Rattle.std.specs.{Borrow.sem, Prelude.MatchResult};
    ghost use Rattle.kcr_history.specs.{Machine.IsRegister, Tables.Tables, Tables.tables};
    ghost use Rattle.kcr_store.specs.{Rows.LendsConnection, Register.IsConsistent, FullView.FindsIn, FullView.AreRows, FullView.IsListed};
    ghost use Rattle.kcr_tables.specs.{MachineTables.HoldsTables, Refusals.IsFault};
    ghost use Rattle.kcr_store.specs.Calls.{Leads, OfHistory, ReadsHistory, RowsLead, BreaksOnFault, after_fault};
    ghost use Rattle.kcr_store.specs.{Frame.OfRowsOver, Shown.IsShownByRows, ShownBy.IsQuestionResultBy};

    /// Decides a command as one transaction. Where the machine accepts it, its reply comes only once it is durable.
    /// A repeat gets the reply that was kept, and changes nothing. A refusal changes nothing; out of memory (33)
    /// changes nothing either, wherever it comes. An I/O error (34) breaks the register: a crash may then
    /// leave the tables before the command or those after it, and every later call answers 35.
    pub fn apply(&mut self, command: &Command) -> Result<Reply, Refusal>
        // A broken register answers 35 and stays as it is.
        ensures broken { IsTrue self.old.is_broken → (result ≡ Err Refusal.Broken) × (self.new ≡ self.old) }

        // As long as the disk returns what was written: from whatever history the register stood at, the command is a
        // step of the machine, and the register stands at the history after it.
        ensures step { Leads S.Store self.old self.new (λ s after. TakesStep s command.now result after) }

        // By whatever rows the tables hold: they and the number of the last command decide the command, and the database
        // then has them with the changes that go with the reply.
        ensures by_rows { self.old.is_broken ≡ false → HasCleanDisk (state S.Store self.new.conn) → (m : Tables)
            → (IsTrue (state S.Store self.old.conn).is_open → HoldsTables m (state S.Store self.old.conn).now)
            → RepliesBy m self.old.last_number command.now result (state S.Store self.new.conn) }

        // So from whatever rows the register showed, it shows those after the decision, and the same after a refusal.
        ensures rows { RowsLead S.Store self.old self.new (λ t after. TakesStepByRows t command.now result after) }

        // Whatever the database holds, the reply is one to a command of this kind, or what a row keeps for this very
        // command, and a refusal is one that this kind may get.
        ensures kind { self.old.is_broken ≡ false → MayBeReplied command.now result }

        // An I/O error breaks it, and nothing else does. After a reply the store serves.
        ensures breaks { self.old.is_broken ≡ false → IsTrue self.new.is_broken ↔ (result ≡ Err Refusal.Disk) }
        ensures served { HasCleanDisk (state S.Store self.new.conn)
            → OnOk result (IsTrue (state S.Store self.new.conn).is_open) }

        // A disk that is honest at the end was so at the beginning.
        ensures clean { HasCleanDisk (state S.Store self.new.conn) → HasCleanDisk (state S.Store self.old.conn) }
        ensures kept { IsConsistent S.Store self.new }
    {
        if self.is_broken() {
            return Err(Refusal::Broken);
        }
        let lent = &mut self.unbroken;
        match run_command(lent.alloc, &mut lent.conn, self.last_number, command) {
            TransactionResult::Accepted(verdict) => {
                self.last_number = number_after(self.last_number, verdict.new_reply);
                Ok(verdict.reply)
            }
            TransactionResult::Refused(Refusal::Disk) => {
                self.breakage = Some(Breakage::Reading);
                Err(Refusal::Disk)
            }
            TransactionResult::Refused(refusal) => Err(refusal),
            TransactionResult::InDoubt(error) => {
                self.breakage = Some(breakage_of(error));
                Err(Refusal::Disk)
            }
        }
    }

    /// Answers a question, and changes nothing. A bag that was never sealed, and the room, the steps or the sheet of a
    /// ceremony that was never planned, are refused as unknown (12). Beside that and out of memory (33) it meets only
    /// an I/O error or an invalid row (34), which breaks the register; every later call then answers 35. A list is
    /// whole in memory.
    pub fn look(&mut self, question: &Question) -> Result<Shown, Refusal>
        ensures shown { OfHistory S.Store self.old self.new (λ A. IsQuestionResult A question.now result) }

        // By whatever rows the tables hold: it is shown what they show, and refused only if what it asks for has no row.
        ensures rows { self.old.is_broken ≡ false
            → OfRowsOver S.Store self.old.conn self.new.conn (λ m. IsQuestionResultBy m question.now result) }

        // Whatever the database holds and its disk returns, what is shown is what some rows show to this very question.
        ensures by_rows { IfOk result (IsShownByRows question.now) }
        ensures looks { ReadsHistory S.Store (MayRefuseQuestion question.now) self.old self.new result }
    {
        let lent = self.unbroken()?;
        let shown = run_query(lent.alloc, &mut lent.conn, question);
        self.note_disk_fault(shown)
    }

    /// All rows of one table, in the order of their keys; its memory grows with their number. It changes nothing.
    /// Beside out of memory (33) it meets only an I/O error or an invalid row (34), which
    /// breaks the register; a broken one answers 35.
    pub fn table_rows<R: TableRow>(&mut self) -> Result<Vec<R>, Refusal>
        // Whatever rows the table holds, these are they; of a history they are those of its table.
        ensures rows { self.old.is_broken ≡ false → HasCleanDisk (state S.Store self.new.conn) → (m : Tables)
            → HoldsTables m (state S.Store self.old.conn).now
            → IfOk result (λ rows. AreRows R.table.rows_in m rows.items) }
        ensures shown { OfHistory S.Store self.old self.new
            (λ A. IfOk result (λ rows. IsRegister A × AreRows R.table.rows_in (tables A) rows.items)) }
        ensures looks { ReadsHistory S.Store IsFault self.old self.new result }
    {
        let lent = self.unbroken()?;
        let rows = read_table(lent.alloc, &mut lent.conn);
        self.note_disk_fault(rows)
    }

    /// All rows of all tables, each table's in the order of their keys, as an audit takes them; its memory grows with
    /// their number. It changes nothing. Its refusals, and what they leave, are those of `table_rows`.
    pub fn all_rows(&mut self) -> Result<FullView, Refusal>
        // Whatever rows the tables hold, these are they; of a history they are those of its tables.
        ensures rows { self.old.is_broken ≡ false → HasCleanDisk (state S.Store self.new.conn) → (m : Tables)
            → HoldsTables m (state S.Store self.old.conn).now → IfOk result (IsListed m) }
        ensures shown { OfHistory S.Store self.old self.new
            (λ A. IfOk result (λ all. IsRegister A × IsListed (tables A) all)) }
        ensures looks { ReadsHistory S.Store IsFault self.old self.new result }
    {
        let lent = self.unbroken()?;
        let all = full_view(lent.alloc, &mut lent.conn);
        self.note_disk_fault(all)
    }

    /// What an audit finds in all its rows, whose number its memory grows with: a finding of the first kind that has
    /// one, or None. In the tables of a history nothing is found. It changes nothing. Beside out of memory (33) it
    /// meets only an I/O error or an invalid row (34), which breaks the register; a broken one
    /// answers 35.
    pub fn audit(&mut self) -> Result<Option<Finding>, Refusal>
        // Whatever rows the tables hold, what is found is true of them, and nothing of an earlier kind is.
        ensures found { self.old.is_broken ≡ false → HasCleanDisk (state S.Store self.new.conn) → (m : Tables)
            → HoldsTables m (state S.Store self.old.conn).now → IfOk result (FindsIn m) }
        ensures nothing { OfHistory S.Store self.old self.new (λ _. IfOk result (λ found. found ≡ None)) }
        ensures looks { ReadsHistory S.Store IsFault self.old self.new result }
    {
        let lent = self.unbroken()?;
        let found = audit_database(lent.alloc, &mut lent.conn);
        self.note_disk_fault(found)
    }

    /// What a call over its connection answered, handed on; an I/O error breaks the register.
    fn note_disk_fault<T>(&mut self, answer: Result<T, Refusal>) -> Result<T, Refusal>
        ensures same { result ≡ answer }
        ensures settled { BreaksOnFault self.old self.new answer }
    {
        match answer {
            Ok(value) => Ok(value),
            Err(Refusal::Disk) => {
                self.mark_broken();
                Err(Refusal::Disk)
            }
            Err(refusal) => Err(refusal),
        }
    }

    /// What is read of it row by row. A broken register answers 35.
    pub fn unbroken(&mut self) -> Result<&mut Unbroken<S>, Refusal>
        ensures* lent { sem 𝓛 (LendsConnection S.row S.Store self.entry result) }
        ensures begun { IfOk result (λ unbroken. unbroken.now ≡ self.old.conn) }
        ensures broken { MatchResult result (λ _. self.old.is_broken ≡ false)
            (λ refusal. (refusal ≡ Refusal.Broken) × IsTrue self.old.is_broken) }
        ensures kept { IsConsistent S.Store self.old }
    {
        if self.is_broken() {
            return Err(Refusal::Broken);
        }
        Ok(&mut self.unbroken)
    }

    /// Whether an I/O error has broken it.
    pub fn is_broken(&self) -> bool
        ensures value { result ≡ self.now.is_broken }
        ensures kept { IsConsistent S.Store self.now }
    {
        let _conn = &self.unbroken.conn;
        self.breakage.is_some()
    }

    /// What broke it, if anything did.
    pub fn breakage(&self) -> Option<Breakage>
        ensures value { is_some result ≡ self.now.is_broken }
    {
        self.breakage
    }

    /// The number of the last command that was accepted; 0 if none was.
    pub fn last_number(&self) -> u32
        ensures { result ≡ self.now.last_number }
    {
        self.last_number
    }

    /// Breaks it after a caller met a read that failed or an invalid row, so that every later call answers 35.
    pub fn mark_broken(&mut self)
        ensures same { self.new ≡ after_fault self.old }
        ensures kept { IsConsistent S.Store self.new }
    {
        let _conn = &self.unbroken.conn;
        self.breakage = Some(Breakage::Reading);
    }

    /// Gives the connection back.
    pub fn close(self) -> Connection<S>
        ensures { result ≡ self.conn }
    {
        let Register {
            unbroken,
            breakage: _,
            last_number: _,
        } = self;
        let Unbroken { conn, alloc: _ } = unbroken;
        conn
    }
}
