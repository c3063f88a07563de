//! Where the members of a command come from: the body of a request, or the lines of a stored text.
ghost use Rattle.std.specs.Prelude.{◌≡◌, OnOk};
ghost use Rattle.kcr_forms.specs.{Forms.listed_of, OrMemory.OrMemory, Reading.Reading, Reading.formed};

use kcr_base::lists::{DistinctList, ListElement};
use kcr_base::number::{Number, Numbered};
use kcr_base::{Member, Refusal, Written};
use std::alloc::Global;

/// A source of members, which are asked for one after the other. The refusal is `Form` with the member if it is
/// missing or not of its form, or `Memory`.
pub trait Members {
    /// What is there, as a contract sees it.
    ghost Given: { Type 0 };

    /// What is there from here on.
    ghost given: { Self → Given };

    /// What is read of it.
    ghost reading: { Reading Given };

    /// Reads a member that is a text and not the last one.
    fn word<T: Written + Drop>(&mut self, alloc: Global, name: Member) -> Result<T, Refusal>
        ensures told { OrMemory result (formed name (reading.word T.form name (given self.old))) }
        ensures rest { OnOk result (given self.new ≡ reading.rest (given self.old)) };

    /// Reads the last member, which is a text.
    fn last<T: Written + Drop>(&mut self, alloc: Global, name: Member) -> Result<T, Refusal>
        ensures { OrMemory result (formed name (reading.last T.form name (given self.old))) };

    /// Reads a member that is a number and not the last one.
    fn number<K: Numbered>(&mut self, name: Member) -> Result<Number<K>, Refusal>
        ensures told { result ≡ formed name (reading.number K.limit name (given self.old)) }
        ensures rest { OnOk result (given self.new ≡ reading.rest (given self.old)) };

    /// Reads a member that is a truth value and not the last one.
    fn truth(&mut self, name: Member) -> Result<bool, Refusal>
        ensures told { result ≡ formed name (reading.truth name (given self.old)) }
        ensures rest { OnOk result (given self.new ≡ reading.rest (given self.old)) };

    /// Reads a member that is a list and not the last one.
    fn list<T: ListElement + Drop>(
        &mut self,
        alloc: Global,
        name: Member,
    ) -> Result<DistinctList<T>, Refusal>
        ensures told { OrMemory result
            (formed name (reading.list T.form (listed_of T.MAX_LEN T.texts) name (given self.old))) }
        ensures rest { OnOk result (given self.new ≡ reading.rest (given self.old)) };
}

/// What a member is, or the refusal that names it.
pub fn required<T: Drop>(value: Option<T>, name: Member) -> Result<T, Refusal>
    ensures { result ≡ formed name value }
{
    value.ok_or(Refusal::Form { member: name })
}
