//! The names of people, as the register has them.

ghost use Rattle.std.specs.Prelude.{◌≡◌, map};
ghost use Rattle.kcr_history.specs.{Prints.name_of, Questions.with_name};
ghost use Rattle.kcr_rows.specs.Frame.{ImpliesOpen};
ghost use Rattle.kcr_tables.specs.Frame.{OfMachineTables, Reads};

use kcr_base::{Initials, Name, Refusal};
use kcr_history::StayWithName;
use kcr_people::Person;
use kcr_room::Stay;
use kcr_tables::find_row;
use sqlite::{Alter, Transaction};
use std::alloc::Global;

/// The person's name. `Disk` if nobody with these initials was entered: then the row that names the person is invalid.
fn name_of<S: Alter>(
    alloc: Global,
    tx: &mut Transaction<'_, S>,
    who: &Initials,
) -> Result<Name, Refusal>
    ensures name { OfMachineTables S.Store tx.old tx.new result (λ m name. name ≡ name_of m.people who.now) }
    ensures opened { ImpliesOpen S.Store tx.old tx.new result }
    ensures frame { Reads S.Store tx.old tx.new result }
{
    match find_row(alloc, tx, who)? {
        Some(Person { who: _, name }) => Ok(name),
        None => Err(Refusal::Disk),
    }
}

/// What names one person, by the initials.
pub trait NamesPerson {
    ghost use Rattle.std.specs.Prelude.{List};
    ghost use Rattle.kcr_people.specs.declared.Person.{Person};

    /// It, with the person's name.
    type Named: Drop;

    /// It, with the name that these people have.
    ghost named: { List Person → Self → Self.Named };

    /// It, with the name that the register has. The error is `Memory` when out of memory, and else `Disk`: the device
    /// failed, or nobody with these initials was entered, since then the row that names the person is invalid.
    fn with_name<S: Alter>(
        &self,
        alloc: Global,
        tx: &mut Transaction<'_, S>,
    ) -> Result<Self::Named, Refusal>
        ensures name { OfMachineTables S.Store tx.old tx.new result (λ m one. one ≡ named m.people self.now) }
        ensures frame { Reads S.Store tx.old tx.new result };
}

impl NamesPerson for Initials {
    type Named = Person;

    ghost named = { λ people who. record { who = who; name = name_of people who } };

    fn with_name<S: Alter>(
        &self,
        alloc: Global,
        tx: &mut Transaction<'_, S>,
    ) -> Result<Person, Refusal> {
        let name = name_of(alloc, tx, self)?;
        Ok(Person { who: *self, name })
    }
}

impl NamesPerson for Stay {
    type Named = StayWithName;

    ghost named = { with_name };

    fn with_name<S: Alter>(
        &self,
        alloc: Global,
        tx: &mut Transaction<'_, S>,
    ) -> Result<StayWithName, Refusal> {
        let name = name_of(alloc, tx, &self.who)?;
        Ok(StayWithName { stay: *self, name })
    }
}

/// These, each with the name of its person. The error is that of `with_name`.
pub fn with_names<S: Alter, T: NamesPerson>(
    alloc: Global,
    tx: &mut Transaction<'_, S>,
    rows: &[T],
) -> Result<Vec<T::Named>, Refusal>
    ensures names { OfMachineTables S.Store tx.old tx.new result
        (λ m all. all.items ≡ map (T.named m.people) rows.now) }
    ensures frame { Reads S.Store tx.old tx.new result }
{
    let mut all = Vec::new(alloc);
    for row in rows {
        let named = row.with_name(alloc, tx)?;
        all.push(named)?;
    }
    Ok(all)
}
