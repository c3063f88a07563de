//! The commands of a register, given to another.
ghost use Rattle.kcr_store.specs.Calls.{Leads};
ghost use Rattle.kcr_verify.specs.Verification.{EndsAt, GivesRow, GivesRows, IsFresh, IsIntact, StaysIntact};

use crate::seated::seating_told;
use crate::verification::Difference;
use kcr_base::Refusal;
use kcr_history::{Command, KeyRow};
use kcr_store::Register;
use kcr_wire::RouteTable;
use sqlite::Alter;
use std::alloc::Global;

/// Gives the command of a row to the register, and answers what is not as the row says, with what the row says.
fn replay_one<S: Alter>(
    alloc: Global,
    paths: &RouteTable,
    row: &KeyRow,
    register: &mut Register<S>,
) -> Result<Option<Difference>, Refusal>
    requires { IsIntact S.Store register.old }
    ensures frame { StaysIntact S.Store register.old register.new result }
    ensures led { Leads S.Store register.old register.new
        (λ s after. GivesRow row.now s.accepted after.accepted result) }
{
    let Some(act) = paths.read_act(alloc, row.command.as_bytes())? else {
        let found = row.command.clone()?;
        return Ok(Some(Difference::Command {
            number: row.accepted,
            found,
        }));
    };
    let number = row.accepted;
    let found = row.reply.clone()?;
    let command = Command { key: row.key, act };
    match register.apply(&command) {
        Ok(reply) => {
            if reply.text == row.reply {
                Ok(None)
            } else {
                let expected = reply.text;
                let is_seating = seating_told(alloc, register, &command.act, &expected, &found)?;
                Ok(Some(Difference::Reply {
                    number,
                    expected,
                    found,
                    is_seating,
                }))
            }
        }
        Err(Refusal::Memory) => Err(Refusal::Memory),
        Err(Refusal::Disk) => Err(Refusal::Disk),
        Err(refusal) => Ok(Some(Difference::Refused {
            number,
            refusal,
            found,
        })),
    }
}

/// Gives the commands of these rows to an empty register, one after the other, and answers the first thing
/// that is not as the rows say.
pub(crate) fn replay<S: Alter>(
    alloc: Global,
    rows: &[KeyRow],
    register: &mut Register<S>,
) -> Result<Option<Difference>, Refusal>
    requires { IsFresh S.Store register.old }
    ensures frame { StaysIntact S.Store register.old register.new result }
    ensures led { EndsAt S.Store register.new (λ B. GivesRows rows.now B result) }
{
    let paths = RouteTable::new(alloc)?;
    for (index, row) in rows.iter().enumerate() {
        if row.accepted as usize != index + 1 {
            return Ok(Some(Difference::Number {
                place: index + 1,
                found: row.accepted,
            }));
        }
        match replay_one(alloc, &paths, row, register) {
            Ok(None) => {}
            Ok(Some(difference)) => return Ok(Some(difference)),
            Err(refusal) => return Err(refusal),
        }
    }
    Ok(None)
}
