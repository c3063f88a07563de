//! Scripts read from their files.
ghost use Rattle.std.specs.Prelude.{◌≡◌, List, IfOk, IfErr, IfSome, Some, MatchResult, map};
ghost use Rattle.csv.specs.Records.{fields_of};
ghost use Rattle.kcr_script.specs.Script.{IsRow, AreSteps, BreaksFrom, IsScriptRows, BreaksAt, IsScript, BreaksScript};
ghost use Rattle.kcr_script.specs.{Reading.script_of, Fault.IfRow, declared.script.Step.Step};

use crate::csv_rows::read_csv_rows;
use crate::script::{Script, Step, is_header, is_number, three_fields};
use crate::seats::read_seats;
use csv::ByteRecord;
use kcr_base::{Activity, MAX_STEPS, Refusal};
use std::alloc::{AllocError, Global};

/// The step of the row with this number.
fn read_row(alloc: Global, number: u32, row: &ByteRecord) -> Result<Option<Step>, AllocError>
    ensures found { IfOk result (λ o. IfSome o (IsRow number (fields_of row.now))) }
    ensures only { IfOk result (λ o. (step : Step) → IsRow number (fields_of row.now) step → o ≡ Some step) }
{
    let Some((a, b, c)) = three_fields(row) else {
        return Ok(None);
    };
    if !is_number(a, number) {
        return Ok(None);
    }
    let Some(activity) = Activity::read(alloc, b)? else {
        return Ok(None);
    };
    let Some(seats) = read_seats(alloc, c)? else {
        return Ok(None);
    };
    Ok(Some(Step { activity, seats }))
}

/// The steps of the rows under row 1.
fn read_steps(alloc: Global, rows: &[ByteRecord]) -> Result<Vec<Step>, Refusal>
    ensures found { IfOk result (λ v. AreSteps 1 (map fields_of rows.now) v.items) }
    ensures fault { IfErr result (IfRow (BreaksFrom 1 (map fields_of rows.now))) }
    ensures only { (steps : List Step) → AreSteps 1 (map fields_of rows.now) steps
        → MatchResult result (λ v. v.items ≡ steps) (λ e. e ≡ Refusal.Memory) }
{
    let mut steps = Vec::new(alloc);
    let mut rest = rows;
    let mut number = 1u32;
    while let Some((row, after)) = rest.split_first() {
        if number > MAX_STEPS {
            return Err(Refusal::Script { row: number + 1 });
        }
        let Some(step) = read_row(alloc, number, row)? else {
            return Err(Refusal::Script { row: number + 1 });
        };
        steps.push(step)?;
        rest = after;
        number += 1;
    }
    Ok(steps)
}

/// The script of all rows.
fn read_rows(alloc: Global, rows: &[ByteRecord]) -> Result<Script, Refusal>
    ensures found { IfOk result (IsScriptRows (map fields_of rows.now)) }
    ensures fault { IfErr result (IfRow (BreaksAt (map fields_of rows.now))) }
    ensures only { (steps : List Step) → IsScriptRows (map fields_of rows.now) steps
        → MatchResult result (λ script. script ≡ steps) (λ e. e ≡ Refusal.Memory) }
{
    let Some((first, rest)) = rows.split_first() else {
        return Err(Refusal::Script { row: 1 });
    };
    if !is_header(first) {
        return Err(Refusal::Script { row: 1 });
    }
    if rest.is_empty() {
        return Err(Refusal::Script { row: 2 });
    }
    match read_steps(alloc, rest) {
        Ok(steps) => Ok(Script::of(steps)),
        Err(refusal) => Err(refusal),
    }
}

/// The script that the text is. Row 1 has the three fields `step`, `activity`, `seats`; row k + 1 has three fields: the
/// number k in decimal without sign or leading zeros, an activity, a seat text; there are 1 to `MAX_STEPS` steps. Else
/// refusal 19 with the number of the first row that breaks a rule: 1 if row 1 is missing, 2 if there is no step,
/// `MAX_STEPS` + 2 if there are more steps; or 33 when out of memory.
pub fn read_script(alloc: Global, text: &[u8]) -> Result<Script, Refusal>
    ensures found { IfOk result (IsScript text.now) }
    ensures fault { IfErr result (IfRow (BreaksScript text.now)) }
    ensures only { (steps : List Step) → IsScript text.now steps
        → MatchResult result (λ script. script ≡ steps) (λ e. e ≡ Refusal.Memory) }
    ensures value { MatchResult result (λ script. script_of text.now ≡ Ok script)
        (IfRow (λ row. script_of text.now ≡ Err row)) }
{
    match read_csv_rows(alloc, text) {
        Ok(rows) => read_rows(alloc, &rows),
        Err(_) => Err(Refusal::Memory),
    }
}
