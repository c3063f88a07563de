//! Lists of codes with commas between them.
ghost use Rattle.std.specs.Prelude.{◌≡◌, map, option_map, option_and_then, IfOk};
ghost use Rattle.kcr_forms.specs.Forms.{listed_of};
ghost use Rattle.kcr_forms.specs.Lines;

use crate::forms::listed;
use kcr_base::Written;
use kcr_base::lists::{DistinctList, ListElement};
use std::alloc::{AllocError, Global};

/// The texts between commas.
fn between_commas(alloc: Global, text: &[u8]) -> Result<Vec<&[u8]>, AllocError>
    ensures { IfOk result (λ codes. map (λ code. code.now) codes.items ≡ Lines.between_commas text.now) }
{
    text.split(|b| *b == b',').collect(alloc)
}

/// The values that texts give, if each gives one.
fn each_of<T: Written + Drop>(alloc: Global, codes: &[&[u8]]) -> Result<Option<Vec<T>>, AllocError>
    ensures { IfOk result (λ values.
        option_map (λ list. list.items) values ≡ Lines.each_of T.form (map (λ code. code.now) codes.now)) }
{
    let mut list = Vec::new(alloc);
    for code in codes {
        let Some(value) = T::from_text(alloc, code)? else {
            return Ok(None);
        };
        list.push(value)?;
    }
    Ok(Some(list))
}

/// The list whose values stand between commas. The error is out of memory.
pub(crate) fn read_list<T: ListElement + Drop>(
    alloc: Global,
    text: &[u8],
) -> Result<Option<DistinctList<T>>, AllocError>
    ensures { IfOk result (λ list. list
        ≡ option_and_then (listed_of T.MAX_LEN T.texts) (Lines.each_of T.form (Lines.between_commas text.now))) }
{
    let codes = between_commas(alloc, text)?;
    let Some(list) = each_of(alloc, &codes)? else {
        return Ok(None);
    };
    Ok(listed(list))
}
