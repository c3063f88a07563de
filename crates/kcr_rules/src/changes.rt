//! Lists of a few changes.
ghost use Rattle.std.specs.Prelude.{◌≡◌, [], ◌∷◌, IfOk};
ghost use Rattle.kcr_history.specs.declared.views.Change.TheVariants.{PutMark};

use kcr_base::Moment;
use kcr_history::{Change, MarkRow};
use std::alloc::{AllocError, Global};

/// One change alone.
pub fn only(alloc: Global, change: Change) -> Result<Vec<Change>, AllocError>
    ensures { IfOk result (λ changes. changes.items ≡ change ∷ []) }
{
    let mut changes = Vec::new(alloc);
    changes.push(change)?;
    Ok(changes)
}

/// Two changes, in this order.
pub fn both(alloc: Global, first: Change, second: Change) -> Result<Vec<Change>, AllocError>
    ensures { IfOk result (λ changes. changes.items ≡ first ∷ second ∷ []) }
{
    let mut changes = only(alloc, first)?;
    changes.push(second)?;
    Ok(changes)
}

/// A change and the row of the ceremony's mark, in this order.
pub fn with_mark(
    alloc: Global,
    change: Change,
    ceremony: u32,
    at: Moment,
) -> Result<Vec<Change>, AllocError>
    ensures { IfOk result (λ changes. changes.items ≡ change ∷ PutMark (record { ceremony = ceremony; at = at }) ∷ []) }
{
    both(alloc, change, Change::PutMark(MarkRow { ceremony, at }))
}
