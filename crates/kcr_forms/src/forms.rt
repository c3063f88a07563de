//! The forms of whole numbers and of lists. Each reader answers exactly what a definition in `Forms` says, so that
//! whoever reads requests can say what they mean without looking into the values.
#![tactic(auto, using(crate::proofs::FormLemmas::listed_new))]

ghost use Rattle.std.specs.Prelude.{◌≡◌};
ghost use Rattle.kcr_forms.specs.Forms.{number_to, listed_of};

use kcr_base::lists::{DistinctList, ListElement};
use kcr_base::number::{Number, Numbered};

/// The number of its kind that a JSON whole number is.
pub fn number_to<K: Numbered>(number: u64) -> Option<Number<K>>
    ensures { result ≡ number_to K.limit number }
{
    match u32::try_from(number) {
        Ok(number) => Number::new(number),
        Err(_) => None,
    }
}

/// The people or the items of a list, if they are not too many and none comes twice.
pub fn listed<T: ListElement>(list: Vec<T>) -> Option<DistinctList<T>>
    ensures { result ≡ listed_of T.MAX_LEN T.texts list.items }
{
    DistinctList::new(list)
}
