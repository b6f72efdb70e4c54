//! Binary search for an ID.
ghost use Rattle.std.specs.Prelude.{◌≡◌, ◌≤◌, ◌+◌, ◌==◌, length};
ghost use Rattle.std.specs.List.{position};
ghost use Rattle.cip_manager.specs.Index.{ids, binary_digits};

use crate::index::{Index, Steps};
use std::cmp::Ordering;

/// The position of the entry with this ID. It takes at most as many steps as the number of entries has binary
/// digits.
#[inline(always)]
pub fn position_of(index: &Index, id: u32, steps: &mut Steps) -> Option<usize>
    requires { steps.old.count ≤ 18446744073709551608 }
    ensures found { result ≡ position (λ other. other == id) (ids index.now) }
    ensures bound { steps.new.count ≤ steps.old.count + binary_digits (length index.now) }
    ensures seven { steps.new.count ≤ steps.old.count + 7 }
    ensures rises { steps.old.count ≤ steps.new.count }
{
    let mut low = 0;
    let mut high = index.len();
    while low < high {
        let middle = low + (high - low) / 2;
        match index.compare(middle, id, steps) {
            Ordering::Less => low = middle + 1,
            Ordering::Equal => return Some(middle),
            Ordering::Greater => high = middle,
        }
    }
    None
}
