//! The checksum of a list of elements.
ghost use Rattle.std.specs.Prelude.{◌≡◌};
ghost use Rattle.vecbench.specs.Sums.{checksum_from};

use crate::element::Element;

/// Returns the checksum of the elements, continuing from `sum`.
///
/// The number of each element and their order determine it.
pub fn checksum_from<E: Element>(sum: u64, elements: &[E]) -> u64
    ensures { result ≡ checksum_from E.number_of sum elements.now }
{
    let mut sum = sum;
    'each: for element in elements {
        let number = u64::from(element.number());
        sum = sum.wrapping_mul(31).wrapping_add(number);
    }
    sum
}
