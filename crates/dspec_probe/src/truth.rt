ghost use Rattle.std.specs.Prelude.{◌≡◌, ◌≤◌, ◌<◌, length};
ghost use Rattle.dspec_probe.specs.Truths.{is_truth, truths_of};

use crate::Fields;

// Whether the field at a place, of so many, is a truth value: it has no value with the number 2.
fn is_truth<F: Fields>(count: usize, place: usize) -> bool
    requires few { count ≤ 8 }
    requires within { place < 8 }
    ensures { result ≡ is_truth F.values_of count place }
{
    let mut numbers = [0u64; 8];
    numbers[place] = 2;
    F::values(&numbers[..count]).is_none()
}

/// Which fields are truth values; after the last none is.
pub(crate) fn truths<F: Fields>() -> [bool; 8]
    ensures { result ≡ truths_of F.values_of (length F.fields_are) }
{
    let fields = F::fields();
    let count = fields.as_slice().len();
    [
        is_truth::<F>(count, 0),
        is_truth::<F>(count, 1),
        is_truth::<F>(count, 2),
        is_truth::<F>(count, 3),
        is_truth::<F>(count, 4),
        is_truth::<F>(count, 5),
        is_truth::<F>(count, 6),
        is_truth::<F>(count, 7),
    ]
}
