// Calls on windows.
ghost use Rattle.std.specs.Prelude.{◌≡◌};
ghost use Rattle.coxeter.specs.Calls.{product_of_windows, inverse_of_window, normal_form_of_window, length_of_window, crossings_of_window};
ghost use Rattle.c_api.specs.Calls.{numbered, number_of, crossing_numbers, listed};

use crate::numbers::{byte, number_of, write_crossings};

// I5: the normal form of a window, written to the front of `out`. Returns its length.
pub fn winnathey_normal_form_of_window(kind: u32, rank: u32, window: &[i8], out: &mut [u8]) -> i64
    ensures { (result, out.new) ≡ numbered (normal_form_of_window kind rank window.now out.old) }
{
    number_of(window::normal_form_of_window(byte(kind), byte(rank), window, out))
}

// I9: the product of two windows of one kind and rank, written to the front of `out`. Returns its length.
pub fn winnathey_product_of_windows(
    kind: u32,
    rank: u32,
    first: &[i8],
    second: &[i8],
    out: &mut [i8],
) -> i64
    ensures { (result, out.new) ≡ numbered (product_of_windows kind rank first.now second.now out.old) }
{
    number_of(window::product_of_windows(byte(kind), byte(rank), first, second, out))
}

// I10: the inverse of a window, written to the front of `out`. Returns its length.
pub fn winnathey_inverse_of_window(kind: u32, rank: u32, window: &[i8], out: &mut [i8]) -> i64
    ensures { (result, out.new) ≡ numbered (inverse_of_window kind rank window.now out.old) }
{
    number_of(window::inverse_of_window(byte(kind), byte(rank), window, out))
}

// I12: the length of a window's normal form.
pub fn winnathey_length_of_window(kind: u32, rank: u32, window: &[i8]) -> i64
    ensures { result ≡ number_of (length_of_window kind rank window.now) }
{
    number_of(window::length_of_window(byte(kind), byte(rank), window))
}

// I14: the length of a window's normal form as its three counts: inversions, negative sum pairs and negative
// entries go to the first three places of `counts`. Returns their total.
pub fn winnathey_crossings_of_window(kind: u32, rank: u32, window: &[i8], counts: &mut [u64]) -> i64
    ensures { (result, counts.new) ≡ listed (crossing_numbers (crossings_of_window kind rank window.now)) counts.old }
{
    number_of(write_crossings(
        window::crossings_of_window(byte(kind), byte(rank), window),
        counts,
    ))
}
