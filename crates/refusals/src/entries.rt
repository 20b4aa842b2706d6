// Entries of a window, as signed bytes. Everything else works on sizes and signs.
ghost use Rattle.std.specs.Prelude.{◌≡◌, nat_abs};
ghost use Rattle.coxeter.specs.Length.{negative};

// C10: the size of an entry, that is, the number without its sign. Every byte has one: no byte is negated before
// its range is known (Q10), and -128 has the size 128.
pub fn size(e: i8) -> u8
    ensures { result ≡ nat_abs e }
{
    e.unsigned_abs()
}

// L4: whether an entry is below 0; 0 is not.
pub fn is_negative(e: i8) -> bool
    ensures { result ≡ negative e }
{
    e < 0
}
