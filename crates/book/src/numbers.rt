// Two-byte numbers, low byte first, and runs of bytes.
ghost use Rattle.std.specs.Prelude.{◌≡◌, ◌+◌, ◌<◌, ◌≤◌, length};
ghost use Rattle.std.proofs.lemmas.List.Edits.{sets};
ghost use Rattle.book_format.specs.Books.{two_at, two};

// The number at p.
pub(crate) fn two_at(b: &[u8], p: usize) -> usize
    requires { p + 1 < length b.now }
    ensures { (result ≡ two_at b.now p) × (result < 65536) }
{
    u16::from_le_bytes([b[p], b[p + 1]]) as usize
}

// The number x modulo 65,536, written at p, byte by byte: a copy of the two would wait for their stores.
pub(crate) fn put_two(out: &mut [u8], p: usize, x: usize)
    requires { p + 1 < length out.old }
    ensures { out.new ≡ sets out.old p (two x) }
{
    let bytes = ((x % 65536) as u16).to_le_bytes();
    out[p] = bytes[0];
    out[p + 1] = bytes[1];
}

// The elements of `part` written from p on. Three crates have their own copy: a public one would need a `requires`.
pub(crate) fn copy_to<T: Copy>(part: &[T], out: &mut [T], p: usize)
    requires { p + length part.now ≤ length out.old }
    ensures { out.new ≡ sets out.old p part.now }
{
    out[p..p + part.len()].copy_from_slice(part);
}
