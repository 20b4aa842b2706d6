// The order of words.
ghost use Rattle.std.specs.Prelude.{◌≡◌};
ghost use Rattle.coxeter.specs.Dictionary.{shortlex};

// O1, V3: shorter, or as long and earlier in the dictionary: at the first difference the higher letter comes first.
pub(crate) fn is_shortlex(u: &[u8], v: &[u8]) -> bool
    ensures { result ≡ shortlex u.now v.now }
{
    if u.len() != v.len() {
        return u.len() < v.len();
    }
    v.cmp(&u).is_lt()
}
