//! Parts of bytes, named as the definitions name them.
ghost use Rattle.std.specs.Prelude.{◌≡◌, ◌≤◌, length, drop, take};

/// The first bytes.
pub(crate) fn front(bytes: &[u8], count: usize) -> &[u8]
    requires { count ≤ length bytes.now }
    ensures { result.now ≡ take count bytes.now }
{
    &bytes[..count]
}

/// The bytes from a place on.
pub(crate) fn rest(bytes: &[u8], from: usize) -> &[u8]
    requires { from ≤ length bytes.now }
    ensures { result.now ≡ drop from bytes.now }
{
    &bytes[from..]
}
