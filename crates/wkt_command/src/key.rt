//! The canonical text of a geometry as a key.
ghost use Rattle.std.specs.Prelude.{◌≡◌, [], ◌∷◌, IfOk};
ghost use Rattle.std.specs.Str.{bytes_eq};
ghost use Rattle.std.specs.Cmp.{partial_equiv_from_equiv};
ghost use Rattle.std.specs.Cmp.Lexicographic.{bytes_decides, nat_list_eq_equiv};
ghost use Rattle.std.proofs.Common.{ap};

use Inner::*;
use std::alloc::{AllocError, Global};
use std::hash::{Hash, Hasher};
use std::marker::Model;

// The longest text that a key holds itself: with its length and the tag it takes 48 bytes. So a point takes no memory of
// its own.
const MAX_SHORT: usize = 46;

/// A text. A contract sees it as its bytes.
#[derive(Drop)]
pub struct Key(Inner);

#[derive(Drop)]
enum Inner {
    Short([u8; MAX_SHORT], u8),
    Long(String),
}

impl Model for Key {
    ghost use Rattle.std.specs.Prelude.{ℕ, List};

    ghost Value = { List ℕ };

    ghost use Rattle.wkt_command.specs.Key.{inner_bytes, IsWithin};

    ghost view = { λ k. inner_bytes k.0 };

    ghost invariant = { λ k. IsWithin k.0 };
}

impl Key {
    /// # Errors
    /// Out of memory, where the text is long.
    pub fn new(alloc: Global, text: &str) -> Result<Key, AllocError>
        ensures { IfOk result (λ key. key ≡ text.now) }
    {
        let bytes = text.as_bytes();
        let len = bytes.len();
        if len > MAX_SHORT {
            return Ok(Key(Long(String::from_str(alloc, text)?)));
        }
        let mut short = [0; MAX_SHORT];
        short[..len].copy_from_slice(bytes);
        Ok(Key(Short(short, len as u8)))
    }

    fn as_bytes(&self) -> &[u8]
        ensures { result.now ≡ self.now }
    {
        match &self.0 {
            Short(bytes, len) => &bytes[..usize::from(*len)],
            Long(text) => text.as_bytes(),
        }
    }
}

impl PartialEq for Key {
    ghost eq = { bytes_eq };

    ghost laws = { partial_equiv_from_equiv nat_list_eq_equiv };

    fn eq(&self, other: &Key) -> bool {
        self.as_bytes() == other.as_bytes()
    }
}

impl Eq for Key {
    ghost laws = { nat_list_eq_equiv };
}

impl Hash for Key {
    ghost hash_input = { λ key. key ∷ [] };

    ghost respects_eq = { λ x y same. ap (λ bytes. bytes ∷ []) ((bytes_decides x y).0 same) };

    fn hash<H: Hasher>(&self, state: &mut H) {
        state.write(self.as_bytes());
    }
}
