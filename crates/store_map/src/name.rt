//! Names of objects, and which bytes spell one.
ghost use Rattle.std.specs.Prelude.{◌≡◌, ◌↔◌, [], ◌∷◌, IfOk, bytes_eq};
ghost use Rattle.std.specs.Cmp.{partial_equiv_from_equiv};
ghost use Rattle.std.specs.Cmp.Lexicographic.{nat_list_eq_equiv, bytes_decides};
ghost use Rattle.std.specs.Hash.{same_Alike};
ghost use Rattle.std.specs.List.{list_all};
ghost use Rattle.store_map.specs.Name.{IsName, is_name, is_name_byte};
ghost use Rattle.store_map.specs.declared.name.NameFault.TheVariants.{Malformed, OutOfMemory};

use smallvec::SmallVec;
use std::alloc::{AllocError, Global};
use std::hash::{Hash, Hasher};
use std::marker::Model;
use thiserror::Error;

/// The most characters that a name has.
pub const MAX_NAME: usize = 64;

// So many characters stand in the name itself. Longer names have a block of memory of their own.
const SHORT: usize = 16;

/// Why bytes were not made a name.
#[derive(Clone, Copy, PartialEq, Eq, Debug, Error)]
pub enum NameFault {
    #[error("a name is 1 to 64 characters of a-z, 0-9, '.', '_' and '-'")]
    Malformed,
    #[error("out of memory")]
    OutOfMemory,
}

/// An object's name: 1 to 64 characters of `a-z`, `0-9`, `.`, `_`, `-`.
#[derive(Debug)]
pub struct Name {
    bytes: SmallVec<u8, SHORT>,
}

// By hand, since a derived one is proved again in each crate that drops the type.
impl Drop for Name {
    fn drop(self) {
        let Name { bytes: _bytes } = self;
    }
}

impl Model for Name {
    ghost use Rattle.std.specs.Prelude.{ℕ, List};
    ghost use Rattle.store_map.specs.Name.{IsName};

    ghost Value = { List ℕ };

    ghost view = { λ a. a.bytes.items };

    ghost invariant = { λ a. IsName a.bytes.items };
}

impl PartialEq for Name {
    ghost eq = { bytes_eq };

    ghost laws = { partial_equiv_from_equiv nat_list_eq_equiv };

    fn eq(&self, other: &Name) -> bool {
        self.bytes.as_slice() == other.bytes.as_slice()
    }
}

impl Eq for Name {
    ghost laws = { nat_list_eq_equiv };
}

impl Hash for Name {
    ghost hash_input = { λ name. name ∷ [] };

    ghost respects_eq = { (same_Alike (λ name. name ∷ []) bytes_decides).fed };

    fn hash<H: Hasher>(&self, state: &mut H) {
        state.write(self.bytes.as_slice());
    }
}

/// Whether a name may have the byte.
pub fn is_name_byte(byte: u8) -> bool
    ensures { result ≡ is_name_byte byte }
{
    matches!(byte, b'a'..=b'z' | b'0'..=b'9' | b'.' | b'_' | b'-')
}

fn are_name_bytes(bytes: &[u8]) -> bool
    ensures { result ≡ list_all is_name_byte bytes.now }
{
    bytes.iter().all(|byte| is_name_byte(*byte))
}

/// Whether the bytes spell a name.
pub fn is_name(bytes: &[u8]) -> bool
    ensures { result ≡ is_name bytes.now }
{
    1 <= bytes.len() && bytes.len() <= MAX_NAME && are_name_bytes(bytes)
}

impl Name {
    /// The name that the text spells.
    pub fn new(alloc: Global, text: &str) -> Result<Name, NameFault>
        ensures ok { IfOk result (λ name. (name ≡ text.now) × IsName name) }
        ensures malformed { (result ≡ Err Malformed) ↔ (¬ IsName text.now) }
        ensures memory { result ≡ Err OutOfMemory → IsName text.now }
    {
        Name::from_bytes(alloc, text.as_bytes())
    }

    /// The name that the bytes spell.
    pub fn from_bytes(alloc: Global, bytes: &[u8]) -> Result<Name, NameFault>
        ensures ok { IfOk result (λ name. (name ≡ bytes.now) × IsName name) }
        ensures malformed { (result ≡ Err Malformed) ↔ (¬ IsName bytes.now) }
        ensures memory { result ≡ Err OutOfMemory → IsName bytes.now }
    {
        if !is_name(bytes) {
            return Err(NameFault::Malformed);
        }
        match SmallVec::from_slice(alloc, bytes) {
            Ok(bytes) => Ok(Name { bytes }),
            Err(_) => Err(NameFault::OutOfMemory),
        }
    }

    pub fn as_bytes(&self) -> &[u8]
        ensures bytes { result.now ≡ self.now }
        ensures form { IsName self.now }
    {
        self.bytes.as_slice()
    }

    /// The same name in memory of its own.
    pub fn copy(&self) -> Result<Name, AllocError>
        ensures { IfOk result (λ name. name ≡ self.now) }
    {
        let bytes = SmallVec::from_slice(*self.bytes.allocator(), self.bytes.as_slice())?;
        Ok(Name { bytes })
    }
}
