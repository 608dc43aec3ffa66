//! Names of symbols.
ghost use Rattle.std.specs.Prelude.{◌≡◌, ◌≤◌, ◌==◌, not, [], length, take, take_while, IfOk};
ghost use Rattle.std.specs.List.{prefix_len};
ghost use Rattle.elf32_sparc.specs.Symbols.{longest_name};

use std::alloc::{AllocError, Global};
use std::marker::Model;

/// The name of a symbol: at most 255 bytes of any value but 0. Longer names are cut.
#[derive(Drop)]
pub struct Name {
    bytes: Vec<u8>,
}

impl Model for Name {
    ghost use Rattle.std.specs.Prelude.{List, ℕ, ◌≤◌, length};

    ghost Value = { List ℕ };

    ghost view = { λ n. n.bytes.items };

    ghost invariant = { λ n. length n.bytes.items ≤ 255 };
}

impl Clone for Name {
    ghost is_clone = { λ name copy. copy ≡ name };

    fn clone(&self) -> Result<Name, AllocError> {
        let alloc = *self.bytes.allocator();
        let bytes = Vec::from_slice(alloc, &self.bytes)?;
        Ok(Name { bytes })
    }
}

/// How many bytes a name has at most.
const MOST_BYTES: usize = 255;

impl Name {
    /// No name.
    pub fn empty(alloc: Global) -> Name
        ensures { result ≡ [] }
    {
        Name {
            bytes: Vec::new(alloc),
        }
    }

    /// The bytes up to the first zero byte, and 255 of them at most.
    pub(crate) fn read(alloc: Global, bytes: &[u8]) -> Result<Name, AllocError>
        ensures { IfOk result (λ name. name ≡ take longest_name (take_while (λ byte. not (byte == 0)) bytes.now)) }
    {
        let bytes = Vec::from_slice(alloc, &bytes[..name_length(bytes)])?;
        Ok(Name { bytes })
    }

    #[inline]
    pub fn bytes(&self) -> &[u8]
        ensures bytes { result.now ≡ self.now }
        ensures few { length self.now ≤ 255 }
    {
        &self.bytes
    }
}

/// How many bytes a name has that begins there: those before a zero byte, and no more than are kept.
fn name_length(bytes: &[u8]) -> usize
    ensures length { result ≡ prefix_len (λ byte. not (byte == 0)) (take longest_name bytes.now) }
    ensures within { result ≤ length bytes.now }
    ensures few { result ≤ longest_name }
{
    bytes
        .iter()
        .take(MOST_BYTES)
        .take_while(|byte| **byte != 0)
        .count()
}
