ghost use Rattle.std.specs.Prelude.{◌≡◌, [], ◌∷◌, ◌++◌, Ok, IfOk, OnOk, OnErr};

use crate::OutOfMemory;
use std::alloc::Global;
use std::marker::Model;

/// A list of bytes, as a name or a printed text.
#[derive(Drop, Debug)]
pub struct Bytes {
    vec: Vec<u8>,
}

impl Model for Bytes {
    ghost use Rattle.std.specs.Prelude.{List, ℕ};

    ghost Value = { List ℕ };

    ghost view = { λ b. b.vec.items };
}

impl Bytes {
    /// The list without bytes. It takes no memory yet, so this is always `Ok`.
    ///
    /// # Errors
    ///
    /// None: the result has the form of the other calls that take an allocator.
    pub fn new(alloc: Global) -> Result<Bytes, OutOfMemory>
        ensures { result ≡ Ok [] }
    {
        Ok(Bytes {
            vec: Vec::new(alloc),
        })
    }

    /// A copy of `bytes`.
    ///
    /// # Errors
    ///
    /// [`OutOfMemory`] where there is no memory for the copy.
    pub fn from_slice(alloc: Global, bytes: &[u8]) -> Result<Bytes, OutOfMemory>
        ensures { IfOk result (λ b. b ≡ bytes.now) }
    {
        Ok(Bytes {
            vec: Vec::from_slice(alloc, bytes)?,
        })
    }

    /// Puts `byte` at the end.
    ///
    /// # Errors
    ///
    /// [`OutOfMemory`] where there is no memory for it; the list stays as it was.
    pub fn push(&mut self, byte: u8) -> Result<(), OutOfMemory>
        ensures ok { OnOk result (self.new ≡ self.old ++ byte ∷ []) }
        ensures err { OnErr result (self.new ≡ self.old) }
    {
        self.vec.push(byte)?;
        Ok(())
    }

    /// Puts `bytes` at the end.
    ///
    /// # Errors
    ///
    /// [`OutOfMemory`] where there is no memory for them; the list stays as it was.
    pub fn extend_from_slice(&mut self, bytes: &[u8]) -> Result<(), OutOfMemory>
        ensures ok { OnOk result (self.new ≡ self.old ++ bytes.now) }
        ensures err { OnErr result (self.new ≡ self.old) }
    {
        self.vec.extend_from_slice(bytes)?;
        Ok(())
    }

    /// The bytes in order.
    pub fn as_slice(&self) -> &[u8]
        ensures { result.now ≡ self.now }
    {
        self.vec.as_slice()
    }
}
