//! A text is cut into its items as its pieces come.

ghost use Rattle.std.specs.Prelude.{◌≡◌, [], ◌∷◌, ◌++◌, List, ℕ, IfSome, IfNone, IfOk, OnOk, OnErr};
ghost use Rattle.script_lines.specs.Items.{items_of, whole_items_of};

use crate::first::{first_item, last_item};
use crate::item::Item;
use line_text::{OutOfMemory, after};
use std::alloc::Global;
use std::marker::Model;

/// Takes a text in pieces and gives its items. Contracts see it as the bytes that it was fed and that no
/// item took.
#[derive(Drop)]
pub struct Splitter {
    alloc: Global,
    vec: Vec<u8>,
    at: usize,
}

impl Model for Splitter {
    ghost use Rattle.std.specs.Prelude.{◌≤◌, ℕ, List, length, drop};

    ghost Value = { List ℕ };

    ghost view = { λ s. drop s.at s.vec.items };

    ghost invariant = { λ s. s.at ≤ length s.vec.items };
}

impl Splitter {
    /// The splitter of a text of which no piece has come.
    ///
    /// # Errors
    ///
    /// [`OutOfMemory`] where there is no memory for it; it takes none yet.
    pub fn new(alloc: Global) -> Result<Splitter, OutOfMemory>
        ensures { IfOk result (λ splitter. splitter ≡ []) }
    {
        Ok(Splitter {
            alloc,
            vec: Vec::new(alloc),
            at: 0,
        })
    }

    // Gives up the room of the items that were taken.
    fn forget_taken(&mut self) -> Result<(), OutOfMemory>
        ensures { self.new ≡ self.old }
    {
        if self.at == 0 {
            return Ok(());
        }
        let left = Vec::from_slice(self.alloc, &self.vec[self.at..])?;
        self.vec = left;
        self.at = 0;
        Ok(())
    }

    /// Takes the next piece of the text.
    ///
    /// # Errors
    ///
    /// [`OutOfMemory`] where there is no memory for it; the splitter stays as it was.
    pub fn feed(&mut self, piece: &[u8]) -> Result<(), OutOfMemory>
        ensures ok { OnOk result (self.new ≡ self.old ++ piece.now) }
        ensures err { OnErr result (self.new ≡ self.old) }
    {
        self.forget_taken()?;
        self.vec.extend_from_slice(piece)?;
        Ok(())
    }

    /// Gives the next item that is whole without the end of the input, and `None` exactly where none is left.
    ///
    /// Its work is of the order of the bytes of the item that it gives, and, where it gives none, of all that are left:
    /// an open block is looked through from its first line on, again at each such call.
    ///
    /// # Errors
    ///
    /// [`OutOfMemory`] where there is no memory for the item; the splitter stays as it was.
    pub fn take(&mut self) -> Result<Option<Item>, OutOfMemory>
        ensures whole { IfOk result (λ taken. IfSome taken (λ item. whole_items_of self.old ≡ item ∷ whole_items_of self.new)) }
        ensures items { IfOk result (λ taken. IfSome taken (λ item. items_of self.old ≡ item ∷ items_of self.new)) }

        // The same holds with whatever comes after.
        ensures whole_more { IfOk result (λ taken. IfSome taken (λ item. (rest : List ℕ)
            → whole_items_of (self.old ++ rest) ≡ item ∷ whole_items_of (self.new ++ rest))) }
        ensures items_more { IfOk result (λ taken. IfSome taken (λ item. (rest : List ℕ)
            → items_of (self.old ++ rest) ≡ item ∷ items_of (self.new ++ rest))) }

        ensures none { IfOk result (λ taken. IfNone taken (whole_items_of self.old ≡ [])) }
        ensures kept { IfOk result (λ taken. IfNone taken (self.new ≡ self.old)) }
        ensures err { OnErr result (self.new ≡ self.old) }
    {
        let Some(first) = first_item(self.alloc, after(&self.vec, self.at))? else {
            return Ok(None);
        };
        self.at += first.len;
        Ok(Some(first.item))
    }

    /// The item that the end of the input makes whole, and `None` where there is none.
    ///
    /// # Errors
    ///
    /// [`OutOfMemory`] where there is no memory for the item.
    pub fn finish(self) -> Result<Option<Item>, OutOfMemory>
        requires { whole_items_of self ≡ [] }
        ensures some { IfOk result (λ last. IfSome last (λ item. items_of self ≡ item ∷ [])) }
        ensures none { IfOk result (λ last. IfNone last (items_of self ≡ [])) }
    {
        last_item(self.alloc, after(&self.vec, self.at))
    }
}
