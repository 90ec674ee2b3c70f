//! A text that is let go while it is read.
ghost use Rattle.std.specs.Prelude.{◌≡◌, ◌≤◌, length, drop};

use std::marker::Model;

// So few bytes that were read aren't worth a move of the others.
const FEW: usize = 65536;

/// What is left of a text while it is read. The memory of what was read is given back from time to
/// time, so that it is there for what is made of the text.
#[derive(Drop)]
pub struct TextRest {
    text: Vec<u8>,
    read: usize,
}

impl Model for TextRest {
    ghost use Rattle.std.specs.Prelude.{ℕ, List, ◌≤◌, length, drop};

    ghost Value = { List ℕ };

    ghost view = { λ rest. drop rest.read rest.text.items };

    ghost invariant = { λ rest. rest.read ≤ length rest.text.items };
}

impl TextRest {
    /// All of a text, in its memory.
    pub fn new(text: Vec<u8>) -> TextRest
        ensures { result ≡ text.items }
    {
        TextRest { text, read: 0 }
    }

    pub fn as_slice(&self) -> &[u8]
        ensures { result.now ≡ self.now }
    {
        &self.text[self.read..]
    }

    /// Goes on by so many bytes. Those left are moved only where at least a quarter was read, so that
    /// all moves together take time in proportion to the text.
    pub fn skip(&mut self, count: usize)
        requires { count ≤ length self.old }
        ensures { self.new ≡ drop count self.old }
    {
        self.read += count;
        if self.read >= FEW && self.read >= self.text.len() / 4 {
            cut_front(&mut self.text, self.read);
            self.read = 0;
        }
    }
}

// Takes so many bytes off the front. The block shrinks where it stands: a large block that is freed
// instead makes the allocator keep all later ones up to its size, with the holes that they leave as they grow.
fn cut_front(text: &mut Vec<u8>, count: usize)
    requires { count ≤ length text.old.items }
    ensures { text.new.items ≡ drop count text.old.items }
{
    let left = text.len() - count;
    text.copy_within(count.., 0);
    text.truncate(left);
    text.shrink_to_fit();
}
