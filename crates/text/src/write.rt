// A text that is put together, word by word.
ghost use Rattle.std.specs.Prelude.{◌≡◌, [], ◌∷◌, ◌++◌, ◌+◌, ◌*◌, ◌≤◌, ℕ, List, length, take};
ghost use Rattle.text.specs.Words.{ended, line_of};
ghost use Rattle.text.specs.Text.{longest, lines_of, ok_text};

use crate::LONGEST_TEXT;
use plan::Record;
use std::marker::Model;
use turn::Part;

// A text in the making, in an array that has room for any, since nothing here is on a heap.
#[derive(Drop)]
pub struct Text {
    bytes: [u8; LONGEST_TEXT],
    length: usize,
}

// Clauses see its bytes.
impl Model for Text {
    ghost Value = { List ℕ };

    ghost view = { λ t. take t.length t.bytes };

    ghost invariant = { λ t. t.length ≤ longest };
}

impl Text {
    pub fn new() -> Self
        ensures { result ≡ [] }
    {
        Text {
            bytes: [0; LONGEST_TEXT],
            length: 0,
        }
    }

    pub fn bytes(&self) -> &[u8]
        ensures { result.now ≡ self.now }
    {
        &self.bytes[..self.length]
    }

    pub fn word(&mut self, word: &[u8])
        requires { length self.old + length word.now ≤ longest }
        ensures { self.new ≡ self.old ++ word.now }
    {
        let end = self.length + word.len();
        self.bytes[self.length..end].copy_from_slice(word);
        self.length = end;
    }

    // A number, and what follows it where so many words are left. `crate::number` writes it into a lent buffer, which may have no
    // room for it.
    pub fn number(&mut self, n: u64, left: usize)
        requires { length self.old + length (ended n left) ≤ longest }
        ensures { self.new ≡ self.old ++ ended n left }
    {
        self.word(itoa::Buffer::new().format(n).as_bytes());
        self.word(&[crate::ending(left)]);
    }

    // A line of phases.
    pub fn line(&mut self, phases: &[Part])
        requires { length self.old + length (line_of phases.now) ≤ longest }
        ensures { self.new ≡ self.old ++ line_of phases.now }
    {
        for (i, x) in phases.iter().enumerate() {
            self.number(*x as u64, phases.len() - 1 - i);
        }
    }

    // A line for each of v layers of p phases; by place, since chunks are of one entry at least, and p may be 0.
    pub fn lines(&mut self, phases: &[Part], p: usize, v: usize)
        requires many { v * p ≤ length phases.now }
        requires room { length self.old + length (lines_of v p phases.now) ≤ longest }
        ensures { self.new ≡ self.old ++ lines_of v p phases.now }
    {
        for layer in 0..v {
            self.line(&phases[layer * p..][..p]);
        }
    }

    // The first line of a precoder's text.
    pub fn accepted(&mut self, a: Record)
        requires { length self.old + length (ok_text a) ≤ longest }
        ensures { self.new ≡ self.old ++ ok_text a }
    {
        self.word(b"ok ");
        self.number(a.ports as u64, 2);
        self.number(a.layers as u64, 1);
        self.number(a.scale as u64, 0);
    }
}
