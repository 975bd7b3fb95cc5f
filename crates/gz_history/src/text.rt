//! A text that grows at its end.
ghost use Rattle.std.specs.Prelude.{◌≡◌, [], ◌++◌, OnOk, codes, decimal};
ghost use Rattle.gz_history.specs.Log.{bytes_text};

use std::alloc::{AllocError, Global};
use std::marker::Model;

#[derive(Drop)]
pub struct Text {
    bytes: Vec<u8>,
}

impl Model for Text {
    ghost use Rattle.std.specs.Prelude.{List, ℕ};

    ghost Value = { List ℕ };

    ghost view = { λ t. t.bytes.items };
}

impl Text {
    pub fn new(alloc: Global) -> Text
        ensures { result ≡ [] }
    {
        Text {
            bytes: Vec::new(alloc),
        }
    }

    pub fn into_bytes(self) -> Vec<u8>
        ensures { result.items ≡ self }
    {
        let Text { bytes } = self;
        bytes
    }

    pub fn put(&mut self, bytes: &[u8]) -> Result<(), AllocError>
        ensures { OnOk result (self.new ≡ self.old ++ bytes.now) }
    {
        self.bytes.extend_from_slice(bytes)
    }

    pub fn number(&mut self, alloc: Global, n: u64) -> Result<(), AllocError>
        ensures { OnOk result (self.new ≡ self.old ++ decimal n) }
    {
        let digits = n.to_string(alloc)?;
        self.bytes.extend_from_slice(digits.as_bytes())
    }

    /// A word and a number after it.
    pub fn counted(&mut self, alloc: Global, word: &[u8], n: u64) -> Result<(), AllocError>
        ensures { OnOk result (self.new ≡ self.old ++ (word.now ++ decimal n)) }
    {
        self.put(word)?;
        self.number(alloc, n)
    }

    /// A word, a number, a space and a count.
    pub fn counts(
        &mut self,
        alloc: Global,
        word: &[u8],
        n: u64,
        count: u32,
    ) -> Result<(), AllocError>
        ensures { OnOk result (self.new ≡ self.old ++ (word.now ++ decimal n ++ codes " " ++ decimal count)) }
    {
        self.counted(alloc, word, n)?;
        self.counted(alloc, b" ", count as u64)
    }

    /// A space and a word after it.
    pub fn word(&mut self, word: &[u8]) -> Result<(), AllocError>
        ensures { OnOk result (self.new ≡ self.old ++ (codes " " ++ word.now)) }
    {
        self.put(b" ")?;
        self.put(word)
    }

    /// The bytes in hexadecimal, or a dash where there are none.
    pub fn bytes(&mut self, alloc: Global, bytes: &[u8]) -> Result<(), AllocError>
        ensures { OnOk result (self.new ≡ self.old ++ bytes_text bytes.now) }
    {
        if bytes.is_empty() {
            return self.bytes.extend_from_slice(b"-");
        }
        let digits = hex::encode(alloc, bytes)?;
        self.bytes.extend_from_slice(digits.as_bytes())
    }
}
