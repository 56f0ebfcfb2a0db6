//! A text of JSON that is being written.

ghost use Rattle.std.specs.Prelude.{◌≡◌, ◌≤◌, [], ◌∷◌, ◌++◌, OnOk, Some, decimal};
ghost use Rattle.std.specs.Str.{IsUtf8};
ghost use Rattle.std.specs.Str.Lossy.{utf8_lossy};
ghost use Rattle.json.specs.Token.{begin_object, end_object, begin_array, end_array, key, string, number, boolean, null};
ghost use Rattle.json.specs.Json.{Json, document, max_depth};
ghost use Rattle.json.specs.Tree.{json_tokens, depth};
ghost use Rattle.json.specs.Print.{print};

use json::Writer;
use sc_base::OutOfMemory;
use std::alloc::Global;
use std::marker::Model;

/// A text of JSON. Contracts see the list of its tokens. Commas and colons are put by themselves; the nesting is the
/// caller's.
#[derive(Drop)]
pub struct JsonText {
    alloc: Global,
    writer: Writer,
}

impl Model for JsonText {
    ghost use Rattle.std.specs.Prelude.{List, ◌≡◌, []};
    ghost use Rattle.json.specs.Token.{Token, tokens_code};

    ghost Value = { List Token };

    ghost coded = { tokens_code };

    ghost view = { λ t. t.writer.tokens };

    ghost invariant = { λ t. t.writer.before ≡ [] };
}

impl JsonText {
    /// The empty text. It takes no memory.
    pub fn new(alloc: Global) -> JsonText
        ensures { result ≡ [] }
    {
        JsonText {
            alloc,
            writer: Writer::new(Vec::new(alloc)),
        }
    }

    /// The bytes. Where the tokens are those of a value, the bytes are a text of that value.
    pub fn into_bytes(self) -> Vec<u8>
        ensures bytes { result.items ≡ print self }
        ensures utf8 { IsUtf8 result.items }
        ensures value { (v : Json) → self ≡ json_tokens v → depth v ≤ max_depth → document result.items ≡ Some v }
    {
        let JsonText { writer, .. } = self;
        writer.into_inner()
    }

    pub fn begin_object(&mut self) -> Result<(), OutOfMemory>
        ensures { OnOk result (self.new ≡ self.old ++ begin_object ∷ []) }
    {
        self.writer.begin_object()?;
        Ok(())
    }

    pub fn end_object(&mut self) -> Result<(), OutOfMemory>
        ensures { OnOk result (self.new ≡ self.old ++ end_object ∷ []) }
    {
        self.writer.end_object()?;
        Ok(())
    }

    pub fn begin_array(&mut self) -> Result<(), OutOfMemory>
        ensures { OnOk result (self.new ≡ self.old ++ begin_array ∷ []) }
    {
        self.writer.begin_array()?;
        Ok(())
    }

    pub fn end_array(&mut self) -> Result<(), OutOfMemory>
        ensures { OnOk result (self.new ≡ self.old ++ end_array ∷ []) }
    {
        self.writer.end_array()?;
        Ok(())
    }

    /// The name of a member; its value comes next.
    pub fn key(&mut self, name: &str) -> Result<(), OutOfMemory>
        ensures { OnOk result (self.new ≡ self.old ++ key name.now ∷ []) }
    {
        self.writer.key(name)?;
        Ok(())
    }

    /// A string.
    pub fn string(&mut self, text: &str) -> Result<(), OutOfMemory>
        ensures { OnOk result (self.new ≡ self.old ++ string text.now ∷ []) }
    {
        self.writer.string(text)?;
        Ok(())
    }

    /// Bytes as a string. What is no UTF-8 in them becomes the character U+FFFD.
    pub fn bytes(&mut self, bytes: &[u8]) -> Result<(), OutOfMemory>
        ensures { OnOk result (self.new ≡ self.old ++ string (utf8_lossy bytes.now) ∷ []) }
    {
        let text = String::from_utf8_lossy(self.alloc, bytes)?;
        self.string(text.as_str())
    }

    /// A number that is not below 0.
    pub fn count(&mut self, n: u64) -> Result<(), OutOfMemory>
        ensures { OnOk result (self.new ≡ self.old ++ number (decimal n) ∷ []) }
    {
        self.writer.u64(n)?;
        Ok(())
    }

    pub fn boolean(&mut self, bit: bool) -> Result<(), OutOfMemory>
        ensures { OnOk result (self.new ≡ self.old ++ boolean bit ∷ []) }
    {
        self.writer.boolean(bit)?;
        Ok(())
    }

    pub fn null(&mut self) -> Result<(), OutOfMemory>
        ensures { OnOk result (self.new ≡ self.old ++ null ∷ []) }
    {
        self.writer.null()?;
        Ok(())
    }

    /// A member that is a word.
    pub fn word_member(&mut self, name: &str, word: &str) -> Result<(), OutOfMemory>
        ensures { OnOk result (self.new ≡ self.old ++ key name.now ∷ string word.now ∷ []) }
    {
        self.key(name)?;
        self.string(word)
    }

    /// A member that is bytes as a string.
    pub fn bytes_member(&mut self, name: &str, bytes: &[u8]) -> Result<(), OutOfMemory>
        ensures { OnOk result (self.new ≡ self.old ++ key name.now ∷ string (utf8_lossy bytes.now) ∷ []) }
    {
        self.key(name)?;
        self.bytes(bytes)
    }

    /// A member that is a number that is not below 0.
    pub fn count_member(&mut self, name: &str, n: u64) -> Result<(), OutOfMemory>
        ensures { OnOk result (self.new ≡ self.old ++ key name.now ∷ number (decimal n) ∷ []) }
    {
        self.key(name)?;
        self.count(n)
    }

    pub fn boolean_member(&mut self, name: &str, bit: bool) -> Result<(), OutOfMemory>
        ensures { OnOk result (self.new ≡ self.old ++ key name.now ∷ boolean bit ∷ []) }
    {
        self.key(name)?;
        self.boolean(bit)
    }
}
