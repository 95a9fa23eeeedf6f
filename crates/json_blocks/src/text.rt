// A text that is put together: keys, numbers, byte strings and lists.
ghost use Rattle.std.specs.Prelude.{◌≡◌, [], false, length, IfOk};
ghost use Rattle.hex.specs.Hex.{encode_lower};
ghost use Rattle.json.specs.Print.{quoted};
ghost use Rattle.serde_json.specs.Data.{array};
ghost use Rattle.serde_json.specs.Written.{comma_if};
ghost use Rattle.json_defs.specs.Form.{items, byte_string, hex_number, named_byte};
ghost use Rattle.json_blocks.specs.Text.{IsPlain, Puts, PutsTree, PutsRow, key_text};

use crate::leaves::{number_digits, put_digits};
use outside::NoMemory;
use std::alloc::Global;

/// What has a place in the text of a block: a member's value, or an item of a list.
pub(crate) trait Written {
    ghost use Rattle.serde_json.specs.Data.{Data};
    ghost use Rattle.json_blocks.specs.Text.{PutsTree};

    ghost tree: { Self → Data };

    /// Puts the text of its tree.
    fn write(&self, out: &mut Text)
        ensures { PutsTree out.old out.new (tree self.now) };
}

/// The items of a list that a value has, by their places.
pub(crate) trait Items<V> {
    ghost use Rattle.std.specs.Prelude.{◌≡◌, ◌<◌, List, Some, length, slice_get};
    ghost use Rattle.serde_json.specs.Data.{Data};
    ghost use Rattle.json_blocks.specs.Text.{PutsTree};

    ghost trees: { V → List Data };

    /// Puts the text of item `i`.
    fn write(of: &V, i: usize, out: &mut Text)
        requires { i < length (trees of.now) }
        ensures { (d : Data) → slice_get (trees of.now) i ≡ Some d → PutsTree out.old out.new d };
}

/// A text that grows. Once memory has run out, nothing more is put, and there is no text at the end.
#[derive(Drop)]
pub struct Text {
    bytes: Vec<u8>,
    short: bool,
}

impl Text {
    /// An empty text, with room for so many bytes.
    pub fn with_capacity(alloc: Global, capacity: usize) -> Result<Text, NoMemory>
        ensures empty { IfOk result (λ text. text.bytes.items ≡ []) }
    {
        Ok(Text {
            bytes: Vec::with_capacity(alloc, capacity)?,
            short: false,
        })
    }

    /// The whole text.
    pub fn done(self) -> Result<Vec<u8>, NoMemory>
        ensures whole { IfOk result (λ bytes. bytes.items ≡ self.bytes.items) }
        ensures enough { IfOk result (λ _. self.short ≡ false) }
    {
        if self.short {
            Err(NoMemory)
        } else {
            Ok(self.bytes)
        }
    }

    /// Puts bytes as they are.
    pub fn put(&mut self, bytes: &[u8])
        ensures { Puts self.old self.new bytes.now }
    {
        if self.short {
            return;
        }
        match self.bytes.extend_from_slice(bytes) {
            Ok(()) => {}
            Err(_) => self.short = true,
        }
    }

    /// Puts two hex digits for each byte.
    fn put_hex(&mut self, bytes: &[u8])
        ensures { Puts self.old self.new (encode_lower bytes.now) }
    {
        if self.short {
            return;
        }
        match put_digits(&mut self.bytes, bytes) {
            Ok(()) => {}
            Err(_) => self.short = true,
        }
    }

    /// Puts a text that stands for itself.
    pub(crate) fn put_text(&mut self, text: &str)
        requires { IsPlain text.now }
        ensures { Puts self.old self.new (quoted text.now) }
    {
        self.put(b"\"");
        self.put(text.as_bytes());
        self.put(b"\"");
    }

    /// Puts a number.
    pub(crate) fn put_number(&mut self, n: u128)
        ensures { PutsTree self.old self.new (hex_number.tree n) }
    {
        let mut text = [0u8; 64];
        let start = number_digits(n, &mut text);
        self.put(b"\"0x");
        self.put(&text[start..]);
        self.put(b"\"");
    }

    /// Puts a byte string.
    pub(crate) fn put_bytes(&mut self, bytes: &[u8])
        ensures { PutsTree self.old self.new (byte_string.tree bytes.now) }
    {
        self.put(b"\"0x");
        self.put_hex(bytes);
        self.put(b"\"");
    }

    /// Puts what stands before a key, the key and its colon.
    fn put_key(&mut self, mark: u8, key: &str)
        requires { IsPlain key.now }
        ensures { Puts self.old self.new (key_text mark key.now) }
    {
        self.put(&[mark, b'"']);
        self.put(key.as_bytes());
        self.put(b"\":");
    }

    /// Puts a member that is a number.
    pub fn number_row(&mut self, mark: u8, key: &str, n: u128)
        requires { IsPlain key.now }
        ensures { PutsRow self.old self.new mark key.now (hex_number.tree n) }
    {
        self.put_key(mark, key);
        self.put_number(n);
    }

    /// Puts a member that is a byte string.
    pub fn bytes_row(&mut self, mark: u8, key: &str, bytes: &[u8])
        requires { IsPlain key.now }
        ensures { PutsRow self.old self.new mark key.now (byte_string.tree bytes.now) }
    {
        self.put_key(mark, key);
        self.put_bytes(bytes);
    }

    /// Puts a byte that has names for 0 and 1.
    fn put_named(&mut self, zeroth: &str, first: &str, byte: u8)
        requires zeroth { IsPlain zeroth.now }
        requires first { IsPlain first.now }
        ensures { PutsTree self.old self.new ((named_byte zeroth.now first.now).tree byte) }
    {
        if byte == 0 {
            self.put_text(zeroth)
        } else if byte == 1 {
            self.put_text(first)
        } else {
            self.put_bytes(&[byte])
        }
    }

    /// Puts a member that is a byte with names for 0 and 1.
    pub(crate) fn named_row(&mut self, mark: u8, key: &str, zeroth: &str, first: &str, byte: u8)
        requires key { IsPlain key.now }
        requires zeroth { IsPlain zeroth.now }
        requires first { IsPlain first.now }
        ensures { PutsRow self.old self.new mark key.now ((named_byte zeroth.now first.now).tree byte) }
    {
        self.put_key(mark, key);
        self.put_named(zeroth, first, byte);
    }

    /// Puts a member of an object, by what stands before it.
    pub(crate) fn row<W: Written>(&mut self, mark: u8, key: &str, value: &W)
        requires { IsPlain key.now }
        ensures { PutsRow self.old self.new mark key.now (W.tree value.now) }
    {
        self.put_key(mark, key);
        value.write(self);
    }

    /// Puts a member that is a list of `count` items.
    pub(crate) fn list_row<L: Items<V>, V>(&mut self, mark: u8, key: &str, count: usize, of: &V)
        requires plain { IsPlain key.now }
        requires count { count ≡ length (L.trees of.now) }
        ensures { PutsRow self.old self.new mark key.now (array (items (λ d. d) (L.trees of.now))) }
    {
        self.put_key(mark, key);
        self.put_list::<L, V>(count, of);
    }

    /// Puts a list of `count` items.
    fn put_list<L: Items<V>, V>(&mut self, count: usize, of: &V)
        requires { count ≡ length (L.trees of.now) }
        ensures { PutsTree self.old self.new (array (items (λ d. d) (L.trees of.now))) }
    {
        self.put(b"[");
        'items: for i in 0..count {
            self.put_comma(i > 0);
            L::write(of, i, self);
        }
        self.put(b"]");
    }

    /// Puts a comma, where something stands before.
    fn put_comma(&mut self, later: bool)
        ensures { Puts self.old self.new (comma_if later) }
    {
        if later {
            self.put(b",");
        }
    }
}
