//! Names and their numbers.

ghost use Rattle.std.specs.Prelude.{◌≡◌, ◌<◌, [], List, ℕ, length, slice_get, Some, IfOk, OnErr, position, option_map};
ghost use Rattle.std.specs.Str.{bytes_eq};
ghost use Rattle.asm_items.specs.Names.{with_name, place_of, name_texts, IsNumbered, AreDistinct};

use crate::item::NameId;
use std::alloc::{AllocError, Global};
use std::collections::HashMap;
use std::marker::Model;

/// A list of names, in which a number is looked up by its name as quickly as a name by its number.
/// Contracts see it as the list of the names' bytes, of which no two are equal ([`Names::are_distinct`]): a number tells
/// one name, and a name one number.
#[derive(Drop)]
pub struct Names {
    texts: Vec<Vec<u8>>,
    numbers: HashMap<Vec<u8>, u32>,
}

impl Model for Names {
    ghost Value = { List (List ℕ) };

    ghost view = { λ n. name_texts n.texts.items };

    ghost invariant = { λ n. (length n.texts.items < 4294967296) × IsNumbered n.numbers.entries (name_texts n.texts.items) × AreDistinct (name_texts n.texts.items) };
}

impl Names {
    /// No names.
    pub fn new(alloc: Global) -> Names
        ensures { result ≡ [] }
    {
        Names {
            texts: Vec::new(alloc),
            numbers: HashMap::new(alloc),
        }
    }

    /// The number of an equal name, or of the name put last.
    pub fn add(&mut self, alloc: Global, name: &[u8]) -> Result<NameId, AllocError>
        requires { length self.old < 4294967295 }
        ensures number { IfOk result (λ id. id.0 ≡ place_of self.old name.now) }
        ensures names { IfOk result (λ id. self.new ≡ with_name self.old name.now) }
        ensures err { OnErr result (self.new ≡ self.old) }
    {
        if let Some(number) = self.numbers.get(name) {
            return Ok(NameId(*number));
        }
        let text = Vec::from_slice(alloc, name)?;
        let key = Vec::from_slice(alloc, name)?;
        let number = self.texts.len() as u32;
        self.texts.reserve(1)?;
        self.numbers.insert(key, number)?;
        self.texts.push_reserved(text);
        Ok(NameId(number))
    }

    /// How many names there are.
    pub fn len(&self) -> usize
        ensures { result ≡ length self.now }
    {
        self.texts.len()
    }

    /// The name of a number in the list. To look it up gives this number again.
    pub fn get(&self, id: NameId) -> &[u8]
        requires { id.0 < length self.now }
        ensures name { slice_get self.now id.0 ≡ Some result.now }
        ensures number { position (bytes_eq result.now) self.now ≡ Some id.0 }
    {
        self.texts[id.0 as usize].as_slice()
    }

    /// The number of an equal name, if there is one.
    pub fn find(&self, name: &[u8]) -> Option<NameId>
        ensures { option_map (λ id. id.0) result ≡ position (bytes_eq name.now) self.now }
    {
        match self.numbers.get(name) {
            Some(number) => Some(NameId(*number)),
            None => None,
        }
    }

    /// A law of each list of names: no two of them are equal.
    pub fn are_distinct(&self)
        ensures { AreDistinct self.now }
    {
        // (what is known of `self` shows where a field is read)
        let _texts = &self.texts;
    }
}
