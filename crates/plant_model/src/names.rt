//! Names of inputs and outputs.

ghost use Rattle.std.specs.Prelude.{◌≡◌, ◌<◌, ◌≤◌, ◌==◌, [], ◌∷◌, ◌++◌, length, slice_index_or, bytes_eq};
ghost use Rattle.std.specs.List.{list_any};
ghost use Rattle.plant_model.specs.Counts.{most_names, most_name_bytes};

use arrayvec::{ArrayString, ArrayVec};
use std::marker::Model;

/// At most six names of at most 64 bytes each.
#[derive(Drop)]
pub struct Names {
    names: ArrayVec<ArrayString<64>, 6>,
}

impl Model for Names {
    ghost use Rattle.std.specs.Prelude.{List, ℕ, map};

    ghost Value = { List (List ℕ) };

    ghost view = { λ s. map (λ name. name.bytes) s.names.items };
}

impl Names {
    /// No names.
    pub fn new() -> Names
        ensures { result ≡ [] }
    {
        Names {
            names: ArrayVec::new(),
        }
    }

    /// How many names there are.
    pub fn len(&self) -> usize
        ensures value { result ≡ length self.now }
        ensures few { result ≤ most_names }
    {
        self.names.len()
    }

    /// Whether there is no name.
    pub fn is_empty(&self) -> bool
        ensures { result ≡ (length self.now == 0) }
    {
        self.names.is_empty()
    }

    /// The name at place `i`, at most 64 bytes.
    pub fn at(&self, i: usize) -> &str
        requires { i < length self.now }
        ensures value { result.now ≡ slice_index_or self.now i [] }
        ensures short { length result.now ≤ most_name_bytes }
    {
        let name = &self.names[i];
        name.as_str()
    }

    /// Whether this name is among them.
    #[tactic(auto, using(crate::proofs::ListTests::list_any_map))]
    pub fn contains(&self, name: &str) -> bool
        ensures { result ≡ list_any (bytes_eq name.now) self.now }
    {
        is_among(name, &self.names)
    }

    /// Adds a name at the end.
    pub fn push(&mut self, name: &str)
        requires room { length self.old < most_names }
        requires short { length name.now ≤ most_name_bytes }
        ensures { self.new ≡ self.old ++ name.now ∷ [] }
    {
        let mut text = ArrayString::new();
        text.push_str(name);
        self.names.push(text);
    }
}

fn is_among(name: &str, texts: &[ArrayString<64>]) -> bool
    ensures { result ≡ list_any (λ text. bytes_eq name.now text.bytes) texts.now }
{
    texts.iter().any(|text| name == text.as_str())
}
