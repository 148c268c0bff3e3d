// Files in memory, by name.
ghost use Rattle.std.specs.Prelude.{◌≡◌, ◌≢◌, ℕ, List, Option, None, Some, OnOk, OnErr};
ghost use Rattle.std.specs.Option.{option_copied};

use std::alloc::{AllocError, Global};

/// A file in memory.
#[derive(Drop)]
struct Kept {
    name: String,
    bytes: Vec<u8>,
}

/// Files in memory. Of two with one name the later counts.
#[derive(Drop)]
pub struct Files {
    kept: Vec<Kept>,
}

impl Files {
    ghost use Rattle.outside_io.specs.Files.{bytes_of};

    pub fn new(alloc: Global) -> Files
        ensures { (n : List ℕ) → bytes_of result n ≡ None }
    {
        Files {
            kept: Vec::new(alloc),
        }
    }

    /// Makes these bytes the file of this name.
    pub fn add(&mut self, alloc: Global, name: &str, bytes: &[u8]) -> Result<(), AllocError>
        ensures added { OnOk result (bytes_of self.new name.now ≡ Some bytes.now) }
        ensures others { OnOk result ((n : List ℕ) → n ≢ name.now → bytes_of self.new n ≡ bytes_of self.old n) }
        ensures err { OnErr result ((n : List ℕ) → bytes_of self.new n ≡ bytes_of self.old n) }
    {
        let kept = Kept {
            name: String::from_str(alloc, name)?,
            bytes: bytes.to_vec(alloc)?,
        };
        self.kept.push(kept)?;
        Ok(())
    }

    /// The bytes of the file of this name.
    pub fn find(&self, name: &str) -> Option<&[u8]>
        ensures { option_copied result ≡ bytes_of self.now name.now }
    {
        let mut found: Option<&[u8]> = None;
        for kept in &self.kept {
            if kept.name.as_str() == name {
                found = Some(&kept.bytes);
            }
        }
        found
    }
}
