//! Reads a slot from its start to its end, or past a limit.
ghost use Rattle.std.specs.Prelude.{◌≡◌, ◌<◌, ◌≤◌, ◌+◌, Some, None, length, IfOk, OnOk, IsErrOf};
ghost use Rattle.std.specs.Io.KnownBytes.{IsAtEnd};
ghost use Rattle.outside_io.specs.Causes.{HasCause};
ghost use Rattle.outside_io.specs.Shelf.{KeepsOthers};
ghost use Rattle.outside_io.specs.declared.shelf.GetFault.TheVariants.{Failed};
ghost use Rattle.input_files.specs.Whole.{IsFront, IsAskedAtMost, TakesAtMost, most_piece};

use outside_io::{GetFault, Shelf};
use std::alloc::Global;

/// The bytes of the file of this name, as far as the limit and one byte more. At most a piece is taken past the limit.
pub fn read_whole<F: Shelf>(
    alloc: Global,
    shelf: &mut F,
    slot: usize,
    name: &str,
    limit: usize,
) -> Result<Vec<u8>, GetFault>
    requires slot { slot < 3 }
    requires fresh { ((F.state shelf.old).slot slot).asked ≡ None }
    requires limit { limit < 1073741825 }
    ensures bytes { IfOk result (λ v. IsFront limit ((F.state shelf.old).file name.now) v.items) }
    ensures end { IfOk result (λ v. length v.items ≤ limit → IsAtEnd ((F.state shelf.new).slot slot).rest) }
    ensures taken { TakesAtMost (limit + most_piece) ((F.state shelf.old).file name.now) ((F.state shelf.new).slot slot) }
    ensures asked { OnOk result (((F.state shelf.new).slot slot).asked ≡ Some name.now) }
    ensures failed { IsErrOf result GetFault.Failed → ((F.state shelf.new).slot slot).asked ≡ Some name.now }
    ensures asked_at_most { IsAskedAtMost name.now ((F.state shelf.new).slot slot) }
    ensures others { KeepsOthers slot (F.state shelf.old) (F.state shelf.new) }
    ensures cause { HasCause Failed ((F.state shelf.old).slot slot).faults ((F.state shelf.new).slot slot).faults result }
{
    shelf.attach(slot, name)?;
    let mut bytes = Vec::new(alloc);
    let mut piece = [0u8; 4096];
    while bytes.len() <= limit {
        let count = shelf.next(slot, &mut piece)?;
        if count == 0 {
            break;
        }
        if bytes.extend_from_slice(&piece[..count]).is_err() {
            return Err(GetFault::Memory);
        }
    }
    bytes.truncate(limit + 1);
    Ok(bytes)
}
