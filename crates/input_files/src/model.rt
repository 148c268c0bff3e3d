//! The model file, read whole and judged.
ghost use Rattle.std.specs.Prelude.{◌≡◌, ◌≢◌, ℕ, ◌≤◌, ◌+◌, None, Ok, Err, IfOk, IfErr, OnOk};
ghost use Rattle.std.specs.Io.KnownBytes.{IsAtEnd};
ghost use Rattle.outside_io.specs.Shelf.{KeepsOthers};
ghost use Rattle.model_file.specs.ModelFile.{models_of};
ghost use Rattle.input_files.specs.Judged.{is_memory, JudgesModel, IsModelEnding};
ghost use Rattle.input_files.specs.Told.{OnFile, ReadFailed};
ghost use Rattle.input_files.specs.Whole.{IsAskedAtMost, TakesAtMost, most_model, most_piece};

use crate::whole::read_whole;
use model_file::{Bank0, ModelFault, read_models};
use outside_io::{GetFault, Shelf};
use std::alloc::Global;

/// The longest model file, in bytes.
const MOST_MODEL: usize = 1_048_576;

/// The slot of the model file.
const SLOT: usize = 0;

/// Why a model file gave no models.
#[derive(Debug, Drop)]
pub enum ModelEnding {
    /// It is refused.
    Refused(ModelFault),
    /// The slot can't be read.
    Read,
    /// Memory ran out.
    Memory,
}

/// The models of the model file of this name, read through slot 0.
pub fn read_model<F: Shelf>(alloc: Global, shelf: &mut F, model: &str) -> Result<Bank0, ModelEnding>
    requires fresh { ((F.state shelf.old).slot 0).asked ≡ None }
    ensures read_all { IfOk result (λ bank. OnFile (F.state shelf.old) model.now (λ m. models_of m ≡ Ok bank)) }
    ensures says { IfErr result (λ e. OnFile (F.state shelf.old) model.now (JudgesModel e)) }
    ensures faults { IfErr result IsModelEnding }
    ensures read { result ≡ Err ModelEnding.Read → ReadFailed model.now ((F.state shelf.old).slot 0) ((F.state shelf.new).slot 0) }
    ensures at_end { OnOk result (IsAtEnd ((F.state shelf.new).slot 0).rest) }
    ensures taken { TakesAtMost (most_model + most_piece) ((F.state shelf.old).file model.now) ((F.state shelf.new).slot 0) }
    ensures asked { IsAskedAtMost model.now ((F.state shelf.new).slot 0) }
    ensures others { KeepsOthers 0 (F.state shelf.old) (F.state shelf.new) }
    ensures later { ((F.state shelf.old).slot 0).faults ≤ ((F.state shelf.new).slot 0).faults }
{
    let bytes = match read_whole(alloc, shelf, SLOT, model, MOST_MODEL) {
        Ok(bytes) => bytes,
        Err(GetFault::Failed) => return Err(ModelEnding::Read),
        Err(GetFault::Memory) => return Err(ModelEnding::Memory),
    };
    models_of(alloc, &bytes)
}

/// The models of a file's bytes, or of as many of them as are more than a model file has.
fn models_of(alloc: Global, bytes: &[u8]) -> Result<Bank0, ModelEnding>
    ensures ok { IfOk result (λ bank. models_of bytes.now ≡ Ok bank) }
    ensures says { IfErr result (λ e. JudgesModel e bytes.now) }
    ensures faults { IfErr result IsModelEnding }
    ensures no_read { result ≢ Err ModelEnding.Read }
{
    match read_models(alloc, bytes) {
        Ok(bank) => Ok(bank),
        Err(fault) => {
            if is_memory(&fault) {
                Err(ModelEnding::Memory)
            } else {
                Err(ModelEnding::Refused(fault))
            }
        }
    }
}

/// Whether memory ran out.
fn is_memory(fault: &ModelFault) -> bool
    ensures { result ≡ is_memory fault.now }
{
    match fault {
        ModelFault::Memory => true,
        _ => false,
    }
}
