//! The model file of the demonstration.

ghost use Rattle.std.specs.Prelude.{◌≡◌, ◌≤◌, ◌++◌, string_bytes, is_ok, if◌then◌else◌, IfOk, OnOk, Ok};
ghost use Rattle.toml.specs.View.{table_view};
ghost use Rattle.model_file.specs.ModelFile.{models_of};
ghost use Rattle.sim_gen.specs.Document.{document_text, model_text, digit_text, members_with};
ghost use Rattle.sim_gen.specs.Models.{models_with};

use std::alloc::{AllocError, Global};
use toml::Table;
use toml::ser::Error;

/// The model file of the true model with this coupling and gain, and of the other, whose gain is greater by one.
pub(crate) fn model_file(alloc: Global, coupling: u32, gain: u32) -> Result<String, AllocError>
    requires some_coupling { 1 ≤ coupling }
    requires small_coupling { coupling ≤ 2 }
    requires some_gain { 1 ≤ gain }
    requires small_gain { gain ≤ 4 }
    ensures { IfOk result (λ text. models_of (string_bytes text) ≡ Ok (models_with coupling gain)) }
{
    let table = table(alloc, coupling, gain)?;
    match toml::table_to_string(alloc, &table) {
        Ok(file) => Ok(file),
        Err(Error::OutOfMemory) => Err(AllocError),
        Err(Error::DateInvalid) => unreachable!(),
    }
}

/// The document of the model file.
fn table(alloc: Global, coupling: u32, gain: u32) -> Result<Table, AllocError>
    requires some_coupling { 1 ≤ coupling }
    requires small_coupling { coupling ≤ 2 }
    requires some_gain { 1 ≤ gain }
    requires small_gain { gain ≤ 4 }
    ensures { IfOk result (λ table. table_view table ≡ members_with coupling gain) }
{
    let text = document_text(alloc, coupling, gain)?;
    match toml::table_from_str(alloc, &text) {
        Ok(table) => Ok(table),
        Err(fault) if fault.is_memory() => Err(AllocError),
        Err(_) => unreachable!(),
    }
}

/// The text of the document.
fn document_text(alloc: Global, coupling: u32, gain: u32) -> Result<String, AllocError>
    requires coupling { coupling ≤ 2 }
    requires gain { gain ≤ 4 }
    ensures { IfOk result (λ text. string_bytes text ≡ document_text coupling gain) }
{
    let mut text = String::from_str(alloc, "version = 1\ninputs = [\"u\"]\noutputs = [\"y\"]\n")?;
    push_model("true", coupling, gain, &mut text)?;
    push_model("other", coupling, gain + 1, &mut text)?;
    Ok(text)
}

/// Appends a model's table.
fn push_model(name: &str, coupling: u32, gain: u32, text: &mut String) -> Result<(), AllocError>
    requires coupling { coupling ≤ 9 }
    requires gain { gain ≤ 9 }
    ensures { OnOk result (string_bytes text.new ≡ string_bytes text.old ++ model_text name.now coupling gain) }
{
    text.push_str("\n[[model]]\nname = \"")?;
    text.push_str(name)?;
    text.push_str("\"\nstates = 2\ndisturbances = 3\nA = [[\"0.5\", ")?;
    push_digit(coupling, text)?;
    text.push_str("], [0, \"0.5\"]]\nB = [[0], [")?;
    push_digit(gain, text)?;
    text.push_str(REST)
}

/// What stands behind the gain in a model's table.
const REST: &str = "]]
C = [[1, 0]]
D = [[0]]
E = [[\"0.000000001\", 0, 0], [0, \"0.000000001\", \"0.01\"]]
noise = [\"0.05\"]
centre = [0, 0]
radius = [1, 1]
state_max = [1000, 1000]
";

/// Appends a digit.
fn push_digit(digit: u32, text: &mut String) -> Result<(), AllocError>
    requires { digit ≤ 9 }
    ensures { string_bytes text.new ≡ (if is_ok result then string_bytes text.old ++ digit_text digit else string_bytes text.old) }
{
    text.push(char::from(b'0' + digit as u8))
}
