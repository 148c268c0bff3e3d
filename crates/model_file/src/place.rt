//! Places in a model file.

ghost use Rattle.std.specs.Prelude.{◌≡◌, ◌<◌, ◌≤◌, ◌^◌, length};

/// A field of the file, or of one of its models.
#[derive(Clone, Copy, Debug, PartialEq, Eq)]
pub enum Field {
    Version,
    Inputs,
    Outputs,
    Models,
    Name,
    States,
    Disturbances,
    A,
    B,
    C,
    D,
    E,
    Noise,
    Centre,
    Radius,
    StateMax,
}

/// What there are too many of.
#[derive(Clone, Copy, Debug, PartialEq, Eq)]
pub enum Count {
    Bytes,
    Inputs,
    Outputs,
    Models,
    States,
    Disturbances,
}

/// A place: the model by its index, or none outside the models, and its field; the place in an array or the row of a matrix; the column.
#[derive(Clone, Copy, Debug, PartialEq, Eq)]
pub struct Path {
    pub model: Option<u32>,
    pub field: Field,
    pub row: Option<u32>,
    pub col: Option<u32>,
}

impl Field {
    ghost use Rattle.model_file.specs.Places.{field_text};

    /// The key of the field in its table.
    pub fn key(self) -> &'static str
        ensures text { result.now ≡ field_text self }
        ensures short { length result.now ≤ 12 }
    {
        match self {
            Field::Version => "version",
            Field::Inputs => "inputs",
            Field::Outputs => "outputs",
            Field::Models => "model",
            Field::Name => "name",
            Field::States => "states",
            Field::Disturbances => "disturbances",
            Field::A => "A",
            Field::B => "B",
            Field::C => "C",
            Field::D => "D",
            Field::E => "E",
            Field::Noise => "noise",
            Field::Centre => "centre",
            Field::Radius => "radius",
            Field::StateMax => "state_max",
        }
    }
}

impl Path {
    ghost use Rattle.model_file.specs.Places.{of_file, of_model, item_of, entry_of};

    /// A field outside the models.
    pub(crate) fn of_file(field: Field) -> Path
        ensures { result ≡ of_file field }
    {
        Path {
            model: None,
            field,
            row: None,
            col: None,
        }
    }

    /// A field of a model.
    pub(crate) fn of_model(model: u32, field: Field) -> Path
        ensures { result ≡ of_model model field }
    {
        Path {
            model: Some(model),
            field,
            row: None,
            col: None,
        }
    }

    /// An item of the array at this place.
    pub(crate) fn item(self, index: usize) -> Path
        requires { index < 2 ^ 32 }
        ensures { result ≡ item_of self index }
    {
        Path {
            row: Some(index as u32),
            ..self
        }
    }

    /// An entry of the row at this place.
    pub(crate) fn entry(self, column: usize) -> Path
        requires { column < 2 ^ 32 }
        ensures { result ≡ entry_of self column }
    {
        Path {
            col: Some(column as u32),
            ..self
        }
    }
}
