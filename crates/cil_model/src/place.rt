//! Places for values and the kinds of values on a stack.

ghost use Rattle.std.specs.Prelude.{◌≡◌};
ghost use Rattle.cil_model.specs.Places.{place_text, place_number, place_of_number};

/// A type of the profile, as the places of arguments, locals, results and array elements have it
/// (ECMA-335 I.8.2.2).
#[derive(Clone, Copy, Debug, PartialEq, Eq)]
pub enum Place {
    /// No value: a result alone.
    Void = 0,
    /// `bool`: its low eight bits.
    Bool = 1,
    /// `int32`.
    Int = 2,
    /// `bool[]`.
    Bools = 3,
    /// `int32[]`.
    Ints = 4,
}

impl Place {
    /// Its name, as it stands in a printed signature.
    pub fn text(self) -> &'static [u8]
        ensures text { result.now ≡ place_text self }
    {
        match self {
            Place::Void => b"void",
            Place::Bool => b"bool",
            Place::Int => b"int32",
            Place::Bools => b"bool[]",
            Place::Ints => b"int32[]",
        }
    }

    /// The number that stands for it in a file: 0 to 4.
    pub fn number(self) -> u8
        ensures number { result ≡ place_number self }
    {
        self as u8
    }

    /// The place that a number in a file stands for. Numbers above 4 stand for none.
    pub fn of_number(number: u8) -> Option<Place>
        ensures place { result ≡ place_of_number number }
    {
        match number {
            0 => Some(Place::Void),
            1 => Some(Place::Bool),
            2 => Some(Place::Int),
            3 => Some(Place::Bools),
            4 => Some(Place::Ints),
            _ => None,
        }
    }
}

/// What a stack slot holds (ECMA-335 III.1.5).
#[derive(Clone, Copy, Debug, PartialEq, Eq)]
pub enum Kind {
    /// An int32.
    Int,
    /// A native number: an array's length.
    Native,
    /// An `int32[]` or null.
    Ints,
    /// A `bool[]` or null.
    Bools,
    /// The null reference.
    NullRef,
    /// A contract's message.
    Text,
    /// The address of an item of an `int32[]`.
    AddrInts,
    /// The address of an item of a `bool[]`.
    AddrBools,
}
