//! How the parts of an expression are resolved.
ghost use Rattle.std.specs.Prelude.{◌≡◌};
ghost use Rattle.mo_values.specs.Asked.{for_value, for_flat, operand, argument_of_size, read_in, subscript_of};

/// What an expression is resolved for.
#[derive(Clone, Copy, Debug, PartialEq, Eq)]
pub struct Context {
    /// Whether it is for the flat model, where a call of `div`, `mod` or `rem` is replaced by its value.
    pub flat: bool,
    /// Whether a component that is no leaf is accepted, as `size` and `ndims` do.
    pub sized: bool,
    /// What `end` stands for, in a subscript.
    pub last: Option<u32>,
}

impl Context {
    /// An expression that is read for its value, in no subscript.
    pub fn for_value() -> Context
        ensures { result ≡ for_value }
    {
        Context {
            flat: false,
            sized: false,
            last: None,
        }
    }

    /// An expression of the flat model.
    pub fn for_flat() -> Context
        ensures { result ≡ for_flat }
    {
        Context {
            flat: true,
            sized: false,
            last: None,
        }
    }

    /// An operand.
    pub fn operand(self) -> Context
        ensures { result ≡ operand self }
    {
        Context {
            flat: self.flat,
            sized: false,
            last: self.last,
        }
    }

    /// The argument of `size` or `ndims`.
    pub fn argument_of_size(self) -> Context
        ensures { result ≡ argument_of_size self }
    {
        Context {
            flat: self.flat,
            sized: true,
            last: self.last,
        }
    }

    /// What is read for its value.
    pub fn read_in(self) -> Context
        ensures { result ≡ read_in self }
    {
        Context {
            flat: false,
            sized: false,
            last: self.last,
        }
    }

    /// A subscript in a dimension of that size.
    pub fn subscript_of(size: u32) -> Context
        ensures { result ≡ subscript_of size }
    {
        Context {
            flat: false,
            sized: false,
            last: Some(size),
        }
    }
}
