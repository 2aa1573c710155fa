//! Owned texts, which contracts see as their bytes.
ghost use Rattle.std.specs.Prelude.{◌≡◌, ◌↔◌, IsTrue, IfOk};
ghost use Rattle.std.specs.String.{string_bytes};

use crate::list::List;
use crate::place::NoMemory;
use std::alloc::Global;
use std::marker::Model;

/// A text, seen by contracts as the list of its bytes in UTF-8.
#[derive(Debug, Drop)]
pub struct Text(String);

impl Model for Text {
    ghost use Rattle.std.specs.Prelude.{List, ℕ};
    ghost use Rattle.std.specs.Coded.{coded_list, coded_ℕ};
    ghost use Rattle.std.specs.String.{string_bytes};

    ghost Value = { List ℕ };

    ghost coded = { coded_list coded_ℕ };

    ghost view = { λ t. string_bytes t.0 };
}

impl Text {
    /// A copy of a borrowed text. `NoMemory` is the only other answer.
    pub fn from_str(alloc: Global, text: &str) -> Result<Text, NoMemory>
        ensures { IfOk result (λ t. t ≡ text.now) }
    {
        Ok(Text(String::from_str(alloc, text)?))
    }

    /// The text of a string, without copying it.
    pub fn from_string(text: String) -> Text
        ensures { result ≡ string_bytes text }
    {
        Text(text)
    }

    /// The text itself.
    pub fn as_str(&self) -> &str
        ensures { result.now ≡ self.now }
    {
        self.0.as_str()
    }

    /// A copy. `NoMemory` is the only other answer.
    pub fn copy(&self, alloc: Global) -> Result<Text, NoMemory>
        ensures { IfOk result (λ t. t ≡ self.now) }
    {
        Text::from_str(alloc, self.as_str())
    }

    /// Whether both texts have the same bytes.
    pub fn equals(&self, other: &Text) -> bool
        ensures { IsTrue result ↔ (self.now ≡ other.now) }
    {
        self.as_str() == other.as_str()
    }
}

/// The names of a dotted path, outermost first.
#[derive(Debug, Drop)]
pub struct Path(pub List<Text>);
