//! Lists that own their elements.
//!
//! This layer stands on `std` alone. A `Listed` is a vector that upper layers see as the list of its
//! elements, so that their definitions speak of lists. They use that it is made of a vector (`from`),
//! shows its elements in order (`as_slice`) and gives the vector back (`into_vec`).
#![tactic(auto)]

use std::marker::Model;

/// A list, seen as its elements in order.
#[derive(Debug, Drop)]
pub struct Listed<T> {
    items: Vec<T>,
}

impl<T> Model for Listed<T> {
    ghost use Rattle.std.specs.Prelude.{List};

    ghost Value = { List T };

    ghost view = { λ l. l.items.items };
}

impl<T> From<Vec<T>> for Listed<T> {
    ghost use Rattle.std.specs.Prelude.{◌≡◌};

    ghost from_gives = { λ items list. list ≡ items.items };

    fn from(items: Vec<T>) -> Listed<T> {
        Listed { items }
    }
}

impl<T> Listed<T> {
    ghost use Rattle.std.specs.Prelude.{◌≡◌};

    /// The elements in order.
    pub fn as_slice(&self) -> &[T]
        ensures { result.now ≡ self.now }
    {
        &self.items
    }

    /// The vector of the elements.
    pub fn into_vec(self) -> Vec<T>
        ensures { result.items ≡ self }
    {
        self.items
    }
}
