//! A list that stays as long as it was made.

use std::marker::Model;

/// A list that keeps the length with which it was made. Contracts see it as the list of its items, whatever
/// room it was made with.
#[derive(Debug, Drop)]
pub struct FixedList<T> {
    vec: Vec<T>,
}

impl<T> Model for FixedList<T> {
    ghost use Rattle.std.specs.Prelude.{List};

    ghost Value = { List T };

    ghost view = { λ list. list.vec.items };
}

impl<T> FixedList<T> {
    ghost use Rattle.std.specs.Prelude.{◌≡◌, length};

    /// The list of these items. Takes no memory.
    pub fn new(vec: Vec<T>) -> FixedList<T>
        ensures { result ≡ vec.items }
    {
        FixedList { vec }
    }

    /// The items in order.
    pub fn items(&self) -> &[T]
        ensures { result.now ≡ self.now }
    {
        self.vec.as_slice()
    }

    /// Puts these items in the place of as many. Takes no memory.
    pub fn replace_all(&mut self, items: &[T])
    where
        T: Copy,
        requires { length items.now ≡ length self.old }
        ensures { self.new ≡ items.now }
    {
        self.vec.as_mut_slice().copy_from_slice(items);
    }
}
