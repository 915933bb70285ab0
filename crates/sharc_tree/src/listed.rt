// Lists: elements in their order, over a `Vec`.

ghost use Rattle.std.specs.Prelude.{◌≡◌, ◌<◌, ◌==◌, length, slice_index_or};

use std::marker::Model;

/// Elements in their order. A contract sees it as the list of them, so that two are equal where their elements are.
#[derive(Drop)]
pub struct Listed<T> {
    list: Vec<T>,
}

impl<T> Model for Listed<T> {
    ghost use Rattle.std.specs.{Prelude.List, Coded.coded_list};

    ghost Value = { List T };

    ghost coded = { coded_list T.code };

    ghost view = { λ l. l.list.items };
}

impl<T> Listed<T> {
    /// The list of these elements. It takes no memory.
    pub fn of(list: Vec<T>) -> Self
        ensures { result ≡ list.items }
    {
        Listed { list }
    }

    /// The number of elements.
    pub fn len(&self) -> usize
        ensures { result ≡ length self.now }
    {
        self.list.len()
    }

    /// Whether there is no element.
    pub fn is_empty(&self) -> bool
        ensures { result ≡ (length self.now == 0) }
    {
        self.list.is_empty()
    }

    /// The element at place `i`, counted from 0.
    pub fn at(&self, i: usize) -> &T
        requires { i < length self.now }
        ensures { result.now ≡ slice_index_or self.now i result.now }
    {
        &self.list[i]
    }

    /// All the elements.
    pub fn as_slice(&self) -> &[T]
        ensures { result.now ≡ self.now }
    {
        self.list.as_slice()
    }

    /// The elements as they were handed to `of`. It takes no memory.
    pub fn into_vec(self) -> Vec<T>
        ensures { result.items ≡ self }
    {
        self.list
    }
}
