// Making a list and reading it.
ghost use Rattle.std.specs.Prelude.{◌≡◌, []};
ghost use Rattle.short_list.specs.Lists.{listed, Newest};

use super::ShortList;

impl<T: Copy + Default, const ROOM: usize> ShortList<T, ROOM> {
    // No item.
    pub fn new() -> Self
        ensures { listed result ≡ [] }
    {
        Self::filled(T::default())
    }
}

impl<T: Copy, const ROOM: usize> ShortList<T, ROOM> {
    // No item; the filler lies in each place until an item does.
    pub fn filled(filler: T) -> Self
        ensures { listed result ≡ [] }
    {
        ShortList {
            items: [filler; ROOM],
            len: 0,
        }
    }

    // All of them, oldest first.
    pub fn items(&self) -> &[T]
        ensures { result.now ≡ listed self.now }
    {
        &self.items[..self.len]
    }

    // The newest, if there is one.
    pub fn last(&self) -> Option<T>
        ensures { Newest (listed self.now) result }
    {
        self.items().last().copied()
    }
}
