// Adding items to a list and taking them from it.
ghost use Rattle.std.specs.Prelude.{◌≡◌, not, [], take, slice_get, filter};
ghost use Rattle.std.specs.List.{remove};
ghost use Rattle.short_list.specs.Lists.{listed, Pushed, Popped};

use super::ShortList;

impl<T: Copy, const ROOM: usize> ShortList<T, ROOM> {
    // Adds an item at the end; false where there is no room for it. A bool, as a set's `insert` has: an error would have nothing to tell.
    pub fn push(&mut self, item: T) -> bool
        ensures { Pushed self.old item result self.new }
    {
        if self.len == ROOM {
            return false;
        }
        self.items[self.len] = item;
        self.len += 1;
        true
    }

    // Takes the newest away, if there is one.
    pub fn pop(&mut self) -> Option<T>
        ensures { Popped self.old result self.new }
    {
        self.len = self.len.checked_sub(1)?;
        Some(self.items[self.len])
    }

    // Takes out the item at a place, if there is one; those behind it move up.
    #[tactic(auto, using(crate::proofs::Shifting::moved_up, crate::proofs::Shifting::removed_past))]
    pub fn take_out(&mut self, at: usize) -> Option<T>
        ensures item { result ≡ slice_get (listed self.old) at }
        ensures rest { listed self.new ≡ remove (listed self.old) at }
    {
        let item = *self.items().get(at)?;
        self.items.copy_within(at + 1..self.len, at);
        self.len -= 1;
        Some(item)
    }

    // Drops all but the oldest `len`; a list that is no longer than that stays.
    pub fn truncate(&mut self, len: usize)
        ensures { listed self.new ≡ take len (listed self.old) }
    {
        self.len = self.len.min(len);
    }

    pub fn clear(&mut self)
        ensures { listed self.new ≡ [] }
    {
        self.len = 0;
    }
}

impl<T: Copy + PartialEq, const ROOM: usize> ShortList<T, ROOM> {
    // Drops an item wherever it stands; the others stay in order. In place, by two indices: filled again from a copy it cost its whole room each time.
    pub fn remove(&mut self, item: T)
        ensures { listed self.new ≡ filter (λ x. not (T.eq x item)) (listed self.old) }
    {
        let mut left = 0;
        for at in 0..self.len {
            let here = self.items[at];
            if here != item {
                self.items[left] = here;
                left += 1;
            }
        }
        self.len = left;
    }
}
