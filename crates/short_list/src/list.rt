ghost use Rattle.std.specs.Prelude.{◌≡◌, ◌≤◌, [], ◌∷◌, ◌++◌, length, min, replicate, slice_set, take};
ghost use Rattle.std.specs.List.{slice_get};
ghost use Rattle.short_list.specs.ShortList.{items};

/// At most `N` values, in their order: the first `len` of `slots`.
#[derive(Clone, Copy)]
pub struct ShortList<T, const N: usize> {
    slots: [T; N],
    len: usize,
}

impl<T: Copy + Default, const N: usize> ShortList<T, N> {
    /// No value.
    pub fn new() -> ShortList<T, N>
        ensures { items result ≡ [] }
    {
        ShortList {
            slots: [T::default(); N],
            len: 0,
        }
    }

    /// One value so many times, but at most `N` times.
    pub fn filled(value: T, len: usize) -> ShortList<T, N>
        ensures { items result ≡ replicate (min len N) value }
    {
        ShortList {
            slots: [value; N],
            len: len.min(N),
        }
    }

    /// A copy of these values, of more than `N` the first `N`.
    pub fn from_slice(values: &[T]) -> ShortList<T, N>
        ensures { items result ≡ take N values.now }
    {
        let mut slots = [T::default(); N];
        let len = values.len().min(N);
        slots[..len].copy_from_slice(&values[..len]);
        ShortList { slots, len }
    }
}

impl<T: Copy, const N: usize> ShortList<T, N> {
    /// All of them.
    pub fn as_slice(&self) -> &[T]
        ensures values { result.now ≡ items self.now }
        ensures few { length result.now ≤ N }
    {
        let slots: &[T] = &self.slots;
        &slots[..self.len.min(slots.len())]
    }

    /// How many there are.
    pub fn len(&self) -> usize
        ensures value { result ≡ length (items self.now) }
        ensures few { result ≤ N }
    {
        self.as_slice().len()
    }

    /// The value at a place, counted from 0.
    pub fn get(&self, place: usize) -> Option<T>
        ensures { result ≡ slice_get (items self.now) place }
    {
        self.as_slice().get(place).copied()
    }

    /// Puts a value at the end; where there are `N` already it is not kept.
    pub fn push(&mut self, value: T)
        ensures { items self.new ≡ take N (items self.old ++ (value ∷ [])) }
    {
        if self.len < N {
            self.slots[self.len] = value;
            self.len += 1;
        }
    }
    /// Puts a value into the place of another, counted from 0; past the end nothing changes.
    pub fn set(&mut self, place: usize, value: T)
        ensures { items self.new ≡ slice_set (items self.old) place value }
    {
        if place < self.len() {
            self.slots[place] = value;
        }
    }
}
