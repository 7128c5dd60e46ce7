// A list in a buffer.

ghost use Rattle.std.specs.Prelude.{◌≡◌, ◌≤◌, [], ◌∷◌, ◌++◌, length, take, replicate};

// A list in a buffer, so that it takes no memory but the buffer's. What a full one has no room for is left out.
#[derive(Drop)]
pub struct Filled<'a, T> {
    buffer: &'a mut [T],
    count: usize,
    ghost fits: { count ≤ length buffer.now },
}

impl<'a, T: Copy> Filled<'a, T> {
    ghost use Rattle.cases.specs.Items.{items, capacity};

    pub fn new(buffer: &'a mut [T]) -> Filled<'a, T>
        ensures empty { items result ≡ [] }
        ensures room { capacity result ≡ length buffer.old }
    {
        Filled { buffer, count: 0 }
    }

    // How many items it can hold.
    pub fn capacity(&self) -> usize
        ensures { result ≡ capacity self.now }
    {
        self.buffer.len()
    }

    pub fn as_slice(&self) -> &[T]
        ensures { result.now ≡ items self.now }
    {
        &self.buffer[..self.count]
    }

    pub fn clear(&mut self)
        ensures empty { items self.new ≡ [] }
        ensures room { capacity self.new ≡ capacity self.old }
    {
        self.count = 0;
    }

    // One item more.
    pub fn push(&mut self, item: T)
        ensures items { items self.new ≡ take (capacity self.old) (items self.old ++ item ∷ []) }
        ensures room { capacity self.new ≡ capacity self.old }
    {
        if self.count < self.buffer.len() {
            self.buffer[self.count] = item;
            self.count += 1;
        }
    }

    // So many items more.
    pub fn extend(&mut self, more: &[T])
        ensures items { items self.new ≡ take (capacity self.old) (items self.old ++ more.now) }
        ensures room { capacity self.new ≡ capacity self.old }
    {
        for item in more {
            self.push(*item);
        }
    }

    // The same item so many times more.
    pub fn fill(&mut self, item: T, times: u64)
        ensures items { items self.new ≡ take (capacity self.old) (items self.old ++ replicate times item) }
        ensures room { capacity self.new ≡ capacity self.old }
    {
        for _ in 0..times.min(self.buffer.len() as u64) {
            self.push(item);
        }
    }
}
