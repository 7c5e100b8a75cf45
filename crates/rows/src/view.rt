// The view of a slice of rows, in a file of its own so that contracts can name its parts by definitions.
ghost use Rattle.std.specs.Prelude.{◌≡◌, ◌≤◌, length};

/// The rows of a slice, lent to be found, put and removed in place: those in use in front, and the spare ones behind.
// That the rows in use rise is a premise of its methods and no ghost field: `new` would have to ask it or test it.
#[derive(Drop)]
pub struct KeyedRows<'a, T> {
    pub(crate) rows: &'a mut [T],
    pub(crate) used: usize,
    ghost fits: { used ≤ length rows.now },
}

impl<T> KeyedRows<'_, T> {
    /// How many rows are in use.
    pub fn len(&self) -> usize
        ensures used { result ≡ self.now.used }
        ensures within { result ≤ length self.now.rows.now }
    {
        self.used
    }
}
