// Keyed rows: many lists in one slice, all in rising order of their keys. Find, put and remove for any row that tells its key.
#![tactic(auto)]

ghost use Rattle.std.specs.Prelude.{◌≡◌, ◌+◌, ◌-◌, ◌<◌, ◌≤◌, ◌∷◌, ◌++◌, length, take, drop, replicate, min, option_map, IfOk, IsNone};
ghost use Rattle.std.specs.List.{HoldsAt, insert, remove};
ghost use Rattle.std.specs.List.Sorted.{IsSearchInRange};
ghost use Rattle.rows.specs.declared.RowKey.{RowKey};
ghost use Rattle.rows.specs.Keys.{precedes};
ghost use Rattle.rows.specs.Kinds.{wide, link_key, zero_link, parent_key, zero_parent};
ghost use Rattle.rows.specs.Rows.{Rising, row_of, with_row, without_row, Laid, Answered, OnePut, OneLess, Spot};
ghost use Rattle.rows.specs.Views.{lent, in_use, spare, SameSlice};
ghost use Rattle.rows.specs.Laws.{Lexicographic, Ordered, Irreflexive, Transitive, RisingPairs, RisingFromNeighbours, LookUpSound, LookUpComplete, FoundAfterPut, OthersAfterPut, GoneAfterRemove, OthersAfterRemove, RisingAfterPut, RisingAfterRemove, CountAfterPut, CountAfterRemove, ToldByLookUps};

mod view;

pub use view::KeyedRows;

/// What tells a row from all others: the list that it is in, and its place there.
/// One key is less than another by list, and within a list by place.
#[derive(Clone, Copy, Debug, PartialEq, Eq, PartialOrd, Ord, Hash)]
pub struct RowKey {
    pub list: u32,
    pub place: u32,
}

impl RowKey {
    /// Whether this key stands before the other.
    // The derived order, under the name that says what it means for rows.
    pub fn before(self, other: RowKey) -> bool
        ensures { result ≡ precedes self other }
    {
        self < other
    }
}

/// A row that tells its key. Rows in use stand in rising order of their keys.
pub trait Row: Copy {
    ghost key: { Self → RowKey };

    ghost zero: { Self };

    fn key(&self) -> RowKey
        ensures { result ≡ key self.now };

    /// What a spare row holds once it is freed.
    fn zero() -> Self
        ensures { result ≡ zero };
}

/// How many bytes a link's offset takes in its owner's table. A virtual link takes none.
// No `Option` of a width: `Zero` is also what a freed row has.
#[derive(Clone, Copy, Debug, Default, PartialEq, Eq, Hash)]
pub enum LinkWidth {
    #[default]
    Zero,
    Two,
    Four,
}

impl From<LinkWidth> for usize {
    ghost from_gives = { λ width bytes. bytes ≡ wide width };

    fn from(width: LinkWidth) -> usize {
        match width {
            LinkWidth::Zero => 0,
            LinkWidth::Two => 2,
            LinkWidth::Four => 4,
        }
    }
}

/// A link from one table to another. The links of one owner are a list, by position.
#[derive(Clone, Copy, Debug, Default, PartialEq, Eq, Hash)]
pub struct LinkRow {
    pub owner: u32,
    /// Where the offset stands in the owner's table: below 2^24. A virtual link has no offset, and goes by a position behind all of these.
    pub position: u32,
    pub width: LinkWidth,
    pub target: u32,
}

impl Row for LinkRow {
    ghost key = { link_key };

    ghost zero = { zero_link };

    fn key(&self) -> RowKey {
        RowKey {
            list: self.owner,
            place: self.position,
        }
    }

    fn zero() -> LinkRow {
        LinkRow::default()
    }
}

/// How often one table links to another. The parents of one child are a list, by number.
#[derive(Clone, Copy, Debug, Default, PartialEq, Eq, Hash)]
pub struct ParentRow {
    pub child: u32,
    pub parent: u32,
    /// The number of links that enter the child from this parent.
    pub links: u32,
}

impl Row for ParentRow {
    ghost key = { parent_key };

    ghost zero = { zero_parent };

    fn key(&self) -> RowKey {
        RowKey {
            list: self.child,
            place: self.parent,
        }
    }

    fn zero() -> ParentRow {
        ParentRow::default()
    }
}

/// The index of the row with the key, or else, as an error, the index where such a row belongs.
fn search<T: Row>(rows: &[T], key: RowKey) -> Result<usize, usize>
    ensures within { IsSearchInRange result (length rows.now) }
    ensures keyed { IfOk result (HoldsAt (λ x. T.Row.key x ≡ key) rows.now) }
    ensures spot { Rising T.Row.key rows.now → Spot T.Row.key key rows.now result }
{
    rows.binary_search_by_key(&key, |row| row.key())
}

/// The row with the key among the first `used` rows, or none. Where `used` exceeds the slice, all its rows are used.
// Beside the method, since a view needs a slice that may be written, and this serves who may only read.
pub fn find<T: Row>(rows: &[T], used: usize, key: RowKey) -> Option<T>
    ensures found { Rising T.Row.key (take used rows.now) → result ≡ row_of T.Row.key key (take used rows.now) }
    ensures answered { Answered T.Row.key key (take used rows.now) result }
{
    let in_use = &rows[..used.min(rows.len())];
    let at = search(in_use, key).ok()?;
    Some(in_use[at])
}

impl<'a, T: Row> KeyedRows<'a, T> {
    /// The first `used` rows are in use. Where `used` exceeds the slice, all its rows are. Made over a whole slice that
    /// was lent, or over a field, the view tells the lender what was written; over a part of a slice see `put` and `remove`.
    pub fn new(rows: &'a mut [T], used: usize) -> KeyedRows<'a, T>
        ensures rows { lent result ≡ rows.old }
        ensures used { result.used ≡ min used (length rows.old) }
        ensures slice { result.rows.ghost_name ≡ rows.entry.ghost_name }
    {
        let used = used.min(rows.len());
        KeyedRows { rows, used }
    }

    /// The row with the key among those in use, or none.
    pub fn find(&self, key: RowKey) -> Option<T>
        ensures found { Rising T.Row.key (in_use self.now) → result ≡ row_of T.Row.key key (in_use self.now) }
        ensures answered { Answered T.Row.key key (in_use self.now) result }
    {
        find(self.rows, self.used, key)
    }

    /// Puts the row among those in use: in place of the row with its key, or else between its neighbours.
    /// Where the key is new and no row is spare, it changes nothing and answers none.
    pub fn put(&mut self, row: T) -> Option<()>
        ensures laid { Rising T.Row.key (in_use self.old) → Laid (with_row T.Row.key row (in_use self.old)) (lent self.old) (lent self.new) (option_map (λ _. self.new.used) result) }
        ensures one { OnePut T.Row.key row self.old.used (lent self.old) (lent self.new) (option_map (λ _. self.new.used) result) }
        ensures full { IsNone result → self.new.used ≡ self.old.used }
        ensures length { length (lent self.new) ≡ length (lent self.old) }
        ensures behind { drop (self.old.used + 1) (lent self.new) ≡ drop (self.old.used + 1) (lent self.old) }
        ensures slice { SameSlice self.new self.old }
    {
        match self.search(row.key()) {
            Ok(i) => self.rows[i] = row,
            Err(i) if self.used < self.rows.len() => self.insert(i, row),
            Err(_) => return None,
        }
        Some(())
    }

    /// Takes the row with the key out of those in use; the row that this frees is the zero row.
    /// Where no row has the key, it changes nothing.
    pub fn remove(&mut self, key: RowKey)
        ensures rows { let left = without_row T.Row.key key (in_use self.old) in Rising T.Row.key (in_use self.old) → lent self.new ≡ left ++ (replicate (length (in_use self.old) - length left) T.Row.zero ++ spare self.old) }
        ensures count { Rising T.Row.key (in_use self.old) → self.new.used ≡ length (without_row T.Row.key key (in_use self.old)) }
        ensures one { OneLess T.Row.key key T.Row.zero (in_use self.old) (spare self.old) (lent self.new) self.new.used }
        ensures length { length (lent self.new) ≡ length (lent self.old) }
        ensures behind { drop self.old.used (lent self.new) ≡ spare self.old }
        ensures slice { SameSlice self.new self.old }
    {
        if let Ok(i) = self.search(key) {
            self.take_out(i);
        }
    }

    /// The index of the row in use with the key, or else, as an error, the index where such a row belongs.
    fn search(&self, key: RowKey) -> Result<usize, usize>
        ensures within { IsSearchInRange result self.now.used }
        ensures keyed { IfOk result (HoldsAt (λ x. T.Row.key x ≡ key) (lent self.now)) }
        ensures spot { Rising T.Row.key (in_use self.now) → Spot T.Row.key key (in_use self.now) result }
    {
        search(&self.rows[..self.used], key)
    }

    /// Moves the rows in use from `at` on up by one, and lays the row there.
    fn insert(&mut self, at: usize, row: T)
        requires { (at ≤ self.old.used) × (self.old.used < length (lent self.old)) }
        ensures rows { lent self.new ≡ insert (in_use self.old) at row ++ drop (self.old.used + 1) (lent self.old) }
        ensures used { self.new.used ≡ self.old.used + 1 }
        ensures slice { SameSlice self.new self.old }
    {
        self.rows.copy_within(at..self.used, at + 1);
        self.rows[at] = row;
        self.used += 1;
    }

    /// Takes out the row at `at`: moves the rows in use behind it down by one, and zeroes the row that this frees.
    fn take_out(&mut self, at: usize)
        requires { at < self.old.used }
        ensures rows { lent self.new ≡ remove (in_use self.old) at ++ T.Row.zero ∷ spare self.old }
        ensures used { self.new.used + 1 ≡ self.old.used }
        ensures slice { SameSlice self.new self.old }
    {
        self.rows.copy_within(at + 1..self.used, at);
        self.used -= 1;
        self.rows[self.used] = T::zero();
    }
}

/// Puts the row among the first `used` rows, as `KeyedRows::put` does, and answers how many rows are used then.
/// Where `used` exceeds the slice, all its rows are used.
// For a part of a slice: of that a view made by the caller would not tell what was written.
pub fn put<T: Row>(rows: &mut [T], used: usize, row: T) -> Option<usize>
    ensures laid { Rising T.Row.key (take used rows.old) → Laid (with_row T.Row.key row (take used rows.old)) rows.old rows.new result }
    ensures one { OnePut T.Row.key row used rows.old rows.new result }
    ensures length { length rows.new ≡ length rows.old }
    ensures behind { drop (used + 1) rows.new ≡ drop (used + 1) rows.old }
{
    let mut keyed = KeyedRows::new(rows, used);
    keyed.put(row)?;
    Some(keyed.len())
}

/// Takes the row with the key out of the first `used` rows, as `KeyedRows::remove` does, and answers how many rows are
/// used then. Where `used` exceeds the slice, all its rows are used.
// For a part of a slice, as `put`.
pub fn remove<T: Row>(rows: &mut [T], used: usize, key: RowKey) -> usize
    ensures rows { Rising T.Row.key (take used rows.old) → rows.new ≡ without_row T.Row.key key (take used rows.old) ++ (replicate (length (take used rows.old) - length (without_row T.Row.key key (take used rows.old))) T.Row.zero ++ drop used rows.old) }
    ensures count { Rising T.Row.key (take used rows.old) → result ≡ length (without_row T.Row.key key (take used rows.old)) }
    ensures one { OneLess T.Row.key key T.Row.zero (take used rows.old) (drop used rows.old) rows.new result }
    ensures length { length rows.new ≡ length rows.old }
    ensures behind { drop used rows.new ≡ drop used rows.old }
{
    let mut keyed = KeyedRows::new(rows, used);
    keyed.remove(key);
    keyed.len()
}

/// The order of keys is strict and total: by list, and within a list by place.
pub fn keys_are_ordered()
    ensures lexicographic { Lexicographic }
    ensures ordered { Ordered }
    ensures irreflexive { Irreflexive }
    ensures transitive { Transitive }
{}

/// What rows keep, whatever they hold: rising order is told by neighbours; a look-up finds the rows and nothing else;
/// a row put is found, a row removed is gone, and no other row is touched; the order stays, and the rows are counted.
/// Rows with the same look-ups are the same rows.
pub fn rows_keep_laws<T: Row>()
    ensures pairs { RisingPairs T.Row.key }
    ensures neighbours { RisingFromNeighbours T.Row.key }
    ensures sound { LookUpSound T.Row.key }
    ensures complete { LookUpComplete T.Row.key }
    ensures found { FoundAfterPut T.Row.key }
    ensures beside { OthersAfterPut T.Row.key }
    ensures gone { GoneAfterRemove T.Row.key }
    ensures left { OthersAfterRemove T.Row.key }
    ensures up { RisingAfterPut T.Row.key }
    ensures still { RisingAfterRemove T.Row.key }
    ensures more { CountAfterPut T.Row.key }
    ensures fewer { CountAfterRemove T.Row.key }
    ensures told { ToldByLookUps T.Row.key }
{}
