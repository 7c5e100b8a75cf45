// Big-endian numbers in byte slices, and the views through which tables are read and written.
#![tactic(auto)]

ghost use Rattle.std.specs.Prelude.{◌≡◌, ℕ, ◌+◌, ◌^◌, ◌<◌, List, length, is_some, IfSome};
ghost use Rattle.data_bytes.specs.BigEndian.{Bytes, word16, put16, big_endian, spelled, within, number_at, put_at, written_at};
ghost use Rattle.data_bytes.specs.Scalars.{read_at_of, lent, SameSlice, ReadsNumber, ScalarReadsBack, Apart};
ghost use Rattle.std.proofs.Common.{rules};

use std::convert::AsSlice;
use std::ops::Range;

/// The 16-bit number whose two bytes start at `at`. For this library's own loops, which have tested the place; `u16::read` tests it itself.
pub fn word_at(bytes: &[u8], at: usize) -> u16
    requires { at + 1 < length bytes.now }
    ensures { result ≡ word16 bytes.now at }
{
    u16::from_be_bytes([bytes[at], bytes[at + 1]])
}

/// Writes a 16-bit number into the two bytes from `at` on. For this library's own loops, as `word_at`.
pub fn put_word(bytes: &mut [u8], at: usize, word: u16)
    requires { at + 1 < length bytes.old }
    ensures { bytes.new ≡ put16 bytes.old at word }
{
    bytes[at..at + 2].copy_from_slice(&word.to_be_bytes());
}

/// Where the `width` bytes from `at` on stand, if all of them are there; no sum can wrap, at any place.
fn range_at(bytes: &[u8], at: usize, width: usize) -> Option<Range<usize>>
    ensures there { is_some result ≡ within width bytes.now at }
    ensures range { IfSome result (λ r. (r.start ≡ at) × (r.end ≡ at + width)) }
{
    let end = at.checked_add(width)?;
    (end <= bytes.len()).then_some(at..end)
}

/// A number that tables store big-endian, in a fixed number of bytes.
// How large its number can be is known of a value alone, so each call that takes one says it, under `fits`.
pub trait Scalar: Copy {
    // How many bytes it takes.
    ghost width: { ℕ };

    // Its number, which these bytes spell.
    ghost number: { Self → ℕ };

    // The scalar of a number.
    ghost scalar: { ℕ → Self };

    /// The array of its bytes.
    type Bytes: AsSlice<u8> + Drop;

    /// The scalar in the first bytes, if all of them are there.
    fn first(bytes: &[u8]) -> Option<Self>
        ensures { result ≡ read_at_of scalar width bytes.now 0 };

    /// Its bytes, the high one first.
    fn to_be_bytes(self) -> Self::Bytes
        ensures bytes { Self.Bytes.items result ≡ spelled width (number self) }
        ensures len { length (Self.Bytes.items result) ≡ width }
        ensures fits { number self < 256 ^ width };

    /// The scalar in the bytes from `at` on, if all of them are there.
    fn read(bytes: &[u8], at: usize) -> Option<Self>
        ensures { result ≡ read_at_of scalar width bytes.now at }
    {
        Self::first(bytes.get(at..)?)
    }

    /// Writes the scalar into the bytes from `at` on, if all of them are there.
    fn write(self, bytes: &mut [u8], at: usize) -> Option<()>
        ensures done { is_some result ≡ within width bytes.old at }
        ensures after { bytes.new ≡ written_at width bytes.old at (number self) }
        ensures fits { number self < 256 ^ width }
    {
        let spelled = self.to_be_bytes();
        let spelled = spelled.as_slice();
        let range = range_at(bytes, at, spelled.len())?;
        bytes[range].copy_from_slice(spelled);
        Some(())
    }

    ghost back: { (x : Self) → scalar (number x) ≡ x };

    ghost forth: { (n : ℕ) → n < 256 ^ width → number (scalar n) ≡ n };
}

impl Scalar for u16 {
    type Bytes = [u8; 2];

    ghost width = { 2 };

    ghost number = { λ x. x };

    ghost scalar = { λ n. n };

    ghost back = { Prim.search rules };

    ghost forth = { Prim.search rules };

    fn first(bytes: &[u8]) -> Option<u16> {
        Some(u16::from_be_bytes(*bytes.first_chunk()?))
    }

    fn to_be_bytes(self) -> [u8; 2] {
        u16::to_be_bytes(self)
    }
}

impl Scalar for u32 {
    type Bytes = [u8; 4];

    ghost width = { 4 };

    ghost number = { λ x. x };

    ghost scalar = { λ n. n };

    ghost back = { Prim.search rules };

    ghost forth = { Prim.search rules };

    fn first(bytes: &[u8]) -> Option<u32> {
        Some(u32::from_be_bytes(*bytes.first_chunk()?))
    }

    fn to_be_bytes(self) -> [u8; 4] {
        u32::to_be_bytes(self)
    }
}

/// The bytes of one table, lent to be read and written in place.
#[derive(Drop)]
pub struct DataBytes<'a> {
    bytes: &'a mut [u8],
}

impl<'a> DataBytes<'a> {
    /// A view of these bytes. Write to a part or a field through a function that takes the slice and makes the view:
    /// then the lender learns what was written.
    pub fn new(bytes: &'a mut [u8]) -> DataBytes<'a>
        ensures bytes { lent result ≡ bytes.old }
        ensures slice { result.bytes.ghost_name ≡ bytes.entry.ghost_name }
    {
        DataBytes { bytes }
    }

    /// How many bytes it has.
    pub fn len(&self) -> usize
        ensures { result ≡ length (lent self.now) }
    {
        self.bytes.len()
    }

    /// The scalar in the bytes from `pos` on, if all of them are there.
    pub fn read_at<T: Scalar>(&self, pos: usize) -> Option<T>
        ensures { result ≡ read_at_of T.Scalar.scalar T.Scalar.width (lent self.now) pos }
    {
        T::read(self.bytes, pos)
    }

    /// Writes a scalar into the bytes from `pos` on, if all of them are there.
    pub fn write_at<T: Scalar>(&mut self, value: T, pos: usize) -> Option<()>
        ensures done { is_some result ≡ within T.Scalar.width (lent self.old) pos }
        ensures after { lent self.new ≡ written_at T.Scalar.width (lent self.old) pos (T.Scalar.number value) }
        ensures fits { T.Scalar.number value < 256 ^ T.Scalar.width }
        ensures slice { SameSlice self.new self.old }
    {
        value.write(self.bytes, pos)
    }
}

/// A theorem: spelling numbers in bytes and reading them are inverse, at every width.
pub fn spelling_stands()
    ensures numbers { (w n : ℕ) → n < 256 ^ w → big_endian (spelled w n) ≡ n }
    ensures spellings { (bs : List ℕ) → Bytes bs → spelled (length bs) (big_endian bs) ≡ bs }
    ensures bytes { (w n : ℕ) → (length (spelled w n) ≡ w) × Bytes (spelled w n) }
    ensures fits { (bs : List ℕ) → Bytes bs → big_endian bs < 256 ^ length bs }
{}

/// A theorem: a word is the number of two bytes, and is put as one.
pub fn words_stand()
    ensures number { (bs : List ℕ) (i : ℕ) → i + 1 < length bs → word16 bs i ≡ number_at 2 bs i }
    ensures put { (bs : List ℕ) (i n : ℕ) → i + 1 < length bs → n < 65536 → put16 bs i n ≡ put_at 2 bs i n }
{}

/// A theorem: what is read has the number of its bytes, and a scalar that was written is read again.
pub fn reads_back<T: Scalar>()
    ensures number { ReadsNumber T.Scalar.number T.Scalar.scalar T.Scalar.width }
    ensures back { ScalarReadsBack T.Scalar.number T.Scalar.scalar T.Scalar.width }
{}

/// A theorem: writing a `U` into bytes apart from those of a `T` leaves what is read there.
pub fn reads_apart<T: Scalar, U: Scalar>()
    ensures { (bs : List ℕ) (i j n : ℕ) → Apart i T.Scalar.width j U.Scalar.width → read_at_of T.Scalar.scalar T.Scalar.width (written_at U.Scalar.width bs j n) i ≡ read_at_of T.Scalar.scalar T.Scalar.width bs i }
{}
