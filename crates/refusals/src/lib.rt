// What the library answers when it does not do what it is asked: refusals of calls, and faults of coverage codecs.
#![tactic(auto)]

ghost use Rattle.std.specs.Prelude.{◌≡◌, Some};
ghost use Rattle.refusals.specs.Numbers.{refusal_number, refusal_value, fault_number, pool_number, NumbersTell};
ghost use Rattle.refusals.specs.Words.{fault_words_of};

use std::fmt;

/// The three pools of memory that a graph takes from.
#[derive(Clone, Copy, PartialEq, Eq, Debug)]
pub enum Pool {
    Vertices = 1,
    Links = 2,
    Bytes = 3,
}

impl Pool {
    /// The number by which a refusal names the pool.
    pub fn number(self) -> u8
        ensures { result ≡ pool_number self }
    {
        self as u8
    }
}

/// Why a call was refused. Vertices, words and bytes are counted from 0.
#[derive(Clone, Copy, PartialEq, Eq, Debug)]
pub enum Refusal {
    /// The stream of graph words breaks its rules first at this word.
    BadWord { index: usize },
    /// This pool is too small.
    NoRoom(Pool),
    /// A link of this vertex has no target, passes its table's end, or shares its position.
    BadLink { vertex: u32 },
    /// This vertex's table lacks the shape of its kind.
    BadShape { vertex: u32 },
    /// This vertex is entered too often, named as root twice, or reached from no root.
    BadEntry { vertex: u32 },
    /// This coverage means nothing, has bytes behind its end, or covers another number of glyphs than there are sets.
    BadCoverage { vertex: u32 },
    /// This subtable has no sets, or this set has no ligatures.
    Empty { vertex: u32 },
    /// This vertex's virtual links are not the ones that its kind has.
    BadVirtual { vertex: u32 },
    /// There is no such lookup.
    NoLookup,
    /// The ceiling is below 16 or above 65535.
    BadCeiling,
    /// This ligature's table is longer than the ceiling allows.
    LongLigature { vertex: u32 },
    /// This lookup has, or would have, more than 6,553 subtables.
    TooManySubtables { vertex: u32 },
    /// The lookup has type 7 already.
    IsExtension,
    /// A two-byte offset would be above 65535.
    OffsetOverflow,
    /// The buffer is shorter than the size needed.
    ShortBuffer { needed: usize },
    /// The place is not below the string's length.
    NoPlace,
    /// The table that starts at this byte cannot be read.
    Unreadable { place: u64 },
    /// There is no such rule.
    NoRule,
}

impl Refusal {
    // A match, since `as` takes no enum whose cases have fields.
    /// The number that every refusal is known by, 1 to 18.
    pub fn number(self) -> u8
        ensures { result ≡ refusal_number self }
    {
        match self {
            Refusal::BadWord { .. } => 1,
            Refusal::NoRoom(_) => 2,
            Refusal::BadLink { .. } => 3,
            Refusal::BadShape { .. } => 4,
            Refusal::BadEntry { .. } => 5,
            Refusal::BadCoverage { .. } => 6,
            Refusal::Empty { .. } => 7,
            Refusal::BadVirtual { .. } => 8,
            Refusal::NoLookup => 9,
            Refusal::BadCeiling => 10,
            Refusal::LongLigature { .. } => 11,
            Refusal::TooManySubtables { .. } => 12,
            Refusal::IsExtension => 13,
            Refusal::OffsetOverflow => 14,
            Refusal::ShortBuffer { .. } => 15,
            Refusal::NoPlace => 16,
            Refusal::Unreadable { .. } => 17,
            Refusal::NoRule => 18,
        }
    }

    /// The value that goes with the number: a word, a pool, a vertex, a size, a byte place, or 0.
    pub fn value(self) -> u64
        ensures { result ≡ refusal_value self }
    {
        match self {
            Refusal::BadWord { index } => index as u64,
            Refusal::NoRoom(pool) => pool.number() as u64,
            Refusal::BadLink { vertex }
            | Refusal::BadShape { vertex }
            | Refusal::BadEntry { vertex }
            | Refusal::BadCoverage { vertex }
            | Refusal::Empty { vertex }
            | Refusal::BadVirtual { vertex }
            | Refusal::LongLigature { vertex }
            | Refusal::TooManySubtables { vertex } => vertex as u64,
            Refusal::ShortBuffer { needed } => needed as u64,
            Refusal::Unreadable { place } => place,
            Refusal::NoLookup
            | Refusal::BadCeiling
            | Refusal::IsExtension
            | Refusal::OffsetOverflow
            | Refusal::NoPlace
            | Refusal::NoRule => 0,
        }
    }
}

/// Why a coverage codec did not do what it was asked.
#[derive(Clone, Copy, PartialEq, Eq, Debug)]
pub enum CodecFault {
    /// The bytes mean no glyph list.
    NoMeaning = 1,
    /// The list that the bytes mean has no glyph at that index.
    PastEnd = 2,
    /// The codec does not admit the list.
    NotAdmitted = 3,
    /// The lent slice is too short for what is to be written.
    NoSpace = 4,
}

impl CodecFault {
    /// The number that every fault is known by, 1 to 4.
    pub fn number(self) -> u8
        ensures { result ≡ fault_number self }
    {
        self as u8
    }

    /// The fault in words.
    pub fn words(self) -> &'static str
        ensures { result.now ≡ fault_words_of self }
    {
        match self {
            CodecFault::NoMeaning => "the bytes mean no glyph list",
            CodecFault::PastEnd => "there is no glyph at that index",
            CodecFault::NotAdmitted => "the codec does not admit the list",
            CodecFault::NoSpace => "the slice is too short",
        }
    }
}

impl fmt::Display for CodecFault {
    ghost output = { λ fault. Some (fault_words_of fault) };

    fn fmt<W: fmt::Write>(&self, f: &mut fmt::Formatter<W>) -> fmt::Result {
        f.write_str(self.words())
    }
}

/// A theorem: number and value together tell which refusal it was, and the number tells which fault.
pub fn numbers_tell()
    ensures { NumbersTell }
{}
