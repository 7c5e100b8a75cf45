// The words of a graph stream: the table of kinds, and the machine that reads a stream word by word.
#![tactic(auto)]

ghost use Rattle.std.specs.Prelude.{◌≡◌};
ghost use Rattle.words.specs.Words.{row_of, token_of, value_of};
ghost use Rattle.words.specs.Reading.{next_place, Countable, counted, stepped, scanned};
ghost use Rattle.words.specs.Laws.{WordsSay, StreamsSpell, MisfitsTell, Tells};
ghost use Rattle.words.specs.Samples.{SamplesStand};

use refusals::Refusal;

/// What a word of a stream says.
#[derive(Clone, Copy, PartialEq, Eq, Debug)]
pub enum WordKind {
    /// A table begins; the number is its length in bytes.
    Table,
    /// One 16-bit value of the table.
    Value,
    /// The position of a two-byte link; its target follows.
    Link2,
    /// The position of a four-byte link; its target follows.
    Link4,
    /// The target of the link whose position stands before it.
    Target,
    /// A virtual link, by its target.
    Virtual,
    /// A table that is a root.
    Root,
    /// The number of tables; the last word.
    Count,
}

/// A row of the table of kinds.
#[derive(Clone, Copy, PartialEq, Eq, Debug)]
pub struct KindRow {
    pub kind: WordKind,
    /// The word's top four bits.
    pub code: u32,
    /// How many bits below these are zero; the rest is the number.
    pub zero_bits: u32,
}

// A table and not discriminants: each kind has its zero bits beside its code.
/// The kinds of word.
pub const KINDS: [KindRow; 8] = [
    KindRow {
        kind: WordKind::Table,
        code: 1,
        zero_bits: 4,
    },
    KindRow {
        kind: WordKind::Value,
        code: 2,
        zero_bits: 12,
    },
    KindRow {
        kind: WordKind::Link2,
        code: 3,
        zero_bits: 4,
    },
    KindRow {
        kind: WordKind::Link4,
        code: 4,
        zero_bits: 4,
    },
    KindRow {
        kind: WordKind::Target,
        code: 5,
        zero_bits: 4,
    },
    KindRow {
        kind: WordKind::Virtual,
        code: 6,
        zero_bits: 4,
    },
    KindRow {
        kind: WordKind::Root,
        code: 7,
        zero_bits: 4,
    },
    KindRow {
        kind: WordKind::Count,
        code: 8,
        zero_bits: 4,
    },
];

/// The first row of the table with this code.
fn row_of(code: u32) -> Option<KindRow>
    ensures { result ≡ row_of code }
{
    KINDS.iter().find(|row| row.code == code).copied()
}

/// A word taken apart.
#[derive(Clone, Copy, PartialEq, Eq, Debug)]
pub struct Token {
    pub kind: WordKind,
    pub number: u32,
}

// No `TryFrom`: its error type would say no more than none.
/// The kind and the number of a word; none where the kind is unknown or a zero bit is set.
pub fn decode(word: u32) -> Option<Token>
    ensures { result ≡ token_of word }
{
    let row = row_of(word >> 28)?;
    let number = word % 0x1000_0000;
    if number >> (28 - row.zero_bits) != 0 {
        return None;
    }
    Some(Token {
        kind: row.kind,
        number,
    })
}

// No `TryFrom`: its error type would say no more than none.
/// The value in a word of kind `Value`; none in any other word. Most words are values, so this looks at nothing else.
pub fn value_of(word: u32) -> Option<u16>
    ensures { result ≡ value_of word }
{
    if word >> 16 == 0x2000 {
        Some((word % 0x1_0000) as u16)
    } else {
        None
    }
}

/// The width of a real link in bytes.
#[derive(Clone, Copy, PartialEq, Eq, Debug)]
pub enum Width {
    Two,
    Four,
}

/// Where a reader stands in a stream.
#[derive(Clone, Copy, PartialEq, Eq, Debug, Default)]
pub enum Place {
    /// Before the first word.
    #[default]
    Start,
    /// In a table, with so many values to come before its links.
    Inside { left: u32 },
    /// Behind the first word of a real link.
    Linking { width: Width, position: u32 },
    /// Behind a root.
    Rooting,
    /// Behind the count.
    Closed,
}

impl Place {
    /// Where the reader stands behind one word more, `tables` tables having begun before it; none where the word does not fit.
    pub fn after(self, token: Token, tables: usize) -> Option<Place>
        ensures { result ≡ next_place self tables token }
    {
        let number = token.number;
        match (self, token.kind) {
            (Place::Inside { left }, WordKind::Value) if left > 0 => Some(Place::Inside {
                left: left - 1,
            }),
            (Place::Start | Place::Inside { left: 0 }, WordKind::Table) if number % 2 == 0 => {
                Some(Place::Inside { left: number / 2 })
            }
            (Place::Inside { left: 0 }, WordKind::Link2) => Some(Place::Linking {
                width: Width::Two,
                position: number,
            }),
            (Place::Inside { left: 0 }, WordKind::Link4) => Some(Place::Linking {
                width: Width::Four,
                position: number,
            }),
            (Place::Inside { left: 0 }, WordKind::Virtual) => Some(Place::Inside { left: 0 }),
            (Place::Linking { .. }, WordKind::Target) => Some(Place::Inside { left: 0 }),
            (Place::Start | Place::Inside { left: 0 } | Place::Rooting, WordKind::Root)
                if (number as usize) < tables => { Some(Place::Rooting) }
            (Place::Start | Place::Inside { left: 0 } | Place::Rooting, WordKind::Count)
                if number as usize == tables => { Some(Place::Closed) }
            _ => None,
        }
    }
}

/// How much there is of everything in a stream.
#[derive(Clone, Copy, PartialEq, Eq, Debug, Default)]
pub struct StreamCounts {
    pub tables: usize,
    /// Real and virtual links together.
    pub links: usize,
    /// The bytes of all tables.
    pub bytes: usize,
    pub roots: usize,
}

impl StreamCounts {
    /// The counts with one word more.
    fn plus(self, kind: WordKind) -> StreamCounts
        requires { Countable self }
        ensures { result ≡ counted kind self }
    {
        match kind {
            WordKind::Table => StreamCounts {
                tables: self.tables + 1,
                ..self
            },
            WordKind::Value => StreamCounts {
                bytes: self.bytes + 2,
                ..self
            },
            WordKind::Target | WordKind::Virtual => StreamCounts {
                links: self.links + 1,
                ..self
            },
            WordKind::Root => StreamCounts {
                roots: self.roots + 1,
                ..self
            },
            WordKind::Link2 | WordKind::Link4 | WordKind::Count => self,
        }
    }
}

/// A reader of a stream: where it stands, and what it has counted.
#[derive(Clone, Copy, PartialEq, Eq, Debug, Default)]
struct Reading {
    place: Place,
    counts: StreamCounts,
}

impl Reading {
    /// The reader behind one word more; none where the word does not fit.
    fn step(self, word: u32) -> Option<Reading>
        requires { Countable self.counts }
        ensures { result ≡ stepped self word }
    {
        // Most words are values: they are dealt with here, before the table of kinds and the match.
        if let Place::Inside { left } = self.place
            && left > 0
        {
            value_of(word)?;
            return Some(Reading {
                place: Place::Inside { left: left - 1 },
                counts: self.counts.plus(WordKind::Value),
            });
        }
        let token = decode(word)?;
        let place = self.place.after(token, self.counts.tables)?;
        Some(Reading {
            place,
            counts: self.counts.plus(token.kind),
        })
    }
}

/// Reads a whole stream: what there is in it, or its first word that does not fit.
pub fn scan(words: &[u32]) -> Result<StreamCounts, Refusal>
    ensures answers { result ≡ scanned words.now }
    ensures means { Tells words.now result }
{
    let mut reading = Reading::default();
    for (index, word) in words.iter().enumerate() {
        reading = reading.step(*word).ok_or(Refusal::BadWord { index })?;
    }
    match reading.place {
        Place::Closed => Ok(reading.counts),
        _ => Err(Refusal::BadWord { index: words.len() }),
    }
}

/// A theorem: a word says exactly what it is spelled from.
pub fn words_say()
    ensures { WordsSay }
{}

/// A theorem: a stream is accepted exactly where the words spell it.
pub fn streams_spell()
    ensures { StreamsSpell }
{}

/// A theorem: an index is answered exactly where it is that of the first word that does not fit.
pub fn misfits_tell()
    ensures { MisfitsTell }
{}

/// Some streams worked by hand.
pub fn samples_stand()
    ensures { SamplesStand }
{}
