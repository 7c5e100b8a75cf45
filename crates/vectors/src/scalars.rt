// Numbers in bytes, plainly and through a view, up to the ends of the bytes and of the places that can be asked for.
use crate::laid::is_laid;
use data_bytes::{DataBytes, Scalar};

// What all the bytes are before each case.
const START: [u8; 8] = [0xa0, 0xa1, 0xa2, 0xa3, 0xa4, 0xa5, 0xa6, 0xa7];

struct Spot<T> {
    at: usize,
    // What is read there first.
    held: Option<T>,
    // What is written there then; it is read again where something was held.
    value: T,
    // All the bytes after that.
    after: &'static [u8],
}

// Worked by hand: two bytes, the high one first; the last place that has two of eight bytes is 6.
const WORDS: [Spot<u16>; 11] = [
    Spot {
        at: 0,
        held: Some(0xa0a1),
        value: 0x1234,
        after: &[0x12, 0x34, 0xa2, 0xa3, 0xa4, 0xa5, 0xa6, 0xa7],
    },
    Spot {
        at: 1,
        held: Some(0xa1a2),
        value: 0x00ff,
        after: &[0xa0, 0x00, 0xff, 0xa3, 0xa4, 0xa5, 0xa6, 0xa7],
    },
    Spot {
        at: 2,
        held: Some(0xa2a3),
        value: 0x0100,
        after: &[0xa0, 0xa1, 0x01, 0x00, 0xa4, 0xa5, 0xa6, 0xa7],
    },
    Spot {
        at: 3,
        held: Some(0xa3a4),
        value: 0,
        after: &[0xa0, 0xa1, 0xa2, 0x00, 0x00, 0xa5, 0xa6, 0xa7],
    },
    Spot {
        at: 5,
        held: Some(0xa5a6),
        value: 0x8000,
        after: &[0xa0, 0xa1, 0xa2, 0xa3, 0xa4, 0x80, 0x00, 0xa7],
    },
    Spot {
        at: 6,
        held: Some(0xa6a7),
        value: 0xffff,
        after: &[0xa0, 0xa1, 0xa2, 0xa3, 0xa4, 0xa5, 0xff, 0xff],
    },
    Spot {
        at: 7,
        held: None,
        value: 0x1234,
        after: &[0xa0, 0xa1, 0xa2, 0xa3, 0xa4, 0xa5, 0xa6, 0xa7],
    },
    Spot {
        at: 8,
        held: None,
        value: 0x1234,
        after: &[0xa0, 0xa1, 0xa2, 0xa3, 0xa4, 0xa5, 0xa6, 0xa7],
    },
    Spot {
        at: 9,
        held: None,
        value: 0x1234,
        after: &[0xa0, 0xa1, 0xa2, 0xa3, 0xa4, 0xa5, 0xa6, 0xa7],
    },
    Spot {
        at: usize::MAX - 1,
        held: None,
        value: 0x1234,
        after: &[0xa0, 0xa1, 0xa2, 0xa3, 0xa4, 0xa5, 0xa6, 0xa7],
    },
    Spot {
        at: usize::MAX,
        held: None,
        value: 0x1234,
        after: &[0xa0, 0xa1, 0xa2, 0xa3, 0xa4, 0xa5, 0xa6, 0xa7],
    },
];

// Worked by hand: four bytes, the highest first; the last place that has four of eight bytes is 4.
const LONGS: [Spot<u32>; 12] = [
    Spot {
        at: 0,
        held: Some(0xa0a1_a2a3),
        value: 0x1234_5678,
        after: &[0x12, 0x34, 0x56, 0x78, 0xa4, 0xa5, 0xa6, 0xa7],
    },
    Spot {
        at: 1,
        held: Some(0xa1a2_a3a4),
        value: 0x0001_0000,
        after: &[0xa0, 0x00, 0x01, 0x00, 0x00, 0xa5, 0xa6, 0xa7],
    },
    Spot {
        at: 2,
        held: Some(0xa2a3_a4a5),
        value: 0x0000_ffff,
        after: &[0xa0, 0xa1, 0x00, 0x00, 0xff, 0xff, 0xa6, 0xa7],
    },
    Spot {
        at: 3,
        held: Some(0xa3a4_a5a6),
        value: 0,
        after: &[0xa0, 0xa1, 0xa2, 0x00, 0x00, 0x00, 0x00, 0xa7],
    },
    Spot {
        at: 4,
        held: Some(0xa4a5_a6a7),
        value: 0xffff_ffff,
        after: &[0xa0, 0xa1, 0xa2, 0xa3, 0xff, 0xff, 0xff, 0xff],
    },
    Spot {
        at: 5,
        held: None,
        value: 0x1234_5678,
        after: &[0xa0, 0xa1, 0xa2, 0xa3, 0xa4, 0xa5, 0xa6, 0xa7],
    },
    Spot {
        at: 6,
        held: None,
        value: 0x1234_5678,
        after: &[0xa0, 0xa1, 0xa2, 0xa3, 0xa4, 0xa5, 0xa6, 0xa7],
    },
    Spot {
        at: 7,
        held: None,
        value: 0x1234_5678,
        after: &[0xa0, 0xa1, 0xa2, 0xa3, 0xa4, 0xa5, 0xa6, 0xa7],
    },
    Spot {
        at: 8,
        held: None,
        value: 0x1234_5678,
        after: &[0xa0, 0xa1, 0xa2, 0xa3, 0xa4, 0xa5, 0xa6, 0xa7],
    },
    Spot {
        at: usize::MAX - 3,
        held: None,
        value: 0x1234_5678,
        after: &[0xa0, 0xa1, 0xa2, 0xa3, 0xa4, 0xa5, 0xa6, 0xa7],
    },
    Spot {
        at: usize::MAX - 1,
        held: None,
        value: 0x1234_5678,
        after: &[0xa0, 0xa1, 0xa2, 0xa3, 0xa4, 0xa5, 0xa6, 0xa7],
    },
    Spot {
        at: usize::MAX,
        held: None,
        value: 0x1234_5678,
        after: &[0xa0, 0xa1, 0xa2, 0xa3, 0xa4, 0xa5, 0xa6, 0xa7],
    },
];

impl<T: Scalar + PartialEq> Spot<T> {
    // What is read there after the write.
    fn back(&self) -> Option<T> {
        self.held.and(Some(self.value))
    }

    fn through_view(&self, bytes: &mut [u8]) -> bool {
        let mut view = DataBytes::new(bytes);
        view.len() == 8
            && view.read_at::<T>(self.at) == self.held
            && view.write_at(self.value, self.at).is_some() == self.held.is_some()
            && view.read_at::<T>(self.at) == self.back()
    }

    fn plainly(&self, bytes: &mut [u8]) -> bool {
        T::read(bytes, self.at) == self.held
            && self.value.write(bytes, self.at).is_some() == self.held.is_some()
            && T::read(bytes, self.at) == self.back()
    }

    fn both_ways(&self) -> bool {
        let mut viewed = START;
        let mut plain = START;
        self.through_view(&mut viewed)
            && is_laid(&viewed, self.after, 0)
            && self.plainly(&mut plain)
            && is_laid(&plain, self.after, 0)
    }
}

// Whether a scalar is read from fewer bytes exactly where all of its own are there.
fn in_fewer<T: Scalar>(bytes: &[u8], width: usize) -> bool {
    (0..9).all(|at| {
        let is_there = width <= bytes.len() && at <= bytes.len() - width;
        T::read(bytes, at).is_some() == is_there
    })
}

#[test]
fn scalars_stand_in_bytes(rt: HostRuntime) {
    for spot in WORDS.iter() {
        assert!(rt; spot.both_ways(), "{}", spot.at);
    }
    for spot in LONGS.iter() {
        assert!(rt; spot.both_ways(), "{}", spot.at);
    }
    // Over lengths, which are no elements.
    for count in 0..=START.len() {
        assert!(rt;
            in_fewer::<u16>(&START[..count], 2) && in_fewer::<u32>(&START[..count], 4),
            "{}",
            count
        );
    }
}
