// The numbers and values that refusals and faults are known by.
use refusals::{CodecFault, Pool, Refusal};

struct Numbered {
    refusal: Refusal,
    number: u8,
    value: u64,
}

// Every case once and a few twice, copied by hand from the table of refusals in docs/REFUSALS.md; the values that go in
// are chosen, the ones that come out are these, the pool's number, or 0.
const REFUSALS: [Numbered; 21] = [
    Numbered {
        refusal: Refusal::BadWord { index: usize::MAX },
        number: 1,
        value: u64::MAX,
    },
    Numbered {
        refusal: Refusal::BadWord { index: 0 },
        number: 1,
        value: 0,
    },
    Numbered {
        refusal: Refusal::NoRoom(Pool::Vertices),
        number: 2,
        value: 1,
    },
    Numbered {
        refusal: Refusal::NoRoom(Pool::Links),
        number: 2,
        value: 2,
    },
    Numbered {
        refusal: Refusal::NoRoom(Pool::Bytes),
        number: 2,
        value: 3,
    },
    Numbered {
        refusal: Refusal::BadLink { vertex: 30 },
        number: 3,
        value: 30,
    },
    Numbered {
        refusal: Refusal::BadShape { vertex: 40 },
        number: 4,
        value: 40,
    },
    Numbered {
        refusal: Refusal::BadEntry { vertex: 50 },
        number: 5,
        value: 50,
    },
    Numbered {
        refusal: Refusal::BadCoverage { vertex: u32::MAX },
        number: 6,
        value: 0xffff_ffff,
    },
    Numbered {
        refusal: Refusal::Empty { vertex: 70 },
        number: 7,
        value: 70,
    },
    Numbered {
        refusal: Refusal::BadVirtual { vertex: 80 },
        number: 8,
        value: 80,
    },
    Numbered {
        refusal: Refusal::NoLookup,
        number: 9,
        value: 0,
    },
    Numbered {
        refusal: Refusal::BadCeiling,
        number: 10,
        value: 0,
    },
    Numbered {
        refusal: Refusal::LongLigature { vertex: 110 },
        number: 11,
        value: 110,
    },
    Numbered {
        refusal: Refusal::TooManySubtables { vertex: 120 },
        number: 12,
        value: 120,
    },
    Numbered {
        refusal: Refusal::IsExtension,
        number: 13,
        value: 0,
    },
    Numbered {
        refusal: Refusal::OffsetOverflow,
        number: 14,
        value: 0,
    },
    Numbered {
        refusal: Refusal::ShortBuffer { needed: 150 },
        number: 15,
        value: 150,
    },
    Numbered {
        refusal: Refusal::NoPlace,
        number: 16,
        value: 0,
    },
    Numbered {
        refusal: Refusal::Unreadable { place: u64::MAX },
        number: 17,
        value: u64::MAX,
    },
    Numbered {
        refusal: Refusal::NoRule,
        number: 18,
        value: 0,
    },
];

// Copied by hand from the table of faults in docs/REFUSALS.md.
const FAULTS: [(CodecFault, u8); 4] = [
    (CodecFault::NoMeaning, 1),
    (CodecFault::PastEnd, 2),
    (CodecFault::NotAdmitted, 3),
    (CodecFault::NoSpace, 4),
];

#[test]
fn refusals_are_numbered(rt: HostRuntime) {
    for case in REFUSALS.iter() {
        assert!(rt;
            case.refusal.number() == case.number && case.refusal.value() == case.value,
            "{}",
            case.number
        );
    }
    for (fault, number) in FAULTS.iter() {
        assert!(rt; fault.number() == *number, "{}", *number);
    }
}
