// Streams of graph words: what is counted in good ones, and where bad ones are refused.
use refusals::Refusal;
use words::{StreamCounts, scan};

struct Accepted {
    name: &'static str,
    words: &'static [u32],
    counts: StreamCounts,
}

struct Rejected {
    name: &'static str,
    words: &'static [u32],
    index: usize,
}

// Streams that keep the rules. The counts are worked by hand from the grammar: tables and roots by their words,
// links by targets and virtual links, bytes two for each value. Two separate scripts, one by recursive descent and
// one by what may follow what, agree.
const READ: [Accepted; 11] = [
    Accepted {
        name: "sample s",
        words: &[
            0x1000_0008,
            0x2000_0004,
            0x2000_0000,
            0x2000_0001,
            0x2000_0000,
            0x3000_0006,
            0x5000_0001,
            0x1000_000a,
            0x2000_0001,
            0x2000_0000,
            0x2000_0002,
            0x2000_0000,
            0x2000_0000,
            0x3000_0002,
            0x5000_0002,
            0x3000_0006,
            0x5000_0003,
            0x3000_0008,
            0x5000_0006,
            0x1000_0008,
            0x2000_0001,
            0x2000_0002,
            0x2000_000a,
            0x2000_0014,
            0x1000_0006,
            0x2000_0002,
            0x2000_0000,
            0x2000_0000,
            0x3000_0002,
            0x5000_0004,
            0x3000_0004,
            0x5000_0005,
            0x6000_0002,
            0x1000_0008,
            0x2000_0064,
            0x2000_0003,
            0x2000_000b,
            0x2000_000c,
            0x6000_0002,
            0x1000_0006,
            0x2000_0065,
            0x2000_0002,
            0x2000_000b,
            0x6000_0002,
            0x1000_0004,
            0x2000_0001,
            0x2000_0000,
            0x3000_0002,
            0x5000_0007,
            0x6000_0002,
            0x1000_0006,
            0x2000_0066,
            0x2000_0002,
            0x2000_0015,
            0x6000_0002,
            0x7000_0000,
            0x8000_0008,
        ],
        counts: StreamCounts {
            tables: 8,
            links: 12,
            bytes: 56,
            roots: 1,
        },
    },
    Accepted {
        name: "only count",
        words: &[0x8000_0000],
        counts: StreamCounts {
            tables: 0,
            links: 0,
            bytes: 0,
            roots: 0,
        },
    },
    Accepted {
        name: "one empty table",
        words: &[0x1000_0000, 0x8000_0001],
        counts: StreamCounts {
            tables: 1,
            links: 0,
            bytes: 0,
            roots: 0,
        },
    },
    Accepted {
        name: "one root",
        words: &[0x1000_0000, 0x7000_0000, 0x8000_0001],
        counts: StreamCounts {
            tables: 1,
            links: 0,
            bytes: 0,
            roots: 1,
        },
    },
    Accepted {
        name: "highest value",
        words: &[0x1000_0002, 0x2000_ffff, 0x8000_0001],
        counts: StreamCounts {
            tables: 1,
            links: 0,
            bytes: 2,
            roots: 0,
        },
    },
    Accepted {
        name: "unjudged links",
        words: &[
            0x1000_0004,
            0x2000_0001,
            0x2000_0002,
            0x3000_0000,
            0x5000_0005,
            0x40ff_ffff,
            0x50ff_ffff,
            0x60ff_ffff,
            0x7000_0000,
            0x7000_0000,
            0x8000_0001,
        ],
        counts: StreamCounts {
            tables: 1,
            links: 3,
            bytes: 4,
            roots: 2,
        },
    },
    Accepted {
        name: "three tables",
        words: &[
            0x1000_0000,
            0x1000_0000,
            0x1000_0002,
            0x2000_0000,
            0x6000_0000,
            0x7000_0002,
            0x7000_0000,
            0x8000_0003,
        ],
        counts: StreamCounts {
            tables: 3,
            links: 1,
            bytes: 2,
            roots: 2,
        },
    },
    Accepted {
        name: "links between",
        words: &[
            0x1000_0000,
            0x6000_0000,
            0x1000_0000,
            0x3000_0000,
            0x5000_0001,
            0x8000_0002,
        ],
        counts: StreamCounts {
            tables: 2,
            links: 2,
            bytes: 0,
            roots: 0,
        },
    },
    Accepted {
        name: "virtual before real",
        words: &[
            0x1000_0002,
            0x2000_0009,
            0x6000_0000,
            0x4000_0000,
            0x5000_0000,
            0x6000_0000,
            0x8000_0001,
        ],
        counts: StreamCounts {
            tables: 1,
            links: 3,
            bytes: 2,
            roots: 0,
        },
    },
    Accepted {
        name: "a lookup without subtables",
        words: &[
            0x1000_0006,
            0x2000_0004,
            0x2000_0000,
            0x2000_0000,
            0x7000_0000,
            0x8000_0001,
        ],
        counts: StreamCounts {
            tables: 1,
            links: 0,
            bytes: 6,
            roots: 1,
        },
    },
    Accepted {
        name: "a link to no table",
        words: &[0x1000_0000, 0x3000_0000, 0x5000_0009, 0x8000_0001],
        counts: StreamCounts {
            tables: 1,
            links: 1,
            bytes: 0,
            roots: 0,
        },
    },
];

// Streams that break the rules, and the first word that does not fit, worked by hand: each breaks the one rule that its
// name says. The same two scripts agree.
const REFUSED: [Rejected; 50] = [
    Rejected {
        name: "empty",
        words: &[],
        index: 0,
    },
    Rejected {
        name: "kind 0",
        words: &[0x0000_0000],
        index: 0,
    },
    Rejected {
        name: "kind 9",
        words: &[0x1000_0000, 0x9000_0000, 0x8000_0001],
        index: 1,
    },
    Rejected {
        name: "kind 15",
        words: &[0x1000_0000, 0x7000_0000, 0xf000_0000],
        index: 2,
    },
    Rejected {
        name: "count wrong",
        words: &[0x8000_0001],
        index: 0,
    },
    Rejected {
        name: "count low",
        words: &[0x1000_0000, 0x8000_0000],
        index: 1,
    },
    Rejected {
        name: "count high",
        words: &[0x1000_0000, 0x7000_0000, 0x8000_0002],
        index: 2,
    },
    Rejected {
        name: "behind count",
        words: &[0x8000_0000, 0x8000_0000],
        index: 1,
    },
    Rejected {
        name: "table behind count",
        words: &[0x1000_0000, 0x8000_0001, 0x1000_0000],
        index: 2,
    },
    Rejected {
        name: "zero bit table",
        words: &[0x1100_0000, 0x8000_0001],
        index: 0,
    },
    Rejected {
        name: "zero bit value",
        words: &[0x1000_0002, 0x2001_0000, 0x8000_0001],
        index: 1,
    },
    Rejected {
        name: "zero bit value high",
        words: &[0x1000_0002, 0x2800_0000, 0x8000_0001],
        index: 1,
    },
    Rejected {
        name: "zero bit link2",
        words: &[0x1000_0000, 0x3100_0000, 0x5000_0000, 0x8000_0001],
        index: 1,
    },
    Rejected {
        name: "zero bit link4",
        words: &[0x1000_0000, 0x4800_0000, 0x5000_0000, 0x8000_0001],
        index: 1,
    },
    Rejected {
        name: "zero bit target",
        words: &[0x1000_0000, 0x3000_0000, 0x5200_0000, 0x8000_0001],
        index: 2,
    },
    Rejected {
        name: "zero bit virtual",
        words: &[0x1000_0000, 0x6100_0000, 0x8000_0001],
        index: 1,
    },
    Rejected {
        name: "zero bit root",
        words: &[0x1000_0000, 0x7100_0000, 0x8000_0001],
        index: 1,
    },
    Rejected {
        name: "zero bit count",
        words: &[0x1000_0000, 0x8100_0001],
        index: 1,
    },
    Rejected {
        name: "odd length",
        words: &[0x1000_0001, 0x8000_0001],
        index: 0,
    },
    Rejected {
        name: "odd length later",
        words: &[0x1000_0000, 0x1000_0003, 0x2000_0000, 0x8000_0002],
        index: 1,
    },
    Rejected {
        name: "value first",
        words: &[0x2000_0000, 0x8000_0000],
        index: 0,
    },
    Rejected {
        name: "value too few",
        words: &[0x1000_0004, 0x2000_0007, 0x8000_0001],
        index: 2,
    },
    Rejected {
        name: "value too few table",
        words: &[0x1000_0004, 0x2000_0007, 0x1000_0000, 0x8000_0002],
        index: 2,
    },
    Rejected {
        name: "value too few link",
        words: &[0x1000_0002, 0x3000_0000, 0x5000_0000, 0x8000_0001],
        index: 1,
    },
    Rejected {
        name: "value too few end",
        words: &[0x1000_0004, 0x2000_0007],
        index: 2,
    },
    Rejected {
        name: "value too many",
        words: &[0x1000_0002, 0x2000_0007, 0x2000_0007, 0x8000_0001],
        index: 2,
    },
    Rejected {
        name: "value behind link",
        words: &[
            0x1000_0002,
            0x2000_0007,
            0x6000_0000,
            0x2000_0007,
            0x8000_0001,
        ],
        index: 3,
    },
    Rejected {
        name: "virtual first",
        words: &[0x6000_0000, 0x8000_0000],
        index: 0,
    },
    Rejected {
        name: "link first",
        words: &[0x3000_0000, 0x5000_0000, 0x8000_0000],
        index: 0,
    },
    Rejected {
        name: "target first",
        words: &[0x5000_0000, 0x8000_0000],
        index: 0,
    },
    Rejected {
        name: "target alone",
        words: &[0x1000_0000, 0x5000_0000, 0x8000_0001],
        index: 1,
    },
    Rejected {
        name: "two targets",
        words: &[
            0x1000_0000,
            0x3000_0000,
            0x5000_0000,
            0x5000_0000,
            0x8000_0001,
        ],
        index: 3,
    },
    Rejected {
        name: "link then count",
        words: &[0x1000_0000, 0x3000_0000, 0x8000_0001],
        index: 2,
    },
    Rejected {
        name: "link then link",
        words: &[
            0x1000_0000,
            0x3000_0000,
            0x4000_0000,
            0x5000_0000,
            0x8000_0001,
        ],
        index: 2,
    },
    Rejected {
        name: "link then virtual",
        words: &[0x1000_0000, 0x4000_0000, 0x6000_0000, 0x8000_0001],
        index: 2,
    },
    Rejected {
        name: "link then end",
        words: &[0x1000_0000, 0x3000_0000],
        index: 2,
    },
    Rejected {
        name: "root missing",
        words: &[0x1000_0000, 0x7000_0001, 0x8000_0001],
        index: 1,
    },
    Rejected {
        name: "root of none",
        words: &[0x7000_0000, 0x8000_0000],
        index: 0,
    },
    Rejected {
        name: "second root missing",
        words: &[
            0x1000_0000,
            0x1000_0000,
            0x7000_0001,
            0x7000_0002,
            0x8000_0002,
        ],
        index: 3,
    },
    Rejected {
        name: "table behind root",
        words: &[0x1000_0000, 0x7000_0000, 0x1000_0000, 0x8000_0002],
        index: 2,
    },
    Rejected {
        name: "link behind root",
        words: &[0x1000_0000, 0x7000_0000, 0x6000_0000, 0x8000_0001],
        index: 2,
    },
    Rejected {
        name: "count wanting",
        words: &[0x1000_0000, 0x7000_0000],
        index: 2,
    },
    Rejected {
        name: "count wanting no root",
        words: &[0x1000_0000],
        index: 1,
    },
    Rejected {
        name: "first of two misfits",
        words: &[0x1000_0000, 0x5000_0000, 0x0000_0000, 0x0000_0000],
        index: 1,
    },
    Rejected {
        name: "kind 9 first",
        words: &[0x9000_0000],
        index: 0,
    },
    Rejected {
        name: "odd length with value",
        words: &[0x1000_0003, 0x2000_0000, 0x8000_0001],
        index: 0,
    },
    Rejected {
        name: "value missing end",
        words: &[0x1000_0002],
        index: 1,
    },
    Rejected {
        name: "value missing count",
        words: &[0x1000_0002, 0x8000_0001],
        index: 1,
    },
    Rejected {
        name: "count high no root",
        words: &[0x1000_0000, 0x8000_0002],
        index: 1,
    },
    Rejected {
        name: "count twice",
        words: &[0x1000_0000, 0x8000_0001, 0x8000_0001],
        index: 2,
    },
];

fn refuses(words: &[u32], index: usize) -> bool {
    scan(words).is_err_and(|refusal| {
        refusal == Refusal::BadWord { index }
            && refusal.number() == 1
            && refusal.value() == index as u64
    })
}

// A good stream that stops too soon is refused at its end, wherever it stops.
fn refuses_fronts(words: &[u32]) -> bool {
    (0..words.len()).all(|n| refuses(&words[..n], n))
}

#[test]
fn streams_are_judged(rt: HostRuntime) {
    for case in READ.iter() {
        let is_right = scan(case.words) == Ok(case.counts) && refuses_fronts(case.words);
        assert!(rt; is_right, "{}", case.name);
    }
    for case in REFUSED.iter() {
        assert!(rt; refuses(case.words, case.index), "{}", case.name);
    }
}
