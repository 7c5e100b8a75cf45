// Keyed rows: a walk of puts and removes on four rows of each kind, with every row and many look-ups checked at each step.
use rows::{LinkRow, LinkWidth, ParentRow, Row, RowKey, find, put, remove};

// A row of any kind: its list, its place there, and what it holds. Nothing compares or prints it.
#[derive(Clone, Copy)]
struct Entry(u32, u32, u32);

impl From<Entry> for RowKey {
    fn from(entry: Entry) -> RowKey {
        RowKey {
            list: entry.0,
            place: entry.1,
        }
    }
}

impl From<Entry> for LinkRow {
    fn from(entry: Entry) -> LinkRow {
        LinkRow {
            owner: entry.0,
            position: entry.1,
            width: LinkWidth::Two,
            target: entry.2,
        }
    }
}

impl From<Entry> for ParentRow {
    fn from(entry: Entry) -> ParentRow {
        ParentRow {
            child: entry.0,
            parent: entry.1,
            links: entry.2,
        }
    }
}

// An enum, since it is read in one place, and a constant holds no closures.
enum Act {
    Put,
    Remove,
}

struct Step {
    name: &'static str,
    act: Act,
    row: Entry,
    answer: Option<usize>,
    // The rows in use then. All others are zero.
    after: &'static [Entry],
}

// The walk, worked by hand: rows in use stand in rising order by list and then place, a put with a known key replaces,
// one with a new key is refused where all four rows are in use, and a removed row leaves a zero row behind.
const STEPS: [Step; 19] = [
    Step {
        name: "nothing to remove",
        act: Act::Remove,
        row: Entry(0, 0, 0),
        answer: Some(0),
        after: &[],
    },
    Step {
        name: "the first",
        act: Act::Put,
        row: Entry(2, 4, 9),
        answer: Some(1),
        after: &[Entry(2, 4, 9)],
    },
    Step {
        name: "before it, by list",
        act: Act::Put,
        row: Entry(1, 8, 7),
        answer: Some(2),
        after: &[Entry(1, 8, 7), Entry(2, 4, 9)],
    },
    Step {
        name: "in its place",
        act: Act::Put,
        row: Entry(2, 4, 5),
        answer: Some(2),
        after: &[Entry(1, 8, 7), Entry(2, 4, 5)],
    },
    Step {
        name: "before it, by place",
        act: Act::Put,
        row: Entry(1, 2, 3),
        answer: Some(3),
        after: &[Entry(1, 2, 3), Entry(1, 8, 7), Entry(2, 4, 5)],
    },
    Step {
        name: "behind all",
        act: Act::Put,
        row: Entry(u32::MAX, u32::MAX, 6),
        answer: Some(4),
        after: &[
            Entry(1, 2, 3),
            Entry(1, 8, 7),
            Entry(2, 4, 5),
            Entry(u32::MAX, u32::MAX, 6),
        ],
    },
    Step {
        name: "full, between",
        act: Act::Put,
        row: Entry(1, 9, 6),
        answer: None,
        after: &[
            Entry(1, 2, 3),
            Entry(1, 8, 7),
            Entry(2, 4, 5),
            Entry(u32::MAX, u32::MAX, 6),
        ],
    },
    Step {
        name: "full, in front",
        act: Act::Put,
        row: Entry(0, 0, 1),
        answer: None,
        after: &[
            Entry(1, 2, 3),
            Entry(1, 8, 7),
            Entry(2, 4, 5),
            Entry(u32::MAX, u32::MAX, 6),
        ],
    },
    Step {
        name: "full, in place",
        act: Act::Put,
        row: Entry(1, 8, 0),
        answer: Some(4),
        after: &[
            Entry(1, 2, 3),
            Entry(1, 8, 0),
            Entry(2, 4, 5),
            Entry(u32::MAX, u32::MAX, 6),
        ],
    },
    Step {
        name: "full, nothing to remove",
        act: Act::Remove,
        row: Entry(1, 9, 0),
        answer: Some(4),
        after: &[
            Entry(1, 2, 3),
            Entry(1, 8, 0),
            Entry(2, 4, 5),
            Entry(u32::MAX, u32::MAX, 6),
        ],
    },
    Step {
        name: "the first goes",
        act: Act::Remove,
        row: Entry(1, 2, 0),
        answer: Some(3),
        after: &[Entry(1, 8, 0), Entry(2, 4, 5), Entry(u32::MAX, u32::MAX, 6)],
    },
    Step {
        name: "the last goes",
        act: Act::Remove,
        row: Entry(u32::MAX, u32::MAX, 0),
        answer: Some(2),
        after: &[Entry(1, 8, 0), Entry(2, 4, 5)],
    },
    Step {
        name: "in front of all",
        act: Act::Put,
        row: Entry(0, 0, 8),
        answer: Some(3),
        after: &[Entry(0, 0, 8), Entry(1, 8, 0), Entry(2, 4, 5)],
    },
    Step {
        name: "between lists",
        act: Act::Put,
        row: Entry(2, 3, 2),
        answer: Some(4),
        after: &[
            Entry(0, 0, 8),
            Entry(1, 8, 0),
            Entry(2, 3, 2),
            Entry(2, 4, 5),
        ],
    },
    Step {
        name: "from the middle",
        act: Act::Remove,
        row: Entry(1, 8, 0),
        answer: Some(3),
        after: &[Entry(0, 0, 8), Entry(2, 3, 2), Entry(2, 4, 5)],
    },
    Step {
        name: "the middle again",
        act: Act::Remove,
        row: Entry(2, 3, 0),
        answer: Some(2),
        after: &[Entry(0, 0, 8), Entry(2, 4, 5)],
    },
    Step {
        name: "the zero key",
        act: Act::Remove,
        row: Entry(0, 0, 0),
        answer: Some(1),
        after: &[Entry(2, 4, 5)],
    },
    Step {
        name: "the only one",
        act: Act::Remove,
        row: Entry(2, 4, 0),
        answer: Some(0),
        after: &[],
    },
    Step {
        name: "it is gone",
        act: Act::Remove,
        row: Entry(2, 4, 0),
        answer: Some(0),
        after: &[],
    },
];

// The keys that are looked up at each step: all that the walk puts, and neighbours of these.
const ASKED: [RowKey; 13] = [
    RowKey { list: 0, place: 0 },
    RowKey { list: 0, place: 1 },
    RowKey { list: 1, place: 0 },
    RowKey { list: 1, place: 2 },
    RowKey { list: 1, place: 4 },
    RowKey { list: 1, place: 8 },
    RowKey { list: 1, place: 9 },
    RowKey { list: 2, place: 3 },
    RowKey { list: 2, place: 4 },
    RowKey { list: 2, place: 8 },
    RowKey { list: 3, place: 0 },
    RowKey {
        list: u32::MAX,
        place: 0,
    },
    RowKey {
        list: u32::MAX,
        place: u32::MAX,
    },
];

// The zero rows, written out.
const ZERO_LINK: LinkRow = LinkRow {
    owner: 0,
    position: 0,
    width: LinkWidth::Zero,
    target: 0,
};

const ZERO_PARENT: ParentRow = ParentRow {
    child: 0,
    parent: 0,
    links: 0,
};

// With a count beside the slice, as the functions that are tested take it.
fn finds<T: Row + PartialEq + From<Entry>>(rows: &[T], used: usize, after: &[Entry]) -> bool {
    ASKED.iter().all(|key| {
        let found = find(rows, used, *key);
        match after.iter().find(|entry| RowKey::from(**entry) == *key) {
            Some(entry) => found == Some(T::from(*entry)),
            None => found.is_none(),
        }
    })
}

fn stand<T: Row + PartialEq + From<Entry>>(rows: &[T], after: &[Entry], zero: T) -> bool {
    let Some((used, spare)) = rows.split_at_checked(after.len()) else {
        return false;
    };
    let is_used = used
        .iter()
        .zip(after)
        .all(|(row, entry)| *row == T::from(*entry));
    is_used && spare.iter().all(|row| *row == zero)
}

fn taken<T: Row + From<Entry>>(rows: &mut [T], used: usize, step: &Step) -> Option<usize> {
    match step.act {
        Act::Put => put(rows, used, T::from(step.row)),
        Act::Remove => Some(remove(rows, used, RowKey::from(step.row))),
    }
}

// The name of the first step that goes wrong. Where all rows are in use, `beyond` is told in place of their number.
fn walk<T: Row + PartialEq + From<Entry>>(
    rows: &mut [T],
    zero: T,
    beyond: usize,
) -> Result<(), &'static str> {
    let mut used = 0;
    for step in STEPS.iter() {
        let answer = taken(rows, used, step);
        if answer != step.answer || !stand(rows, step.after, zero) {
            return Err(step.name);
        }
        used = step.after.len();
        if used == rows.len() {
            used = beyond;
        }
        if !finds(rows, used, step.after) {
            return Err(step.name);
        }
    }
    Ok(())
}

#[test]
fn rows_go_in_and_out(rt: HostRuntime) {
    for beyond in [4, 5, usize::MAX] {
        let mut links = [ZERO_LINK; 4];
        assert_eq!(rt; walk(&mut links, ZERO_LINK, beyond), Ok(()));
        let mut parents = [ZERO_PARENT; 4];
        assert_eq!(rt; walk(&mut parents, ZERO_PARENT, beyond), Ok(()));
    }
}
