// The places and the room of a group. An object of its store is a content of three bytes under a key of six, which takes 87
// bytes where it is stored: 1 and 6 for the key, 76, and 4 for its tail.

use crate::planning::{
    Call, EMPTY, Store, Told, expect_del, expect_entries, expect_set, nth_entry, planned, putting,
};

// 1020 pages in extents are all but 28 to 31, and 12,289 bytes take these four.
#[test]
fn no_page_is_left(rt: HostRuntime) {
    let plan = planned(
        &rt,
        &EMPTY,
        &[
            putting(
                0,
                &[Call::Put {
                    key: "demo/a",
                    size: 4_177_920,
                }],
            ),
            putting(
                1,
                &[Call::Put {
                    key: "demo/b",
                    size: 12_289,
                }],
            ),
            putting(
                2,
                &[Call::Put {
                    key: "demo/c",
                    size: 1,
                }],
            ),
            putting(
                3,
                &[Call::Put {
                    key: "demo/d",
                    size: 0,
                }],
            ),
        ],
        &[
            Told::Committed(1),
            Told::Committed(2),
            Told::NoSpace("demo/c", 0),
            Told::Committed(3),
        ],
    );
    expect_entries(&rt, &plan, &[(0, 1, 0), (1, 2, 1), (3, 3, 3)]);
    expect_set(
        &rt,
        nth_entry(&rt, &plan, 1),
        0,
        "demo/b",
        &[28, 29, 30],
        Some(31),
    );
    expect_set(&rt, nth_entry(&rt, &plan, 2), 0, "demo/d", &[], None);
}

// The first key in their order that finds no place is told, and the places of a refused member are free for the next.
// 16,384 bytes are four pages, and 24,576 bytes are these and two pages at once.
#[test]
fn places_of_a_refused_member(rt: HostRuntime) {
    let plan = planned(
        &rt,
        &EMPTY,
        &[
            putting(
                0,
                &[Call::Put {
                    key: "demo/a",
                    size: 4_177_920,
                }],
            ),
            putting(
                1,
                &[
                    Call::Put {
                        key: "demo/d",
                        size: 16_384,
                    },
                    Call::Put {
                        key: "demo/b",
                        size: 1,
                    },
                    Call::Put {
                        key: "demo/c",
                        size: 16_384,
                    },
                ],
            ),
            putting(
                2,
                &[Call::Put {
                    key: "demo/b",
                    size: 24_576,
                }],
            ),
            putting(
                3,
                &[Call::Put {
                    key: "demo/b",
                    size: 16_384,
                }],
            ),
        ],
        &[
            Told::Committed(1),
            Told::NoSpace("demo/c", 0),
            Told::NoSpace("demo/b", 1),
            Told::Committed(2),
        ],
    );
    expect_entries(&rt, &plan, &[(0, 1, 0), (3, 2, 3)]);
    expect_set(
        &rt,
        nth_entry(&rt, &plan, 1),
        0,
        "demo/b",
        &[28, 29, 30, 31],
        None,
    );
}

// A state of 32 extents and no tail takes 1235 bytes.
#[test]
fn no_room_for_a_fourth_state(rt: HostRuntime) {
    let store = Store {
        pages: 8192,
        ..EMPTY
    };
    let plan = planned(
        &rt,
        &store,
        &[
            putting(
                0,
                &[Call::Put {
                    key: "demo/a",
                    size: 4_177_920,
                }],
            ),
            putting(
                1,
                &[Call::Put {
                    key: "demo/b",
                    size: 4_177_920,
                }],
            ),
            putting(
                2,
                &[Call::Put {
                    key: "demo/c",
                    size: 4_177_920,
                }],
            ),
            putting(
                3,
                &[Call::Put {
                    key: "demo/d",
                    size: 4_177_920,
                }],
            ),
            putting(
                4,
                &[Call::Put {
                    key: "demo/e",
                    size: 1,
                }],
            ),
        ],
        &[
            Told::Committed(1),
            Told::Committed(2),
            Told::Committed(3),
            Told::NoRoom(4940, 4096),
            Told::Committed(4),
        ],
    );
    expect_entries(&rt, &plan, &[(0, 1, 0), (1, 2, 1), (2, 3, 2), (4, 4, 4)]);
}

// Of a member that makes the states shorter no byte is counted for the others. A state of no bytes takes 83.
#[test]
fn room_that_a_delete_leaves(rt: HostRuntime) {
    let store = Store {
        keys: &["demo/a", "demo/b"],
        room: 261,
        last: 2,
        ..EMPTY
    };
    let plan = planned(
        &rt,
        &store,
        &[
            putting(
                0,
                &[Call::Del {
                    key: "demo/a",
                    now: 1,
                }],
            ),
            putting(
                1,
                &[Call::Put {
                    key: "demo/b",
                    size: 9,
                }],
            ),
            putting(
                2,
                &[Call::Put {
                    key: "demo/c",
                    size: 1,
                }],
            ),
            putting(
                3,
                &[Call::Put {
                    key: "demo/d",
                    size: 1,
                }],
            ),
            putting(
                4,
                &[Call::Put {
                    key: "demo/e",
                    size: 0,
                }],
            ),
        ],
        &[
            Told::Committed(3),
            Told::Committed(4),
            Told::Committed(5),
            Told::NoRoom(348, 261),
            Told::NoRoom(344, 261),
        ],
    );
    expect_entries(&rt, &plan, &[(0, 3, 0), (1, 4, 1), (2, 5, 2)]);
}

// They are free only behind the group.
#[test]
fn places_that_are_replaced(rt: HostRuntime) {
    let store = Store {
        keys: &["demo/a", "demo/b", "demo/c"],
        last: 1,
        ..EMPTY
    };
    let plan = planned(
        &rt,
        &store,
        &[
            putting(
                0,
                &[Call::Put {
                    key: "demo/b",
                    size: 1,
                }],
            ),
            putting(
                1,
                &[
                    Call::Del {
                        key: "demo/a",
                        now: 1,
                    },
                    Call::Put {
                        key: "demo/d",
                        size: 4097,
                    },
                ],
            ),
        ],
        &[Told::Committed(2), Told::Committed(3)],
    );
    expect_set(&rt, nth_entry(&rt, &plan, 0), 0, "demo/b", &[], Some(3));
    expect_del(&rt, nth_entry(&rt, &plan, 1), 0, "demo/a");
    expect_set(&rt, nth_entry(&rt, &plan, 1), 1, "demo/d", &[4], Some(5));
    assert!(rt; plan.frees.as_slice() == [(1, 0), (0, 0)].as_slice());
}
