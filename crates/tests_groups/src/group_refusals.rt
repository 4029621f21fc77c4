// Requests that a group refuses for what they read, for what they know, or for want of numbers; and the order of refusals.

use crate::planning::{Asks, Call, EMPTY, Store, Told, expect_entries, planned, putting};

// The least of the keys that have another number is told.
#[test]
fn conflicts(rt: HostRuntime) {
    let store = Store {
        keys: &["demo/a", "demo/b", "demo/c"],
        last: 9,
        ..EMPTY
    };
    let plan = planned(
        &rt,
        &store,
        &[
            putting(
                0,
                &[
                    Call::Get {
                        key: "demo/d",
                        now: Some(5),
                    },
                    Call::Get {
                        key: "demo/c",
                        now: Some(4),
                    },
                    Call::Get {
                        key: "demo/b",
                        now: Some(3),
                    },
                    Call::Get {
                        key: "demo/a",
                        now: Some(1),
                    },
                ],
            ),
            putting(
                1,
                &[Call::Get {
                    key: "demo/d",
                    now: Some(5),
                }],
            ),
            putting(
                2,
                &[Call::Get {
                    key: "demo/a",
                    now: None,
                }],
            ),
            putting(
                3,
                &[Call::Del {
                    key: "demo/a",
                    now: 2,
                }],
            ),
        ],
        &[
            Told::Conflict("demo/b", Some(3), Some(1)),
            Told::Conflict("demo/d", Some(5), None),
            Told::Conflict("demo/a", None, Some(1)),
            Told::Conflict("demo/a", Some(2), Some(1)),
        ],
    );
    expect_entries(&rt, &plan, &[]);
}

// Each of these would be refused for what comes later too.
#[test]
fn refusals_in_their_order(rt: HostRuntime) {
    let last = 4_611_686_018_427_387_904;
    let store = Store {
        keys: &["demo/a"],
        room: 0,
        last,
        ..EMPTY
    };
    let plan = planned(
        &rt,
        &store,
        &[
            Asks {
                session: 0,
                seen: 4_611_686_018_427_387_905,
                calls: &[
                    Call::Get {
                        key: "demo/a",
                        now: Some(2),
                    },
                    Call::Put {
                        key: "demo/b",
                        size: 1,
                    },
                ],
            },
            putting(
                1,
                &[
                    Call::Get {
                        key: "demo/a",
                        now: Some(2),
                    },
                    Call::Put {
                        key: "demo/b",
                        size: 1,
                    },
                ],
            ),
            putting(
                2,
                &[Call::Put {
                    key: "demo/b",
                    size: 1,
                }],
            ),
        ],
        &[
            Told::Ahead(4_611_686_018_427_387_905, last),
            Told::Conflict("demo/a", Some(2), Some(1)),
            Told::NoNumber(last),
        ],
    );
    expect_entries(&rt, &plan, &[]);
    let store = Store { last: 1, ..store };
    let plan = planned(
        &rt,
        &store,
        &[
            putting(
                0,
                &[Call::Put {
                    key: "demo/b",
                    size: 4_194_304,
                }],
            ),
            putting(
                1,
                &[Call::Put {
                    key: "demo/b",
                    size: 1,
                }],
            ),
        ],
        &[Told::NoSpace("demo/b", 8), Told::NoRoom(174, 0)],
    );
    expect_entries(&rt, &plan, &[]);
}

// What a member was told of may be the last number before the group, and no number of the group itself.
#[test]
fn members_that_know_too_much(rt: HostRuntime) {
    let store = Store { last: 2, ..EMPTY };
    let plan = planned(
        &rt,
        &store,
        &[
            Asks {
                session: 0,
                seen: 2,
                calls: &[Call::Put {
                    key: "demo/a",
                    size: 1,
                }],
            },
            Asks {
                session: 1,
                seen: 3,
                calls: &[Call::Put {
                    key: "demo/b",
                    size: 1,
                }],
            },
        ],
        &[Told::Committed(3), Told::Ahead(3, 2)],
    );
    expect_entries(&rt, &plan, &[(0, 3, 0)]);
}

#[test]
fn the_last_number(rt: HostRuntime) {
    let store = Store {
        last: 4_611_686_018_427_387_903,
        ..EMPTY
    };
    let last = store.last + 1;
    let plan = planned(
        &rt,
        &store,
        &[
            putting(
                0,
                &[Call::Put {
                    key: "demo/a",
                    size: 1,
                }],
            ),
            putting(
                1,
                &[Call::Put {
                    key: "demo/b",
                    size: 1,
                }],
            ),
        ],
        &[Told::Committed(last), Told::NoNumber(last)],
    );
    expect_entries(&rt, &plan, &[(0, last, 0)]);
}
