// Which requests are members of a group, and their entries.

use crate::planning::{
    Asks, Call, EMPTY, Store, Told, expect_entries, expect_set, nth_entry, planned, putting,
};

#[test]
fn three_requests_in_one_group(rt: HostRuntime) {
    let plan = planned(
        &rt,
        &EMPTY,
        &[
            putting(
                2,
                &[Call::Put {
                    key: "demo/c",
                    size: 1,
                }],
            ),
            putting(
                0,
                &[Call::Put {
                    key: "demo/a",
                    size: 4097,
                }],
            ),
            putting(
                1,
                &[
                    Call::Put {
                        key: "demo/d",
                        size: 0,
                    },
                    Call::Put {
                        key: "demo/b",
                        size: 2,
                    },
                ],
            ),
        ],
        &[Told::Committed(1), Told::Committed(2), Told::Committed(3)],
    );
    expect_entries(&rt, &plan, &[(0, 1, 2), (1, 2, 0), (2, 3, 1)]);
    assert_eq!(rt; nth_entry(&rt, &plan, 2).writes.len(), 2);
    expect_set(&rt, nth_entry(&rt, &plan, 0), 0, "demo/c", &[], Some(0));
    expect_set(&rt, nth_entry(&rt, &plan, 1), 0, "demo/a", &[1], Some(2));
    expect_set(&rt, nth_entry(&rt, &plan, 2), 0, "demo/b", &[], Some(3));
    expect_set(&rt, nth_entry(&rt, &plan, 2), 1, "demo/d", &[], None);
    assert!(rt; plan.frees.is_empty());
}

#[test]
fn a_queue_of_no_requests(rt: HostRuntime) {
    let plan = planned(&rt, &EMPTY, &[], &[]);
    expect_entries(&rt, &plan, &[]);
    assert!(rt; plan.frees.is_empty());
}

// A request that writes nothing has an entry and a number.
#[test]
fn a_request_that_only_reads(rt: HostRuntime) {
    let store = Store {
        keys: &["demo/a"],
        last: 5,
        ..EMPTY
    };
    let plan = planned(
        &rt,
        &store,
        &[Asks {
            session: 4,
            seen: 5,
            calls: &[
                Call::Get {
                    key: "demo/a",
                    now: Some(1),
                },
                Call::Get {
                    key: "demo/b",
                    now: None,
                },
            ],
        }],
        &[Told::Committed(6)],
    );
    expect_entries(&rt, &plan, &[(0, 6, 4)]);
    assert!(rt; nth_entry(&rt, &plan, 0).writes.is_empty());
}

// It ends there whatever the request would be answered, and whatever stands behind it.
#[test]
fn a_group_ends_before_a_changed_key(rt: HostRuntime) {
    let others = [
        [Call::Put {
            key: "demo/a",
            size: 1,
        }],
        [Call::Get {
            key: "demo/a",
            now: None,
        }],
        [Call::Get {
            key: "demo/a",
            now: Some(7),
        }],
        [Call::Del {
            key: "demo/a",
            now: 1,
        }],
    ];
    for other in &others {
        let plan = planned(
            &rt,
            &EMPTY,
            &[
                putting(
                    0,
                    &[Call::Put {
                        key: "demo/a",
                        size: 1,
                    }],
                ),
                putting(1, other.as_slice()),
                putting(
                    2,
                    &[Call::Put {
                        key: "demo/b",
                        size: 1,
                    }],
                ),
            ],
            &[Told::Committed(1)],
        );
        expect_entries(&rt, &plan, &[(0, 1, 0)]);
    }
}

// Reading what another has read ends no group, and neither does a key that only a refused member changes.
#[test]
fn a_group_goes_on_behind_other_keys(rt: HostRuntime) {
    let store = Store {
        keys: &["demo/a", "demo/b"],
        last: 1,
        ..EMPTY
    };
    let plan = planned(
        &rt,
        &store,
        &[
            putting(
                0,
                &[Call::Get {
                    key: "demo/a",
                    now: Some(1),
                }],
            ),
            putting(
                1,
                &[
                    Call::Get {
                        key: "demo/b",
                        now: Some(2),
                    },
                    Call::Put {
                        key: "demo/c",
                        size: 1,
                    },
                ],
            ),
            putting(
                2,
                &[
                    Call::Get {
                        key: "demo/a",
                        now: Some(1),
                    },
                    Call::Put {
                        key: "demo/c",
                        size: 1,
                    },
                ],
            ),
        ],
        &[
            Told::Committed(2),
            Told::Conflict("demo/b", Some(2), Some(1)),
            Told::Committed(3),
        ],
    );
    expect_entries(&rt, &plan, &[(0, 2, 0), (2, 3, 2)]);
    expect_set(&rt, nth_entry(&rt, &plan, 1), 0, "demo/c", &[], Some(2));
}
