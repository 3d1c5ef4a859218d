use super::*;
use std::test::*;

const IDLE: RequestTally = RequestTally {
    qs: 3,
    last: b'Q',
    last_plain: b'Q',
    at_boundary: true,
};

const READY: ResponseTally = ResponseTally {
    zs: 3,
    last: b'Z',
    empty: true,
};

#[test]
fn behind_which_messages(rt: HostRuntime) {
    let rows = [
        (b'Q', b'Q', true),
        (b'S', b'S', true),
        (b'c', b'Q', true),
        (b'f', b'Q', true),
        (b'c', b'S', true),
        (b'd', b'Q', false),
        (b'c', b'E', false),
        (b'P', b'P', false),
        (b'H', b'H', false),
        (0, 0, false),
    ];
    for (last, last_plain, want) in rows {
        let q = RequestTally {
            last,
            last_plain,
            ..IDLE
        };
        assert_eq!(rt; is_safe(&q, &READY), want, "behind {last} and {last_plain}");
    }
}

#[test]
fn before_all_was_answered(rt: HostRuntime) {
    let rows = [
        (3, 3, b'Z', true, true, true),
        (3, 2, b'Z', true, true, false),
        (3, 4, b'Z', true, true, false),
        (3, 3, b'N', true, true, false),
        (3, 3, b'Z', false, true, false),
        (3, 3, b'Z', true, false, false),
        (u64::MAX - 1, u64::MAX - 1, b'Z', true, true, true),
        (u64::MAX, u64::MAX, b'Z', true, true, false),
    ];
    for (qs, zs, last, at_boundary, empty, want) in rows {
        let q = RequestTally {
            qs,
            at_boundary,
            ..IDLE
        };
        let r = ResponseTally { zs, last, empty };
        assert_eq!(rt; is_safe(&q, &r), want, "at {qs} and {zs}");
    }
}
