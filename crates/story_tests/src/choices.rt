//! Choices worked out by hand, by the rules of RFC 4271, section 9.1.2.2.

use bgp_types::Rank;
use decision_core::best;
use std::test::Fail;

/// The route that most others are compared with.
const BASE: Rank = Rank {
    own: false,
    pref: 100,
    path_len: 2,
    origin: 1,
    neighbour: 65001,
    med: 10,
    external: true,
    cost: 10,
    identifier: 10,
    address: 10,
};

/// Worse than `BASE` by every rule.
const WORST: Rank = Rank {
    own: false,
    pref: 0,
    path_len: 9,
    origin: 2,
    neighbour: 65001,
    med: 99,
    external: false,
    cost: 99,
    identifier: 99,
    address: 99,
};

const OWN: Rank = Rank { own: true, ..WORST };

const PREFERRED: Rank = Rank { pref: 101, ..WORST };

const SHORT: Rank = Rank {
    pref: 100,
    path_len: 1,
    ..WORST
};

const LOW_ORIGIN: Rank = Rank {
    pref: 100,
    path_len: 2,
    origin: 0,
    ..WORST
};

const LOW_MED: Rank = Rank {
    pref: 100,
    path_len: 2,
    origin: 1,
    med: 9,
    ..WORST
};

const NO_MED: Rank = Rank { med: 0, ..LOW_MED };

const OTHER_NEIGHBOUR: Rank = Rank {
    neighbour: 65002,
    med: 0,
    address: 11,
    ..BASE
};

const EXTERNAL: Rank = Rank {
    cost: 99,
    identifier: 99,
    address: 99,
    ..BASE
};

const INSIDE: Rank = Rank {
    external: false,
    ..BASE
};

const NEAR: Rank = Rank {
    cost: 9,
    identifier: 99,
    address: 99,
    ..BASE
};

const LOW_IDENTIFIER: Rank = Rank {
    identifier: 9,
    address: 99,
    ..BASE
};

const LOW_ADDRESS: Rank = Rank { address: 9, ..BASE };

/// It loses by its path, and would eliminate others by its MED.
const LONG_WITH_LOW_MED: Rank = Rank {
    path_len: 3,
    med: 0,
    ..BASE
};

// A, B and C are from two neighbour ASes. In pairs, A beats B and B beats C by the identifier, and C beats A by its
// MED. Together, C eliminates A, and B has a lower identifier than C.
const A: Rank = Rank {
    med: 20,
    identifier: 1,
    ..BASE
};

const B: Rank = Rank {
    neighbour: 65002,
    identifier: 5,
    ..BASE
};

const C: Rank = Rank {
    med: 10,
    identifier: 9,
    ..BASE
};

/// Equal to A by all nine rules, but told by another neighbour AS, so C doesn't eliminate it.
const EQUAL_TO_A: Rank = Rank {
    neighbour: 65003,
    ..A
};

struct Case {
    routes: &'static [Rank],
    best: usize,
    shows: &'static str,
}

/// Each rule decides in its turn, though all later ones favour the other route.
const EACH_RULE: &[Case] = &[
    Case {
        routes: &[BASE, OWN],
        best: 1,
        shows: "an own network first",
    },
    Case {
        routes: &[BASE, PREFERRED],
        best: 1,
        shows: "the highest preference",
    },
    Case {
        routes: &[BASE, SHORT],
        best: 1,
        shows: "the shortest path",
    },
    Case {
        routes: &[BASE, LOW_ORIGIN],
        best: 1,
        shows: "the lowest ORIGIN",
    },
    Case {
        routes: &[BASE, LOW_MED],
        best: 1,
        shows: "the lowest MED of one neighbour",
    },
    Case {
        routes: &[LOW_MED, NO_MED],
        best: 1,
        shows: "an absent MED is 0",
    },
    Case {
        routes: &[OTHER_NEIGHBOUR, BASE],
        best: 1,
        shows: "MEDs of different neighbours aren't compared",
    },
    Case {
        routes: &[INSIDE, EXTERNAL],
        best: 1,
        shows: "an external route before one from inside",
    },
    Case {
        routes: &[BASE, NEAR],
        best: 1,
        shows: "the lowest interior cost",
    },
    Case {
        routes: &[BASE, LOW_IDENTIFIER],
        best: 1,
        shows: "the lowest identifier",
    },
    Case {
        routes: &[BASE, LOW_ADDRESS],
        best: 1,
        shows: "the lowest address",
    },
    Case {
        routes: &[BASE, BASE, BASE],
        best: 0,
        shows: "the first of equals",
    },
];

/// Lists in which it matters that each rule is applied to all routes that the rules before it leave.
const TOGETHER: &[Case] = &[
    Case {
        routes: &[A, B, C],
        best: 1,
        shows: "C takes out A; two by two in order of arrival C would win",
    },
    Case {
        routes: &[B, C, A],
        best: 0,
        shows: "the same in another order; two by two in order of arrival A would win",
    },
    Case {
        routes: &[C, A, B],
        best: 2,
        shows: "and in a third",
    },
    Case {
        routes: &[A, EQUAL_TO_A, C],
        best: 1,
        shows: "of equals the first that is left, where C takes out the first",
    },
    Case {
        routes: &[LONG_WITH_LOW_MED, BASE],
        best: 1,
        shows: "a route that lost by its path takes out nothing by its MED",
    },
    Case {
        routes: &[LOW_ADDRESS, NO_MED, BASE],
        best: 1,
        shows: "a route that MED took out doesn't count by its address",
    },
];

#[test]
fn chooses_as_worked_out_by_hand(rt: HostRuntime) -> Result<(), Fail> {
    assert_eq!(rt; best(&[]), None);
    for case in EACH_RULE {
        assert_eq!(rt; best(case.routes), Some(case.best), "{}", case.shows);
    }
    for case in TOGETHER {
        assert_eq!(rt; best(case.routes), Some(case.best), "{}", case.shows);
    }
    Ok(())
}
