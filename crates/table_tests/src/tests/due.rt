use bgp_types::Prefix;
use prefix_set::PrefixSet;
use std::alloc::Global;
use std::process::Abort;
use std::test::Fail;

/// A call on a set. Numbers stand for prefixes: n for 10.n.0.0/16.
#[derive(Clone, Copy)]
enum Step {
    Insert(u8),
    Remove(u8),
    Clear,
}

struct Case {
    steps: &'static [Step],
    left: &'static [u8],
    shows: &'static str,
}

const CASES: &[Case] = &[
    Case {
        steps: &[],
        left: &[],
        shows: "a new set is empty",
    },
    Case {
        steps: &[Step::Insert(1), Step::Insert(2), Step::Insert(4)],
        left: &[1, 2, 4],
        shows: "prefixes that come in order are listed so",
    },
    Case {
        steps: &[
            Step::Insert(2),
            Step::Insert(4),
            Step::Insert(1),
            Step::Insert(3),
            Step::Insert(4),
        ],
        left: &[1, 2, 3, 4],
        shows: "those that come late stand in their places, and none twice",
    },
    Case {
        steps: &[
            Step::Insert(1),
            Step::Insert(2),
            Step::Insert(3),
            Step::Remove(1),
            Step::Remove(3),
        ],
        left: &[2],
        shows: "the first goes, and the last",
    },
    Case {
        steps: &[
            Step::Insert(1),
            Step::Insert(2),
            Step::Remove(1),
            Step::Insert(1),
            Step::Insert(2),
        ],
        left: &[1, 2],
        shows: "what has gone comes back",
    },
    Case {
        steps: &[
            Step::Insert(2),
            Step::Insert(1),
            Step::Remove(2),
            Step::Insert(1),
            Step::Remove(1),
        ],
        left: &[],
        shows: "a prefix that came late, and then in order, goes as one",
    },
    Case {
        steps: &[
            Step::Insert(2),
            Step::Insert(1),
            Step::Clear,
            Step::Insert(3),
        ],
        left: &[3],
        shows: "a set that was cleared begins anew",
    },
];

fn prefix(number: u8) -> Result<Prefix, Fail> {
    let address = 0x0A00_0000 + u32::from(number) * 0x0001_0000;
    Ok(Prefix::new(address, 16).ok_or("the length is at most 32")?)
}

fn run(set: &mut PrefixSet, step: Step) -> Result<(), Fail> {
    match step {
        Step::Insert(number) => set.insert(prefix(number)?)?,
        Step::Remove(number) => set.remove(prefix(number)?),
        Step::Clear => set.clear(),
    }
    Ok(())
}

/// Runs a case, and checks that the set is left with its prefixes.
fn run_case(rt: &impl Abort, alloc: Global, case: &Case) -> Result<(), Fail> {
    let mut set = PrefixSet::new(alloc);
    for step in case.steps {
        run(&mut set, *step)?;
    }
    let mut left = Vec::new(alloc);
    for number in case.left {
        left.push(prefix(*number)?)?;
    }
    assert_eq!(rt; set.first(), left.first().copied(), "{}", case.shows);
    assert_eq!(rt;
        set.prefixes()?.as_slice(),
        left.as_slice(),
        "{}",
        case.shows
    );
    for number in 1..=4 {
        let is_left = case.left.contains(&number);
        assert_eq!(rt; set.contains(prefix(number)?), is_left, "{}", case.shows);
    }
    Ok(())
}

#[test]
fn due_sets_have_what_is_left(rt: HostRuntime) -> Result<(), Fail> {
    for case in CASES {
        run_case(&rt, rt.alloc(), case)?;
    }
    Ok(())
}
