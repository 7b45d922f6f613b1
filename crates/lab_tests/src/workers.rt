//! A run by one worker or several.

ghost use Rattle.std.specs.Prelude.{◌≤◌};

use crate::labs::run;
use graft_edge::FreeGate;
use lab_report::report;
use std::process::Abort;
use std::test::Fail;
use std::thread::Threads;

/// Two sessions that change places, over links that lose, repeat, hold back and stray.
const TWO_MOVES: &str = r#"
home_as = 65000

[[router]]
name = "a"
id = "10.255.0.1"
sessions = 4

[[router]]
name = "b"
id = "10.255.0.2"
sessions = 4

[[peering]]
name = "c1"
at = "a"
remote_as = 65001
remote_address = "192.0.2.1"
local_address = "192.0.2.2"

[[peering]]
name = "c2"
at = "b"
remote_as = 65002
remote_address = "192.0.2.5"
local_address = "192.0.2.6"

[[fault]]
peering = "c1"
way = "home"
segment = 2
kind = "lose"

[[fault]]
peering = "c1"
way = "home"
segment = 3
kind = "lose"

[[fault]]
peering = "c1"
way = "home"
segment = 4
kind = "stray"
after = 5

[[fault]]
peering = "c2"
way = "remote"
segment = 1
kind = "repeat"
after = 3

[[fault]]
peering = "c2"
way = "remote"
segment = 2
kind = "lose"

[[fault]]
peering = "c2"
way = "home"
segment = 1
kind = "hold"
after = 4

[[step]]
do = "announce"
peering = "c1"
prefixes = ["10.0.0.0/8"]

[[step]]
do = "announce"
peering = "c2"
prefixes = ["172.16.0.0/12"]

[[step]]
do = "settle"

[[step]]
do = "graft"
peering = "c1"
to = "b"

[[step]]
do = "graft"
peering = "c2"
to = "a"
"#;

/// What is reported of it, worked by hand: each remote's prefix is best at the router that its session moved to, and each remote is
/// told of the other's.
const REPORT: &str = "result settled
router a
best 10.0.0.0/8 router b pref 100 path 65001
best 172.16.0.0/12 peering c2 pref 100 path 65002
router b
best 10.0.0.0/8 peering c1 pref 100 path 65001
best 172.16.0.0/12 router a pref 100 path 65002
peering c1 at b state Established heard 1 told 1
peering c2 at a state Established heard 1 told 1
graft 1 c1 a b accepted
graft 2 c2 b a accepted
";

/// Runs the input by so many workers, and compares the report.
fn reports<R: Threads + Sync + Abort + AllocGlobal>(rt: &R, workers: usize) -> Result<(), Fail>
    requires { (1 ≤ workers) × (workers ≤ 8) }
{
    let lab = run(rt, TWO_MOVES, workers, &FreeGate)?;
    assert!(rt; lab.input.routers.len() == 2);
    let text = report(rt.alloc(), &lab)?;
    assert_eq!(rt; text.as_str(), REPORT, "by {workers} workers");
    Ok(())
}

/// The report doesn't depend on how many workers run it.
#[test]
fn any_number_of_workers_reports_the_same(rt: HostRuntime) -> Result<(), Fail> {
    reports(&rt, 1)?;
    reports(&rt, 2)?;
    reports(&rt, 4)?;
    reports(&rt, 8)
}
