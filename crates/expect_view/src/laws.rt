//! What expectations say of runs, and of a worked one.

ghost use Rattle.std.specs.Prelude.{◌≡◌, ◌↔◌, ◌++◌, [], true, false, codes};
ghost use Rattle.lab_report.specs.declared.lab.Lab.{Lab};
ghost use Rattle.lab_report.specs.Report.{line_end};
ghost use Rattle.expect_view.specs.Expect.{all_hold, failed_count, test_text};
ghost use Rattle.expect_view.specs.Worked.{worked_lab, worked_text};

/// Law: all expectations hold exactly where the last line counts none that failed; and where nothing is expected, all does.
pub fn all_hold_where_none_fails()
    ensures counted { (lab : Lab) → (all_hold lab ≡ true) ↔ (failed_count lab ≡ 0) }
    ensures nothing { (lab : Lab) → lab.input.expects ≡ [] → all_hold lab ≡ true }
    ensures text { (lab : Lab) → lab.input.expects ≡ [] → test_text lab ≡ codes "expectations 0 failed 0" ++ line_end }
{}

/// Law: of a worked run, each kind of expectation once as it holds, and each key once as it doesn't.
pub fn worked_expectations()
    ensures text { test_text worked_lab ≡ worked_text }
    ensures failed { all_hold worked_lab ≡ false }
{}
