//! A worked value.

ghost use Rattle.std.specs.Prelude.{◌≡◌};
ghost use Rattle.report_json.specs.Values.{json_line};
ghost use Rattle.expect_json.specs.Verdicts.{verdicts_json};
ghost use Rattle.expect_json.specs.Worked.{worked_found, worked_line};

/// How an expectation that holds and one that doesn't are written.
pub fn worked_verdicts()
    ensures { json_line (verdicts_json worked_found 1) ≡ worked_line }
{}
