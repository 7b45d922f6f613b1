//! Worked values.

ghost use Rattle.std.specs.Prelude.{◌≡◌, map};
ghost use Rattle.report_json.specs.Values.{json_line};
ghost use Rattle.report_json.specs.Worked.{worked_values, worked_lines};

/// How ends of runs, paths and refusals are written.
pub fn worked_values()
    ensures { map json_line worked_values ≡ worked_lines }
{}
