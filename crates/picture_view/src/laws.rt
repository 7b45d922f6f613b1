//! A worked picture.

ghost use Rattle.std.specs.Prelude.{◌≡◌, codes};
ghost use Rattle.picture_view.specs.declared.plan.Change.TheVariants.{Left};
ghost use Rattle.picture_view.specs.Elements.{escaped};
ghost use Rattle.picture_view.specs.Positions.{point_x, end_x, graft_x, next_leave_x, row_y, bottom_y, width_of, height_of, arrives, is_back};
ghost use Rattle.picture_view.specs.Shapes.{bow};
ghost use Rattle.picture_view.specs.Worked.{worked_plan, worked_point};

/// Four rounds of 160 pixels stand behind 128 for names. The session leaves an eighth into round 8, is turned back five eighths into it, and is
/// back seven eighths into round 9.
pub fn worked_columns()
    ensures left { point_x worked_plan (worked_point 8 Left) ≡ 468 }
    ensures arrives { graft_x worked_plan arrives 1 ≡ 548 }
    ensures back { graft_x worked_plan is_back 1 ≡ 748 }
    ensures leaves { next_leave_x worked_plan 0 0 ≡ 468 }
    ensures stays { next_leave_x worked_plan 0 9 ≡ 768 }
    ensures end { end_x worked_plan ≡ 768 }
    ensures width { width_of worked_plan ≡ 960 }
{}

/// The first lane has one row, and the second one two, each behind 32 pixels for the name of the router.
pub fn worked_rows()
    ensures source { row_y worked_plan 0 0 ≡ 168 }
    ensures target { row_y worked_plan 1 0 ≡ 216 }
    ensures other { row_y worked_plan 1 1 ≡ 232 }
    ensures bottom { bottom_y worked_plan ≡ 248 }
    ensures height { height_of worked_plan 1 ≡ 304 }
{}

/// The way of the session to its target.
pub fn worked_bow()
    ensures { bow 0 468 168 548 216 ≡ codes "<path class='w c0' d='M468 168C508 168 508 216 548 216" }
{}

/// A name in which five characters mean something else in XML.
pub fn worked_escape()
    ensures { escaped (codes "<a> & \"b\" 'c'") ≡ codes "&lt;a&gt; &amp; &quot;b&quot; &#39;c&#39;" }
{}
