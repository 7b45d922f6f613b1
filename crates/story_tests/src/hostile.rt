//! The stories of hostile remotes.

ghost use Rattle.std.specs.Prelude.{◌++◌, [], ◌∷◌};
ghost use Rattle.bgp_types.specs.declared.message.SessionState.TheVariants.{Closed, Established};
ghost use Rattle.bgp_types.specs.Spelling.{framed};
ghost use Rattle.bgp_story.specs.declared.line.Line.TheVariants.{Got};
ghost use Rattle.bgp_story.specs.WorkedSessions.{open_bytes, keepalive_bytes, update_bytes, cease_bytes};
ghost use Rattle.story_tests.specs.Hostile.{HearsRemote, no_routes, one_route, home_opening, opening_and, established_and};
ghost use Rattle.story_tests.specs.Hostile.{refused, cut_update, endless_update, flipped_update, flipped_marker};
ghost use Rattle.story_tests.specs.Hostile.{too_long_header, strange_type, capable_open, capable_lines};

/// What remotes say after their OPEN and KEEPALIVE, computed: of an UPDATE that is cut, or never comes to its end,
/// nothing is read; a flipped bit in an UPDATE, a flipped marker, a length of 4,097, the type 5 and a second OPEN are
/// answered with the NOTIFICATION of their fault, and nothing after them is read (RFC 4271, sections 6.1, 6.3 and 6.6);
/// a NOTIFICATION closes without an answer; an OPEN with every kind of capability is taken like one without (RFC 5492,
/// section 4).
pub fn hostile_remotes_are_answered()
    ensures cut { HearsRemote (opening_and cut_update) (established_and []) Established home_opening no_routes }
    ensures endless { HearsRemote (opening_and endless_update) (established_and []) Established home_opening no_routes }
    ensures flipped { HearsRemote (opening_and (flipped_update ++ update_bytes))
        (established_and (refused flipped_update 3 10 [])) Closed (home_opening ++ framed 3 (3 ∷ 10 ∷ [])) no_routes }
    ensures marker { HearsRemote (opening_and (flipped_marker ++ update_bytes))
        (established_and (refused flipped_marker 1 1 [])) Closed (home_opening ++ framed 3 (1 ∷ 1 ∷ [])) no_routes }
    ensures length { HearsRemote (opening_and (too_long_header ++ update_bytes))
        (established_and (refused too_long_header 1 2 (0x10 ∷ 0x01 ∷ []))) Closed (home_opening ++ framed 3 (1 ∷ 2 ∷ 0x10 ∷ 0x01 ∷ [])) no_routes }
    ensures kind { HearsRemote (opening_and (strange_type ++ update_bytes))
        (established_and (refused strange_type 1 3 (5 ∷ []))) Closed (home_opening ++ framed 3 (1 ∷ 3 ∷ 5 ∷ [])) no_routes }
    ensures opened_twice { HearsRemote (opening_and (open_bytes ++ update_bytes))
        (established_and (refused open_bytes 5 0 [])) Closed (home_opening ++ framed 3 (5 ∷ 0 ∷ [])) no_routes }
    ensures ceased { HearsRemote (opening_and (cease_bytes ++ update_bytes)) (established_and (Got cease_bytes ∷ [])) Closed home_opening no_routes }
    ensures capable { HearsRemote (capable_open ++ (keepalive_bytes ++ (update_bytes ++ keepalive_bytes))) capable_lines Established home_opening one_route }
{}
