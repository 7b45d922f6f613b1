//! The laws of one solution.

ghost use Rattle.even_meshes.specs.Laws.{EvenMeshesHaveOneSolution, OnlyLeadersTell, TheSolutionSolves, UnevenMeshesHaveTwo};
ghost use Rattle.even_meshes.specs.Laws.{EqualMeshesHaveEqualTables, SettledTablesAreTheSolution};

/// If all routes of each neighbour AS have the same MED, there are best routes that fit the choices of all routers, and
/// only one for each router: those of the solution, which is computed from what each router has by itself. A router
/// then tells its first route exactly if it leads with that, and nothing otherwise.
pub fn even_meshes_have_one_solution()
    ensures only { EvenMeshesHaveOneSolution }
    ensures solves { TheSolutionSolves }
    ensures leaders { OnlyLeadersTell }
{}

/// If MEDs of one neighbour AS differ, there can be two solutions: two routers with two sessions each are enough (RFC
/// 4271, section 9.1.2.2 (c)).
pub fn uneven_meshes_have_two()
    ensures { UnevenMeshesHaveTwo }
{}

/// If the tables of all routers solve the decision equations, and the routes to a prefix are even in MED, each router's
/// best route to that prefix is that of the solution.
pub fn settled_tables_are_the_solution()
    ensures { SettledTablesAreTheSolution }
{}

/// Two worlds of one laboratory, whose tables solve the decision equations, have the same best routes to a prefix, if
/// each router has the same sessions with the same routes to it in both, and these are even in MED. It doesn't matter
/// which events led to the tables, and in which order.
pub fn equal_meshes_have_equal_tables()
    ensures { EqualMeshesHaveEqualTables }
{}
