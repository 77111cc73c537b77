//! Texts of models.

/// The example of Moore and Bard (1990).
pub(super) const MOORE_BARD: &str = "\
NAME          MOOREBARD
ROWS
 N  COST
 L  C1
 L  C2
 L  C3
 G  C4
COLUMNS
    MARKER1   'MARKER'  'INTORG'
    X         COST      -1   C1   -25
    X         C2         1   C3     2
    X         C4         2
    Y         COST     -10   C1    20
    Y         C2         2   C3    -1
    Y         C4        10
    MARKER2   'MARKER'  'INTEND'
RHS
    RHS       C1        30   C2    10
    RHS       C3        15   C4    15
BOUNDS
 UP BND       X         10
 UP BND       Y         10
ENDATA
";

pub(super) const MOORE_BARD_AUX: &str = "\
N 1
M 4
LC 1
LR 0
LR 1
LR 2
LR 3
LO 1
OS 1
";

/// A toll on a fast road.
pub(super) const TOLL: &str = "\
* An authority sets a toll on the fast road and earns it where the traveller takes that road.
NAME          TOLL
OBJSENSE
    MAX
ROWS
 N  EARNED
* One of the two roads is taken.
 E  ONEROAD
* Where the fast road is taken, the revenue is at least the toll: TOLL + 5 FAST - REVENUE <= 5.
 L  PAID
COLUMNS
    MARKER1   'MARKER'  'INTORG'
    TOLL      PAID         1
    FAST      ONEROAD      1   PAID         5
    SLOW      ONEROAD      1
    REVENUE   EARNED       1   PAID        -1
    MARKER2   'MARKER'  'INTEND'
RHS
    RHS       ONEROAD      1   PAID         5
BOUNDS
 UP BND       TOLL      5
 BV BND       FAST
 BV BND       SLOW
 UP BND       REVENUE   5
ENDATA
";

pub(super) const TOLL_AUX: &str = "\
N 3
M 2
LC 1
LC 2
LC 3
LR 0
LR 1
LO 2
LO 6
LO 1
OS 1
";

/// A cargo that is stopped.
pub(super) const INTERDICTION: &str = "\
NAME          INTERDICTION
ROWS
 N  COST
 L  BUDGET
 L  KEPT1
 L  KEPT2
 L  KEPT3
 L  ROOM
COLUMNS
    MARKER1   'MARKER'  'INTORG'
    STOP1     BUDGET       1   KEPT1        1
    STOP2     BUDGET       1   KEPT2        1
    STOP3     BUDGET       1   KEPT3        1
    TAKE1     COST         5   KEPT1        1
    TAKE1     ROOM         2
    TAKE2     COST         4   KEPT2        1
    TAKE2     ROOM         3
    TAKE3     COST         3   KEPT3        1
    TAKE3     ROOM         2
    MARKER2   'MARKER'  'INTEND'
RHS
    RHS       BUDGET       1
    RHS       KEPT1        1
    RHS       KEPT2        1
    RHS       KEPT3        1
    RHS       ROOM         4
BOUNDS
 UP BND       STOP1     1
 UP BND       STOP2     1
 UP BND       STOP3     1
 UP BND       TAKE1     1
 UP BND       TAKE2     1
 UP BND       TAKE3     1
ENDATA
";

pub(super) const INTERDICTION_AUX: &str = "\
N 3
M 4
LC 3
LC 4
LC 5
LR 1
LR 2
LR 3
LR 4
LO 5
LO 4
LO 3
OS -1
";

/// A supplier who has the choice.
pub(super) const TIES: &str = "\
NAME          TIES
ROWS
 N  COST
 L  DEMAND
 L  DOCK
COLUMNS
    MARKER1   'MARKER'  'INTORG'
    ORDER     COST        -2   DEMAND       1
    NORTH     DEMAND      -1
    SOUTH     COST        -1   DEMAND      -1
    SOUTH     DOCK         1
    MARKER2   'MARKER'  'INTEND'
RHS
    RHS       DOCK         1
BOUNDS
 UP BND       ORDER     3
 UP BND       NORTH     2
 UP BND       SOUTH     2
ENDATA
";

pub(super) const TIES_AUX: &str = "\
N 2
M 1
LC 1
LC 2
LR 0
LO 1
LO 1
OS 1
";

/// X 0..3, Y 0..5, the follower's row Y - X <= 0, cost Y - 2X.
pub(super) const RAMP: &str = "\
NAME
ROWS
 N COST
 L R
COLUMNS
 M 'MARKER' 'INTORG'
 X COST -2 R -1
 Y COST 1 R 1
 M 'MARKER' 'INTEND'
RHS
BOUNDS
 UP BND X 3
 UP BND Y 5
ENDATA
";

/// X 0..3, Y 0..5, the follower's row Y - X <= 0, and 2X - Y to be maximised.
pub(super) const GREATEST: &str = "\
NAME
OBJSENSE MAX
ROWS
 N COST
 L R
COLUMNS
 M 'MARKER' 'INTORG'
 X COST 2 R -1
 Y COST -1 R 1
 M 'MARKER' 'INTEND'
BOUNDS
 UP X 3
 UP Y 5
ENDATA
";

/// X, Y1, Y2 0..1, the leader's row Y1 + Y2 <= 1, cost -Y1 - Y2.
pub(super) const CHOICE: &str = "\
NAME
ROWS
 N COST
 L R
COLUMNS
 M 'MARKER' 'INTORG'
 X COST 0
 Y1 COST -1 R 1
 Y2 COST -1 R 1
 M 'MARKER' 'INTEND'
RHS
 RHS R 1
BOUNDS
 UP BND X 1
 UP BND Y1 1
 UP BND Y2 1
ENDATA
";

/// X, Y 0..1, the leader's row Y >= 1, cost X.
pub(super) const UNWILLING: &str = "\
NAME
ROWS
 N COST
 G R
COLUMNS
 M 'MARKER' 'INTORG'
 X COST 1
 Y R 1
 M 'MARKER' 'INTEND'
RHS
 RHS R 1
BOUNDS
 UP BND X 1
 UP BND Y 1
ENDATA
";

/// A, B 0..3, A + 2B <= 4, cost -2A - 3B, and no follower.
pub(super) const ALONE: &str = "\
NAME
ROWS
 N COST
 L R
COLUMNS
 M 'MARKER' 'INTORG'
 A COST -2 R 1
 B COST -3 R 2
 M 'MARKER' 'INTEND'
RHS
 RHS R 4
BOUNDS
 UP BND A 3
 UP BND B 3
ENDATA
";

/// X fixed to 3, cost 2X, X <= 3, and no follower.
pub(super) const FIXED: &str = "\
ROWS
 N COST
 L R
COLUMNS
 M 'MARKER' 'INTORG'
 X COST 2 R 1
RHS
 R 3
BOUNDS
 FX X 3
ENDATA
";

/// The same with X <= 2.
pub(super) const FIXED_APART: &str = "\
ROWS
 N COST
 L R
COLUMNS
 M 'MARKER' 'INTORG'
 X COST 2 R 1
RHS
 R 2
BOUNDS
 FX X 3
ENDATA
";

/// X, Y 0..1, the follower's row 2Y >= 1, cost -X.
pub(super) const HALF: &str = "\
ROWS
 N COST
 G R
COLUMNS
 M 'MARKER' 'INTORG'
 X COST -1
 Y R 2
RHS
 R 1
BOUNDS
 UP X 1
 UP Y 1
ENDATA
";

/// X and Y up to 1, the leader's cost -X - 2Y and the follower's row Y <= X. At (1, 1) the follower has the better
/// response 0; the cut Y <= 0, made there, closes the root.
pub(super) const CUT: &str = "\
NAME
ROWS
 N COST
 L BELOW
COLUMNS
 M 'MARKER' 'INTORG'
 X COST -1 BELOW -1
 Y COST -2 BELOW 1
 M 'MARKER' 'INTEND'
BOUNDS
 BV BND X
 BV BND Y
ENDATA
";

/// Six columns of the leader with large prime-like coefficients, each of which has to be 1, and one of the follower.
pub(super) const WIDE: &str = "\
NAME
ROWS
 N COST
 G ROW1
 G ROW2
 G ROW3
 G ROW4
 G ROW5
 G ROW6
COLUMNS
 M 'MARKER' 'INTORG'
 X1 COST 1 ROW1 9999999
 X2 COST 1 ROW2 9999998
 X3 COST 1 ROW3 9999997
 X4 COST 1 ROW4 9999995
 X5 COST 1 ROW5 9999991
 X6 COST 1 ROW6 9999989
 Y COST 0
 M 'MARKER' 'INTEND'
RHS
 RHS ROW1 1 ROW2 1
 RHS ROW3 1 ROW4 1
 RHS ROW5 1 ROW6 1
ENDATA
";

/// X from 0 to the default upper bound, cost -X.
pub(super) const OPEN: &str = "\
ROWS
 N COST
COLUMNS
 M 'MARKER' 'INTORG'
 X COST -1
ENDATA
";

/// 2X from 6 to 10, given as a row of at most 10 with a range of 4; the leader maximises X.
pub(super) const RANGE: &str = "\
OBJSENSE MAX
ROWS
 N COST
 L R
COLUMNS
 M 'MARKER' 'INTORG'
 X COST 1 R 2
RHS
 R 10
RANGES
 R 4
BOUNDS
 UP X 9
ENDATA
";

/// What is shown of the example of Moore and Bard, and of the range.
pub(super) const MOORE_BARD_SHOWN: &str = "\
0
NAME
ROWS
 N COST
 L C1
 L C2
 L C3
 G C4
COLUMNS
 MARKER 'MARKER' 'INTORG'
 X COST -1
 X C1 -25
 X C2 1
 X C3 2
 X C4 2
 Y COST -10
 Y C1 20
 Y C2 2
 Y C3 -1
 Y C4 10
 MARKER 'MARKER' 'INTEND'
RHS
 RHS C1 30
 RHS C2 10
 RHS C3 15
 RHS C4 15
RANGES
BOUNDS
 LO BND X 0
 UP BND X 10
 LO BND Y 0
 UP BND Y 10
ENDATA
N 1
M 4
LC 1
LR 0
LR 1
LR 2
LR 3
LO 1
OS 1
links 0
";

pub(super) const RANGE_SHOWN: &str = "\
0
NAME
OBJSENSE
 MAX
ROWS
 N COST
 G R
COLUMNS
 MARKER 'MARKER' 'INTORG'
 X COST 1
 X R 2
 MARKER 'MARKER' 'INTEND'
RHS
 RHS R 6
RANGES
 RANGE R 4
BOUNDS
 LO BND X 0
 UP BND X 9
ENDATA
N 0
M 0
OS 1
links
";
