//! Texts of models, and of their certificates, worked out by hand.

/// X, Y 0..1, the leader's row Y >= 1, cost X.
pub(super) const UNWILLING: &str = "\
ROWS
 N COST
 G R
COLUMNS
 M 'MARKER' 'INTORG'
 X COST 1
 Y R 1
 M 'MARKER' 'INTEND'
RHS
 RHS R 1
BOUNDS
 UP BND X 1
 UP BND Y 1
ENDATA
";

pub(super) const UNWILLING_AUX: &str = "N 1\nM 0\nLC 1\nLO 1\nOS 1\n";

/// That no point of `UNWILLING` is bilevel feasible. The follower's best response is Y = 0; the leader's row, which
/// stands as -Y <= -1, and the value row Y <= 0 add up to 0 <= -1.
pub(super) const UNWILLING_CERT: &str = "\
mibs-certificate 1
states infeasible
entries 1
entry
best 0 0
proof 1
cuts 0
tree
close 0 v 0 0:1 1:1
end
";

/// X and Y up to 1, the leader's cost -X - 2Y and the follower's row Y <= X.
pub(super) const CUT: &str = "\
ROWS
 N COST
 L BELOW
COLUMNS
 M 'MARKER' 'INTORG'
 X COST -1 BELOW -1
 Y COST -2 BELOW 1
 M 'MARKER' 'INTEND'
BOUNDS
 BV BND X
 BV BND Y
ENDATA
";

/// The same with the leader's cost turned round, and maximised.
pub(super) const TURNED_CUT: &str = "\
OBJSENSE MAX
ROWS
 N COST
 L BELOW
COLUMNS
 M 'MARKER' 'INTORG'
 X COST 1 BELOW -1
 Y COST 2 BELOW 1
 M 'MARKER' 'INTEND'
BOUNDS
 BV BND X
 BV BND Y
ENDATA
";

pub(super) const CUT_AUX: &str = "N 1\nM 1\nLC 1\nLR 0\nLO 1\n";

/// That (1, 0) is optimal for `CUT`. At (1, 1) the follower's row and the upper side of X hold with equality and add up
/// to Y <= 1, and the follower has the cheaper response 0: so Y <= 0. The cost and twice this cut add up to -X, which
/// is at least -1.
pub(super) const CUT_CERT: &str = "\
mibs-certificate 1
states optimal -1
point 1 0
entries 1
entry 1
best 0 0
proof 1
cuts 1
cut
box 0 1 0 1
tight r0 u0
inverse 1
unit 1:1
unit 0:1 1:1
at 1 1
response 0
tree
close 1 - 1 0 2:2
end
";

/// The first two lines of `CUT_CERT`, and those of the same certificate in version 2, for each sense of the leader.
pub(super) const HEAD: &str = "mibs-certificate 1\nstates optimal -1\n";

pub(super) const LEAST_HEAD: &str = "mibs-certificate 2\nsense min\nstates optimal -1\n";

pub(super) const GREATEST_HEAD: &str = "mibs-certificate 2\nsense max\nstates optimal 1\n";
