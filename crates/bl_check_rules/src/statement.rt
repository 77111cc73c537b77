//! The rules of what is stated.
ghost use Rattle.std.specs.Prelude.{◌≡◌, ◌↔◌, IsTrue, IfOk};
ghost use Rattle.bl_terms.specs.Programs.{InBox, MeetsRows, value_at};
ghost use Rattle.bl_model.specs.Build.{leader_sense_of};
ghost use Rattle.bl_check_terms.specs.Reading.{stated_value as stated_value_of};
ghost use Rattle.bl_check_terms.specs.Rules.{KeepsSense};

use bl_cert_terms::Statement;
use bl_certline::CertLine;
use bl_model::Bilevel;

/// The sense of a leader who maximises, or minimises.
fn sense_of(maximise: bool) -> i64
    ensures { result ≡ leader_sense_of maximise }
{
    if maximise { -1 } else { 1 }
}

/// Whether the sense is the leader's; a text of version 1 is of one who minimises.
pub fn keeps_sense(model: &Bilevel, line: &CertLine) -> bool
    ensures { IsTrue result ↔ KeepsSense model.now line.now }
{
    match line {
        CertLine::Version { number } => *number != 1 || model.leader_sense() == 1,
        CertLine::Sense { maximise } => model.leader_sense() == sense_of(*maximise),
        _ => true,
    }
}

/// The value that is stated.
fn stated_value(statement: &Statement) -> i64
    ensures { result ≡ stated_value_of statement.now }
{
    match statement {
        Statement::Optimal { value, .. } => *value,
        Statement::Infeasible => 0,
    }
}

/// Whether a point of the box meets the rows and has the stated value.
pub fn keeps_point(model: &Bilevel, statement: &Statement, point: &[i64]) -> bool
    requires { InBox model.now point.now }
    ensures { IsTrue result ↔ (MeetsRows model.now point.now
        × (value_at model.now point.now ≡ stated_value_of statement.now)) }
{
    model.meets_rows(point) && model.value_of(point) == stated_value(statement)
}
