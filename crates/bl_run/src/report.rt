//! The report of an answer.

ghost use Rattle.std.specs.Prelude.{◌≡◌, ◌++◌, ◌*ℤ◌, length, IfOk, OnOk};
ghost use Rattle.std.specs.Fmt.{signed_decimal};
ghost use Rattle.bl_terms.specs.Programs.{InBox, follower_at, columns as column_count};
ghost use Rattle.bl_cert_terms.specs.Certificates.{StatementHolds};
ghost use Rattle.bl_run.specs.Report.{report_of, optimal_text, column_line, column_lines};

use bl_cert_terms::Statement;
use bl_model::{Bilevel, RawColumn};
use itoa::Buffer;
use std::alloc::{AllocError, Global};

/// The whole report where no point is bilevel feasible.
pub const INFEASIBLE: &[u8] = b"infeasible\n";

/// The report of what is stated of a program.
pub(crate) fn stated_report(
    alloc: Global,
    columns: &[RawColumn],
    model: &Bilevel,
    statement: &Statement,
) -> Result<Vec<u8>, AllocError>
    requires columns { length columns.now ≡ column_count model.now }
    requires holds { StatementHolds model.now statement.now }
    ensures { IfOk result (λ text. text.items ≡ report_of columns.now model.now statement.now) }
{
    match statement {
        Statement::Optimal { point, value } => {
            let point = point.as_slice();
            let follower = follower_value(model, point);
            optimal_report(alloc, columns, point, *value, follower)
        }
        Statement::Infeasible => Vec::from_slice(alloc, INFEASIBLE),
    }
}

/// The follower's value of a point of the box, in the sense of the auxiliary text.
pub(crate) fn follower_value(model: &Bilevel, point: &[i64]) -> i64
    requires { InBox model.now point.now }
    ensures { result ≡ follower_at model.now point.now *ℤ model.now.sense }
{
    model.follower_of(point) * model.sense()
}

/// The report of an optimal point, with a line for each column.
#[tactic(auto, unfolding(crate::specs::Report::optimal_text))]
pub fn optimal_report(
    alloc: Global,
    columns: &[RawColumn],
    point: &[i64],
    value: i64,
    follower: i64,
) -> Result<Vec<u8>, AllocError>
    requires { length point.now ≡ length columns.now }
    ensures { IfOk result (λ text. text.items ≡ optimal_text columns.now point.now value follower) }
{
    let mut text = Vec::from_slice(alloc, b"optimal\nvalue ")?;
    push_number(&mut text, value)?;
    text.extend_from_slice(b"\nfollower ")?;
    push_number(&mut text, follower)?;
    text.extend_from_slice(b"\n")?;
    push_columns(&mut text, columns, point)?;
    Ok(text)
}

fn push_columns(text: &mut Vec<u8>, columns: &[RawColumn], point: &[i64]) -> Result<(), AllocError>
    requires { length point.now ≡ length columns.now }
    ensures { OnOk result (text.new.items ≡ text.old.items ++ column_lines columns.now point.now) }
{
    for (at, column) in columns.iter().enumerate() {
        push_column(text, column, point[at])?;
    }
    Ok(())
}

fn push_column(text: &mut Vec<u8>, column: &RawColumn, value: i64) -> Result<(), AllocError>
    ensures { OnOk result (text.new.items ≡ text.old.items ++ column_line column.now value) }
{
    text.extend_from_slice(b"column ")?;
    text.extend_from_slice(column.name.as_slice())?;
    text.extend_from_slice(b" ")?;
    push_number(text, value)?;
    text.extend_from_slice(b"\n")?;
    Ok(())
}

fn push_number(text: &mut Vec<u8>, number: i64) -> Result<(), AllocError>
    ensures { OnOk result (text.new.items ≡ text.old.items ++ signed_decimal number) }
{
    let mut buffer = Buffer::new();
    text.extend_from_slice(buffer.format(number).as_bytes())?;
    Ok(())
}
