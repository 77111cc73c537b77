//! The form alone that a line must have where a part is expected.
ghost use Rattle.std.specs.Prelude.{◌↔◌, ℕ, ℤ, IsTrue, List, Option};
ghost use Rattle.bl_terms.specs.Points.{Area};
ghost use Rattle.bl_terms.specs.Programs.{Program};
ghost use Rattle.bl_certtext.specs.Forms.{HasForm};

use crate::part::Part;
use bl_certline::CertLine;
use bl_model::Bilevel;

/// Whether the line is of the form with which the part begins, and lists as many numbers as the model asks for. A
/// checker tells by this a line of another form from one that names what isn't there.
pub fn has_form(model: &Bilevel, part: &Part, line: &CertLine) -> bool
    ensures { IsTrue result ↔ HasForm model.now part.now line.now }
{
    match part {
        Part::Version => matches!(line, CertLine::Version { number: 1 | 2 }),
        Part::Sense => matches!(line, CertLine::Sense { .. }),
        Part::Statement => is_statement(line),
        Part::Point => is_point(model, line),
        Part::EntryCount => matches!(line, CertLine::Entries { .. }),
        Part::Entries { .. } => is_link(model, line),
        Part::Answer => is_answer(model, line),
        Part::FollowerTree { .. } => is_follower_node(line),
        Part::CutCount => matches!(line, CertLine::CutCount { .. }),
        Part::Cuts { .. } => matches!(line, CertLine::CutHead),
        Part::CutArea { .. } => is_area(model, line),
        Part::Tight { .. } => matches!(line, CertLine::TightList { .. }),
        Part::Inverse { .. } => matches!(line, CertLine::Inverse { .. }),
        Part::Units { .. } => matches!(line, CertLine::Unit { .. }),
        Part::At => is_cut_point(model, line),
        Part::Response => is_response(model, line),
        Part::Head { .. } => matches!(line, CertLine::TreeHead),
        Part::Tree { .. } => is_node(line),
        Part::End => matches!(line, CertLine::End),
    }
}

fn is_statement(line: &CertLine) -> bool
    ensures { (p : Program) → IsTrue result ↔ HasForm p Part.Statement line.now }
{
    matches!(
        line,
        CertLine::StatesOptimal { .. } | CertLine::StatesInfeasible
    )
}

fn is_point(model: &Bilevel, line: &CertLine) -> bool
    ensures { IsTrue result ↔ HasForm model.now Part.Point line.now }
{
    match line {
        CertLine::Point { values } => values.as_slice().len() == model.lo().len(),
        _ => false,
    }
}

fn is_cut_point(model: &Bilevel, line: &CertLine) -> bool
    ensures { IsTrue result ↔ HasForm model.now Part.At line.now }
{
    match line {
        CertLine::At { values } => values.as_slice().len() == model.lo().len(),
        _ => false,
    }
}

fn is_area(model: &Bilevel, line: &CertLine) -> bool
    ensures { (place : ℕ) → IsTrue result ↔ HasForm model.now (Part.CutArea place) line.now }
{
    match line {
        CertLine::Area { sides } => sides.as_slice().len() == model.lo().len(),
        _ => false,
    }
}

fn is_link(model: &Bilevel, line: &CertLine) -> bool
    ensures { (left : ℕ) (last : Option (List ℤ))
        → IsTrue result ↔ HasForm model.now (Part.Entries left last) line.now }
{
    match line {
        CertLine::EntryHead { link } => link.as_slice().len() == model.links().len(),
        _ => false,
    }
}

fn is_answer(model: &Bilevel, line: &CertLine) -> bool
    ensures { IsTrue result ↔ HasForm model.now Part.Answer line.now }
{
    match line {
        CertLine::Best { response, .. } => response.as_slice().len() == model.follower().len(),
        CertLine::NoAnswer => true,
        _ => false,
    }
}

fn is_response(model: &Bilevel, line: &CertLine) -> bool
    ensures { IsTrue result ↔ HasForm model.now Part.Response line.now }
{
    match line {
        CertLine::Response { values } => values.as_slice().len() == model.follower().len(),
        _ => false,
    }
}

fn is_follower_node(line: &CertLine) -> bool
    ensures { (p : Program) (area : Area) → IsTrue result ↔ HasForm p (Part.FollowerTree area) line.now }
{
    matches!(line, CertLine::Split { .. } | CertLine::Proof { .. })
}

fn is_node(line: &CertLine) -> bool
    ensures { (p : Program) (area : Area) (cuts : ℕ) → IsTrue result ↔ HasForm p (Part.Tree area cuts) line.now }
{
    matches!(
        line,
        CertLine::Split { .. } | CertLine::Close { .. } | CertLine::NoAnswer
    )
}
