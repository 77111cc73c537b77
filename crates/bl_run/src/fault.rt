//! The rule that a text breaks first, and where.

ghost use Rattle.std.specs.Prelude.{◌≡◌};
ghost use Rattle.bl_run.specs.Texts.{mps_rule, mps_place, is_of_column, aux_rule, cert_rule, line_place};
ghost use Rattle.bl_run.specs.Steps.{place_of};

use bl_aux::{AuxFault, AuxRule};
use bl_check::CertRule;
use bl_mps::{MpsFault, MpsRule};

/// Where a text breaks a rule. Lines count from 1, and columns of the model from 0.
#[derive(Clone, Copy, Debug)]
pub(crate) enum Place {
    Line(u64),
    Column(u32),
    Whole,
}

/// A rule, by its name, and where a text breaks it.
#[derive(Clone, Copy, Debug)]
pub(crate) struct TextFault {
    pub(crate) place: Place,
    pub(crate) rule: &'static str,
}

/// The fault of an MPS text.
pub(crate) fn mps_fault(fault: MpsFault) -> TextFault
    ensures place { place_of result.place ≡ mps_place fault }
    ensures rule { result.rule.now ≡ mps_rule fault.rule }
{
    TextFault {
        place: mps_place(fault),
        rule: mps_rule(fault.rule),
    }
}

/// The line, or else the column where the rule is of one column.
fn mps_place(fault: MpsFault) -> Place
    ensures { place_of result ≡ mps_place fault }
{
    if fault.line == 0 && is_of_column(fault.rule) {
        Place::Column(fault.column)
    } else {
        line_place(fault.line)
    }
}

fn is_of_column(rule: MpsRule) -> bool
    ensures { result ≡ is_of_column rule }
{
    match rule {
        MpsRule::Continuous | MpsRule::Unbounded | MpsRule::NegativeUpper | MpsRule::EmptyBounds =>
            true,
        _ => false,
    }
}

fn mps_rule(rule: MpsRule) -> &'static str
    ensures { result.now ≡ mps_rule rule }
{
    match rule {
        MpsRule::BadSection => "BadSection",
        MpsRule::BadFields => "BadFields",
        MpsRule::BadObjSense => "BadObjSense",
        MpsRule::DuplicateRow => "DuplicateRow",
        MpsRule::TooMany => "TooMany",
        MpsRule::DuplicateColumn => "DuplicateColumn",
        MpsRule::UnknownRow => "UnknownRow",
        MpsRule::UnknownColumn => "UnknownColumn",
        MpsRule::BadNumber => "BadNumber",
        MpsRule::NotWhole => "NotWhole",
        MpsRule::TooLarge => "TooLarge",
        MpsRule::DuplicateEntry => "DuplicateEntry",
        MpsRule::ObjectiveConstant => "ObjectiveConstant",
        MpsRule::NoEnd => "NoEnd",
        MpsRule::TooLong => "TooLong",
        MpsRule::NoObjective => "NoObjective",
        MpsRule::Continuous => "Continuous",
        MpsRule::Unbounded => "Unbounded",
        MpsRule::NegativeUpper => "NegativeUpper",
        MpsRule::EmptyBounds => "EmptyBounds",
    }
}

/// The fault of an auxiliary text.
pub(crate) fn aux_fault(fault: AuxFault) -> TextFault
    ensures place { place_of result.place ≡ line_place fault.line }
    ensures rule { result.rule.now ≡ aux_rule fault.rule }
{
    TextFault {
        place: line_place(fault.line),
        rule: aux_rule(fault.rule),
    }
}

/// The line, where there is one.
fn line_place(line: u64) -> Place
    ensures { place_of result ≡ line_place line }
{
    if line == 0 {
        Place::Whole
    } else {
        Place::Line(line)
    }
}

fn aux_rule(rule: AuxRule) -> &'static str
    ensures { result.now ≡ aux_rule rule }
{
    match rule {
        AuxRule::Unsupported => "Unsupported",
        AuxRule::BadKey => "BadKey",
        AuxRule::BadNumber => "BadNumber",
        AuxRule::NotWhole => "NotWhole",
        AuxRule::TooLarge => "TooLarge",
        AuxRule::OutOfOrder => "OutOfOrder",
        AuxRule::Repeated => "Repeated",
        AuxRule::BadIndex => "BadIndex",
        AuxRule::BadSense => "BadSense",
        AuxRule::CountDiffers => "CountDiffers",
        AuxRule::TooLong => "TooLong",
    }
}

/// A rule of certificates by its name.
pub(crate) fn cert_rule(rule: CertRule) -> &'static str
    ensures { result.now ≡ cert_rule rule }
{
    match rule {
        CertRule::Syntax => "Syntax",
        CertRule::Place => "Place",
        CertRule::Sense => "Sense",
        CertRule::Point => "Point",
        CertRule::Best => "Best",
        CertRule::Follower => "Follower",
        CertRule::Size => "Size",
        CertRule::Inverse => "Inverse",
        CertRule::Tight => "Tight",
        CertRule::Response => "Response",
        CertRule::Cited => "Cited",
        CertRule::Proof => "Proof",
        CertRule::Tail => "Tail",
    }
}
