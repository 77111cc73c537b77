//! Entries: true answers of the follower.
ghost use Rattle.std.specs.Prelude.{◌≡◌, Some, IfOk, IfErr, MatchOption};
ghost use Rattle.std.specs.Arc.{arc_value};
ghost use Rattle.bl_terms.specs.Responses.{IsLink};
ghost use Rattle.bl_model.specs.View.{IsModel};
ghost use Rattle.bl_fproof.specs.Steps.{nodes_of};
ghost use Rattle.bl_fproof.specs.Entries.{Closes, FailsAt, IsShown, IsAdmitted, IsPointOfCost, IsTrueAnswer};
ghost use Rattle.bl_fproof.specs.Points.{FailsAsPoint};
ghost use Rattle.bl_fproof.specs.Refusals.{IsRefusal};
ghost use Rattle.bl_fproof.specs.declared.entry.AdmitFail.TheVariants.{Memory};

use crate::answered::{Answered, FollowerProof};
use crate::response::is_point_of_cost;
use crate::rows::FollowerRows;
use crate::walk::first_failing_step;
use bl_model::Bilevel;
use std::alloc::{AllocError, Global};
use std::marker::Model;
use std::sync::Arc;

/// What the follower answers to a link of a model. It is true: [`admit`] tests its proof, and [`Entry::make`] asks for
/// it.
#[derive(Debug, Drop)]
pub struct Entry {
    model: Arc<Bilevel, Global>,
    link: Vec<i64>,
    answered: Answered,
}

impl Model for Entry {
    ghost use Rattle.std.specs.Arc.{arc_value};
    ghost use Rattle.bl_fproof.specs.Entries.{Admitted, IsAdmitted};

    ghost Value = { Admitted };

    ghost view = { λ e. record { program = arc_value e.model; link = e.link.items; answered = e.answered } };

    ghost invariant = { λ e. IsAdmitted
        (record { program = arc_value e.model; link = e.link.items; answered = e.answered }) };
}

impl Entry {
    /// The entry of an answer that is known to be shown.
    pub fn make(model: Arc<Bilevel, Global>, link: Vec<i64>, answered: Answered) -> Entry
        requires model { IsModel (arc_value model) }
        requires link { IsLink (arc_value model) link.items }
        requires shown { IsShown (arc_value model) link.items answered }
        ensures { result ≡ record { program = arc_value model; link = link.items; answered = answered } }
    {
        Entry {
            model,
            link,
            answered,
        }
    }

    /// The model.
    pub fn model(&self) -> &Arc<Bilevel, Global>
        ensures value { arc_value result.now ≡ self.now.program }
        ensures admitted { IsAdmitted self.now }
        ensures holds { IsTrueAnswer self.now }
    {
        &self.model
    }

    /// The link: a value for each linking column.
    pub fn link(&self) -> &[i64]
        ensures value { result.now ≡ self.now.link }
        ensures admitted { IsAdmitted self.now }
        ensures holds { IsTrueAnswer self.now }
    {
        &self.link
    }

    /// What the follower answers.
    pub fn answered(&self) -> &Answered
        ensures value { result.now ≡ self.now.answered }
        ensures admitted { IsAdmitted self.now }
        ensures holds { IsTrueAnswer self.now }
    {
        &self.answered
    }
}

/// Why an answer isn't admitted.
#[derive(Debug, Drop)]
pub enum AdmitFail {
    /// Its proof doesn't show it: this step is the first that fails. A response that breaks a row or
    /// has another cost fails at step 0.
    NotShown { node: u64 },
    Memory,
}

impl From<AllocError> for AdmitFail {
    ghost from_gives = { λ _ e. e ≡ Memory };

    fn from(_error: AllocError) -> AdmitFail {
        AdmitFail::Memory
    }
}

/// The first step that fails of the proof of a response.
fn failing_step_of_response(
    alloc: Global,
    rows: &FollowerRows,
    response: &[i64],
    value: i64,
    proof: &FollowerProof,
) -> Result<Option<usize>, AllocError>
    ensures { IfOk result (λ o. MatchOption o
        (IsPointOfCost rows.now response.now value × Closes rows.now (Some value) (nodes_of proof.now.steps))
        (FailsAsPoint rows.now response.now value (nodes_of proof.now.steps))) }
{
    if !is_point_of_cost(alloc, rows, response, value)? {
        return Ok(Some(0));
    }
    first_failing_step(alloc, rows, Some(value), proof.steps.as_slice())
}

/// The first step that fails of an answer's proof.
fn failing_step(
    alloc: Global,
    model: &Bilevel,
    link: &[i64],
    answered: &Answered,
) -> Result<Option<usize>, AllocError>
    requires { IsLink model.now link.now }
    ensures step { IfOk result (λ o.
        MatchOption o (IsShown model.now link.now answered.now) (FailsAt model.now link.now answered.now)) }
    ensures model { IfOk result (λ _. IsModel model.now) }
{
    let rows = FollowerRows::make(alloc, model, link)?;
    match answered {
        Answered::Best {
            response,
            value,
            proof,
        } => {
            let step = failing_step_of_response(alloc, &rows, response.as_slice(), *value, proof)?;
            Ok(step)
        }
        Answered::NoResponse { proof } => {
            let step = first_failing_step(alloc, &rows, None, proof.steps.as_slice())?;
            Ok(step)
        }
    }
}

/// Makes the entry of an answer that its proof shows. At a refusal all that was handed in is given
/// up.
pub fn admit(
    alloc: Global,
    model: Arc<Bilevel, Global>,
    link: Vec<i64>,
    answered: Answered,
) -> Result<Entry, AdmitFail>
    requires { IsLink (arc_value model) link.items }
    ensures ok { IfOk result
        (λ e. e ≡ record { program = arc_value model; link = link.items; answered = answered }) }
    ensures shown { IfOk result (λ _. IsShown (arc_value model) link.items answered) }
    ensures refused { IfErr result (IsRefusal (arc_value model) link.items answered) }
{
    match failing_step(alloc, &model, &link, &answered)? {
        Some(place) => Err(AdmitFail::NotShown { node: place as u64 }),
        None => Ok(Entry {
            model,
            link,
            answered,
        }),
    }
}
