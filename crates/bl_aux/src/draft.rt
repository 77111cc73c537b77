//! What the lines so far give.
ghost use Rattle.std.specs.Prelude.{◌≡◌, ◌↔◌, [], ◌∷◌, false, pos, Some, IfOk, IsTrue, MatchOption};
ghost use Rattle.std.specs.Option.{option_map, option_to_list};
ghost use Rattle.bl_aux.specs.Lines.{is_large};
ghost use Rattle.bl_aux.specs.Given.{entry_rule, count_rule, sense_rule, is_out_of_order, given_by};
ghost use Rattle.bl_aux.specs.Texts.{CountsAgree, IsGiven, sense_of};
ghost use Rattle.bl_aux.specs.Drafts.{Steps, with_entry};

use crate::fault::AuxRule;
use crate::keys::Key;
use crate::line::Entry;
use crate::places::Places;
use crate::stop::Stop;
use bl_raw::{Listed, RawAux};
use std::alloc::{AllocError, Global};
use std::marker::Model;

/// What the lines so far give, for a model with so many columns and rows.
#[derive(Drop)]
pub(crate) struct Draft {
    column_count: Option<u32>,
    row_count: Option<u32>,
    columns: Places,
    rows: Places,
    costs: Vec<i64>,
    sense: Option<i64>,
}

impl Model for Draft {
    ghost use Rattle.std.specs.Prelude.{pos};
    ghost use Rattle.std.specs.Option.{option_map, option_to_list};
    ghost use Rattle.bl_aux.specs.Drafts.{Holding};

    ghost Value = { Holding };

    ghost view = { λ d. record {
      sizes = record { columns = d.columns.limit; rows = d.rows.limit };
      given = record {
        column_counts = option_to_list (option_map pos d.column_count);
        row_counts = option_to_list (option_map pos d.row_count);
        columns = d.columns.given;
        rows = d.rows.given;
        costs = d.costs.items;
        senses = option_to_list d.sense;
      };
    } };
}

impl Draft {
    /// Before the first line.
    pub(crate) fn none(alloc: Global, columns: u32, rows: u32) -> Draft
        ensures { result ≡ record { sizes = record { columns = columns; rows = rows }; given = given_by [] } }
    {
        Draft {
            column_count: None,
            row_count: None,
            columns: Places::none(alloc, columns),
            rows: Places::none(alloc, rows),
            costs: Vec::new(alloc),
            sense: None,
        }
    }

    /// Whether `N` or `M` still has to stand before a line with this key.
    fn is_out_of_order(&self, key: Key) -> bool
        ensures { result ≡ is_out_of_order self.now.given key }
    {
        if self.column_count.is_none() {
            !matches!(key, Key::N)
        } else {
            self.row_count.is_none() && !matches!(key, Key::M)
        }
    }

    /// Whether the counts that are announced are those of the lines that followed.
    fn counts_agree(&self) -> bool
        ensures { IsTrue result ↔ CountsAgree self.now.given }
    {
        announces(self.column_count, self.columns.len())
            && announces(self.row_count, self.rows.len())
            && self.costs.len() == self.columns.len()
    }

    /// What is given, as a follower, where the counts agree.
    pub(crate) fn finish(self, alloc: Global) -> Result<Option<RawAux>, AllocError>
        ensures { IfOk result (λ found. MatchOption found (CountsAgree self.given → ⊥)
            (λ aux. CountsAgree self.given × IsGiven self.given aux)) }
    {
        if !self.counts_agree() {
            return Ok(None);
        }
        let columns = self.columns.to_vec(alloc)?;
        let rows = self.rows.to_vec(alloc)?;
        Ok(Some(RawAux {
            columns: Listed::new(columns),
            rows: Listed::new(rows),
            costs: Listed::new(self.costs),
            sense: sense_of(self.sense),
        }))
    }

    /// Enters what a line says, or tells which rule it breaks given the lines before it.
    #[tactic(auto, unfolding(crate::specs::Given::entry_rule))]
    pub(crate) fn enter(&mut self, entry: Entry) -> Result<(), Stop>
        requires { is_large entry.key entry.number ≡ false }
        ensures { Steps result (entry_rule self.old.sizes self.old.given entry) (self.new ≡ with_entry self.old entry) }
    {
        if self.is_out_of_order(entry.key) {
            return Err(Stop::Rule(AuxRule::OutOfOrder));
        }
        match entry.key {
            Key::N => enter_count(&mut self.column_count, self.columns.limit(), entry.number),
            Key::M => enter_count(&mut self.row_count, self.rows.limit(), entry.number),
            Key::Lc => self.columns.enter(entry.number),
            Key::Lr => self.rows.enter(entry.number),
            Key::Lo => {
                self.costs.push(entry.number as i64)?;
                Ok(())
            }
            Key::Os => enter_sense(&mut self.sense, entry.number),
        }
    }
}

/// The sense, which is to minimise where none is given.
fn sense_of(sense: Option<i64>) -> i64
    ensures { result ≡ sense_of (option_to_list sense) }
{
    match sense {
        Some(sense) => sense,
        None => 1,
    }
}

/// Whether this count is announced.
fn announces(count: Option<u32>, lines: usize) -> bool
    ensures { IsTrue result ↔ (option_to_list (option_map pos count) ≡ pos lines ∷ []) }
{
    count.is_some_and(|count| count as usize == lines)
}

/// Enters a count, which is given once and is at most the model's.
fn enter_count(count: &mut Option<u32>, most: u32, number: i128) -> Result<(), Stop>
    ensures { Steps result (count_rule most (option_to_list (option_map pos count.old)) number)
        (option_map pos count.new ≡ Some number) }
{
    if count.is_some() {
        return Err(Stop::Rule(AuxRule::Repeated));
    }
    if number < 0 || number > i128::from(most) {
        return Err(Stop::Rule(AuxRule::BadIndex));
    }
    *count = Some(number as u32);
    Ok(())
}

/// Enters the sense, which is given once.
fn enter_sense(sense: &mut Option<i64>, number: i128) -> Result<(), Stop>
    ensures { Steps result (sense_rule (option_to_list sense.old) number) (sense.new ≡ Some number) }
{
    if sense.is_some() {
        return Err(Stop::Rule(AuxRule::Repeated));
    }
    if number != 1 && number != -1 {
        return Err(Stop::Rule(AuxRule::BadSense));
    }
    *sense = Some(number as i64);
    Ok(())
}
