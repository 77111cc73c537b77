//! Indices that are given once each.
ghost use Rattle.std.specs.Prelude.{◌≡◌, ◌++◌, [], ◌∷◌, length, map, pos, IfOk};
ghost use Rattle.bl_aux.specs.Given.{index_rule};
ghost use Rattle.bl_aux.specs.Drafts.{Steps, place_below};

use crate::fault::AuxRule;
use crate::stop::Stop;
use indexmap::IndexSet;
use std::alloc::{AllocError, Global};
use std::marker::Model;

/// Distinct places below a limit, in the order in which they were entered.
#[derive(Drop)]
pub(crate) struct Places {
    limit: u32,
    places: IndexSet<u32>,
}

impl Model for Places {
    ghost use Rattle.std.specs.Prelude.{◌≡◌, map, pos, nat_lt, true};
    ghost use Rattle.std.specs.List.{list_all};
    ghost use Rattle.bl_aux.specs.Drafts.{PlaceList};

    ghost Value = { PlaceList };

    ghost view = { λ p. record { limit = p.limit; given = map pos p.places.keys } };

    ghost invariant = { λ p. list_all (λ place. nat_lt place p.limit) p.places.keys ≡ true };
}

impl Places {
    pub(crate) fn none(alloc: Global, limit: u32) -> Places
        ensures limit { result.limit ≡ limit }
        ensures given { result.given ≡ [] }
    {
        Places {
            limit,
            places: IndexSet::new(alloc),
        }
    }

    pub(crate) fn limit(&self) -> u32
        ensures { result ≡ self.now.limit }
    {
        self.limit
    }

    pub(crate) fn len(&self) -> usize
        ensures { result ≡ length self.now.given }
    {
        self.places.len()
    }

    /// Enters a number as a place, where it is one and wasn't entered before.
    pub(crate) fn enter(&mut self, number: i128) -> Result<(), Stop>
        ensures { Steps result (index_rule self.old.limit self.old.given number)
            (self.new ≡ record self.old { given = self.old.given ++ number ∷ [] }) }
    {
        let Some(place) = place_below(self.limit, number) else {
            return Err(Stop::Rule(AuxRule::BadIndex));
        };
        if self.places.contains(&place) {
            return Err(Stop::Rule(AuxRule::Repeated));
        }
        self.places.insert(place)?;
        Ok(())
    }

    /// The places in order.
    pub(crate) fn to_vec(&self, alloc: Global) -> Result<Vec<u32>, AllocError>
        ensures { IfOk result (λ places. map pos places.items ≡ self.now.given) }
    {
        Vec::from_slice(alloc, self.places.as_slice())
    }
}

/// The number as a place below the limit.
fn place_below(limit: u32, number: i128) -> Option<u32>
    ensures below { result ≡ place_below limit number }
{
    if number < 0 || number >= i128::from(limit) {
        return None;
    }
    Some(number as u32)
}
