//! Where a line stands, as far as its rules ask.
ghost use Rattle.std.specs.Prelude.{IfOk};
ghost use Rattle.bl_check_walk.specs.Sites.{IsSite};

use bl_certtext::Part;
use bl_model::Box2;
use std::alloc::{AllocError, Global};
use std::sync::Arc;

/// Where a line stands.
#[derive(Drop)]
pub enum Site {
    /// In a tree of the follower, at this box.
    FollowerTree(Arc<Box2, Global>),
    /// In the tree, at this box.
    Tree(Arc<Box2, Global>),
    /// Elsewhere: the line itself tells where.
    Elsewhere,
}

impl Site {
    /// The site of a line at the part.
    pub fn of(part: &Part) -> Result<Site, AllocError>
        ensures { IfOk result (IsSite part.now) }
    {
        match part {
            Part::FollowerTree { area } => Ok(Site::FollowerTree(area.area().clone()?)),
            Part::Tree { area, .. } => Ok(Site::Tree(area.area().clone()?)),
            _ => Ok(Site::Elsewhere),
        }
    }
}
