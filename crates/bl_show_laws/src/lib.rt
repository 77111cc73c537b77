//! Laws over what the command `show` prints.
#![tactic(auto)]

#[cfg(test)]
mod tests;

ghost use Rattle.bl_show_laws.specs.ShowsBack.{ShowsBack};

/// What `show` prints of the model and the follower of two texts, says that model and that follower again.
pub fn shows_back()
    ensures { ShowsBack }
{}
