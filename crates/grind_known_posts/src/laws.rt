//! What holds of what is known. Each law is a call without a body: its caller knows the law.
ghost use Rattle.grind_known_posts.specs.Laws.{KnownFits};

/// What is known by posts over the active nodes fits the classes that the posts make.
pub fn known_fits()
    ensures { KnownFits }
{}
