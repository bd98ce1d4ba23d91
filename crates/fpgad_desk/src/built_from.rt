//! What the program was built from. `./install` writes the commit and the kit here before it builds
//! the program, and empties the text afterwards: a build from a checkout has its bytes alone.

/// The commit and the kit, in brackets; empty in a checkout.
pub(crate) const BUILT_FROM: &str = "";
