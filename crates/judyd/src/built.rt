//! What the program is made of, as `judyd --version` prints it.

/// `./package` writes the commit and the kit over these bytes in the program itself, and fills the rest
/// with spaces: no source can name its own commit.
pub const BUILT: &str =
    "no package was made of this program: ./package writes the commit and the kit over this text, in its place.";
