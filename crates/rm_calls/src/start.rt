//! What files held when they were opened.

/// What the five files held when they were opened. A function over `S: Start` is proved for all contents, which no code
/// can read.
pub trait Start: Drop {
    ghost use Rattle.rm_outside.specs.Images.{Image};

    ghost image: { Image };
}

/// A content for a program to name.
#[derive(Drop)]
pub struct Unknown;

impl Start for Unknown {
    ghost image = { λ _ _. 0 };
}
