/// The most bytes of the text of a design.
pub const MOST_DESIGN_TEXT: usize = 201_326_592;
