// What is looked up of a struct.

/// A struct, found by its name: the number of its layout, and how many cells an element has.
#[derive(Clone, Copy)]
pub struct StructRow {
    pub layout: u32,
    pub cells: u32,
}
