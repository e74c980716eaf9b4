use sg_words::Addr;

/// A standing object.
#[derive(Clone, Copy, Debug, PartialEq, Eq)]
pub struct Object {
    /// Its byte address.
    pub at: Addr,
    /// Its class's place among the shapes of the space.
    pub class: u16,
    /// How many fields it has.
    pub fields: u32,
    /// How many words it has: 2 more than fields.
    pub words: u32,
}
