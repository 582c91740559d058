// What objects and references say of themselves in numbers and flags; by default all is 0 or false.

// Whether an object is symbolic, and how many needed entries, version needs and references it has.
#[derive(Clone, Copy, PartialEq, Eq, Debug, Default)]
pub struct ObjectHead {
    pub symbolic: bool,
    pub needed: usize,
    pub needs: usize,
    pub references: usize,
}

// The symbol number and the flags of a reference.
#[derive(Clone, Copy, PartialEq, Eq, Debug, Default)]
pub struct ReferenceHead {
    pub number: u16,
    pub weak: bool,
    pub protected: bool,
    pub own: bool,
}
