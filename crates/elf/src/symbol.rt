// The symbols and version needs of an object, with names that are borrowed from where they were read.

// A symbol that an object defines.
#[derive(Clone, Copy)]
pub struct Definition<'a> {
    pub number: u16,
    pub name: &'a [u8],
    pub index: u16,
    pub hidden: bool,
    pub weak: bool,
    pub protected: bool,
    pub version: Option<&'a [u8]>,
}

// A symbol that an object refers to.
#[derive(Clone, Copy)]
pub struct Reference<'a> {
    pub number: u16,
    pub name: &'a [u8],
    pub weak: bool,
    pub protected: bool,
    pub own: bool,
    pub version: Option<&'a [u8]>,
}

// A version that an object needs of a file.
#[derive(Clone, Copy)]
pub struct VersionNeed<'a> {
    pub file: &'a [u8],
    pub version: &'a [u8],
    pub weak: bool,
}

// What is looked up: a name, and a version or none.
#[derive(Clone, Copy)]
pub struct Wanted<'a> {
    pub name: &'a [u8],
    pub version: Option<&'a [u8]>,
}
