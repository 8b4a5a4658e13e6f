//! Why bytes are no file: the faults of the header, of the tags, of the forms, and of a whole file.

/// Why bytes begin with no header (OFX 1.6, "Open Financial Exchange Headers"). Offsets count from the first byte.
#[derive(Clone, Copy, Debug, PartialEq, Eq)]
pub enum HeaderFault {
    /// The line of this number, from 1, which begins at this offset, doesn't begin with its tag and a colon.
    Line(u8, u64),
    /// The line of this number, from 1, which begins at this offset, has a value that isn't allowed.
    Value(u8, u64),
    /// The bytes, of this number, end before the ninth line does.
    Cut(u64),
}

/// Why bytes are no body (OFX 1.6, "SGML Basics"): the leftmost fault of the tags. Offsets count from the body's first
/// byte.
#[derive(Clone, Copy, Debug, PartialEq, Eq)]
pub enum TapeFault {
    /// A `<` that begins no tag, a byte where no text may be, a control byte, a first tag other than `<OFX>`, or a
    /// start tag after the end of OFX.
    Tag(u64),
    /// An end tag that doesn't close the innermost open aggregate.
    Mismatch(u64),
    /// The start tag of a seventeenth open aggregate.
    Depth(u64),
    /// The body, of this number of bytes, ends unfinished.
    Cut(u64),
    /// Memory was refused.
    OutOfMemory,
}

/// Why an element or aggregate doesn't have its form. Offsets are those of the `<` of start tags, from the body's first
/// byte.
#[derive(Clone, Copy, Debug, PartialEq, Eq)]
pub enum TreeFault {
    /// A child that must be there is missing: the parent's offset.
    Missing(u64),
    /// A child occurs twice that may occur once: the second one's offset.
    Repeated(u64),
    /// A value or a form that isn't read: the child's offset.
    Value(u64),
    /// Memory was refused.
    OutOfMemory,
}

/// Why bytes are no file. Offsets count from the file's first byte.
#[derive(Clone, Copy, Debug, PartialEq, Eq)]
pub enum FileFault {
    /// A fault of the header.
    Header(u64),
    /// A fault of the tags.
    Syntax(u64),
    /// A fault of the forms.
    Form(u64),
    /// Memory was refused.
    OutOfMemory,
}
