//! The kinds of record.

ghost use Rattle.std.specs.Prelude.{◌≡◌, ◌≢◌, IfSome, IfNone};
ghost use Rattle.omf_core.specs.declared.kind.RecordKind.{RecordKind};
ghost use Rattle.omf_core.specs.Kind.{kind_byte};

/// The kinds of record that the standard has (8080 Object Module Formats, record types).
#[derive(Clone, Copy, PartialEq, Eq)]
pub enum RecordKind {
    /// The module's name and segments; the first record of a module.
    ModuleHeader = 0x02,
    /// The start of a main program; the last record of a module.
    ModuleEnd = 0x04,
    /// Bytes of a segment.
    Content = 0x06,
    /// Line numbers of the source, for debuggers.
    LineNumbers = 0x08,
    /// The last record of a file.
    EndOfFile = 0x0E,
    /// The name of the module whose symbols and line numbers follow, for debuggers.
    Ancestor = 0x10,
    /// Names that only debuggers need.
    LocalSymbols = 0x12,
    /// Names that the module declares for others, with their places.
    PublicDeclarations = 0x16,
    /// Names that the module needs from others.
    ExternalNames = 0x18,
    /// References to externals in the content before.
    ExternalReferences = 0x20,
    /// References in the content before to its own segment.
    Relocation = 0x22,
    /// References in the content before to another segment.
    IntersegmentReferences = 0x24,
    /// The places of a library's modules in its file.
    LibraryModuleLocations = 0x26,
    /// The names of a library's modules.
    LibraryModuleNames = 0x28,
    /// The publics of each module of a library.
    LibraryDictionary = 0x2A,
    /// The number of a library's modules and the place of its index.
    LibraryHeader = 0x2C,
    /// The ids and names of the module's named commons.
    NamedCommons = 0x2E,
}

impl RecordKind {
    /// The type byte of a record of this kind.
    pub fn byte(self) -> u8
        ensures { result ≡ kind_byte self }
    {
        self as u8
    }

    /// The kind whose records have this type byte; `None` if the standard has no such kind.
    pub fn from_byte(byte: u8) -> Option<RecordKind>
        ensures kind { IfSome result (λ kind. kind_byte kind ≡ byte) }
        ensures unknown { IfNone result ((kind : RecordKind) → kind_byte kind ≢ byte) }
    {
        match byte {
            0x02 => Some(RecordKind::ModuleHeader),
            0x04 => Some(RecordKind::ModuleEnd),
            0x06 => Some(RecordKind::Content),
            0x08 => Some(RecordKind::LineNumbers),
            0x0E => Some(RecordKind::EndOfFile),
            0x10 => Some(RecordKind::Ancestor),
            0x12 => Some(RecordKind::LocalSymbols),
            0x16 => Some(RecordKind::PublicDeclarations),
            0x18 => Some(RecordKind::ExternalNames),
            0x20 => Some(RecordKind::ExternalReferences),
            0x22 => Some(RecordKind::Relocation),
            0x24 => Some(RecordKind::IntersegmentReferences),
            0x26 => Some(RecordKind::LibraryModuleLocations),
            0x28 => Some(RecordKind::LibraryModuleNames),
            0x2A => Some(RecordKind::LibraryDictionary),
            0x2C => Some(RecordKind::LibraryHeader),
            0x2E => Some(RecordKind::NamedCommons),
            _ => None,
        }
    }
}
