//! What a dump seems to be, in words, if it isn't bytes as they are.

ghost use Rattle.std.specs.Prelude.{◌≡◌, ◌↔◌, ℕ, List, Some, true, IfSome};
ghost use Rattle.rom80.specs.DumpKinds.{dump_kind};

use plm80_console::Console;
use rom80::DumpKind;
use std::fmt;
use std::fmt::{Display, Formatter};

/// Words on a dump that doesn't seem to be raw bytes: what it seems to be, and which command makes raw bytes of it.
#[derive(Clone, Copy)]
pub(crate) struct DumpWords<'a> {
    path: &'a str,
    kind: DumpKind,
}

impl<'a> DumpWords<'a> {
    /// Words on the dump of this path. `None` if it seems to be raw bytes, if it can't be read again, or if words aren't asked for.
    pub(crate) fn of<C: Console>(console: &C, path: &'a str) -> Option<DumpWords<'a>>
        ensures path { IfSome result (λ words. words.path.now ≡ path.now) }
        ensures kind { IfSome result (λ words. (bytes : List ℕ) × (dump_kind bytes ≡ Some words.kind)) }
    {
        let bytes = console.text_to_explain(path)?;
        let kind = DumpKind::of(&bytes)?;
        Some(DumpWords { path, kind })
    }

    /// Whether the words are on a dump that seems to be an object file.
    pub(crate) fn is_of_object_file(self) -> bool
        ensures { (result ≡ true) ↔ (self.entry.kind ≡ DumpKind.ObjectFile) }
    {
        matches!(self.kind, DumpKind::ObjectFile)
    }
}

impl<'a> Display for DumpWords<'a> {
    fn fmt<W: fmt::Write>(&self, formatter: &mut Formatter<W>) -> fmt::Result {
        let path = self.path;
        let (seems, command, options) = match self.kind {
            DumpKind::IntelHex => (
                "Intel HEX; its bytes",
                "objcopy -I ihex -O binary --gap-fill 0xFF",
                "",
            ),
            DumpKind::SRecords => (
                "S-records; their bytes",
                "objcopy -I srec -O binary --gap-fill 0xFF",
                "",
            ),
            DumpKind::HexDump => ("a text of xxd; its bytes", "xxd -r", ""),
            DumpKind::PlainHexDump => ("hexadecimal digits; their bytes", "xxd -r -p", ""),
            DumpKind::ObjectFile => (
                "an object file; an image's bytes",
                "plm80 extract",
                " --first FIRST --length LENGTH",
            ),
        };
        write!(
            formatter,
            "{path} seems to be {seems}: {command} {path} {path}.rom{options}"
        )
    }
}
