//! Files with their paths, so that a fault of their bytes is reported with the path of the file that has it.

ghost use Rattle.std.specs.Prelude.{◌≡◌};

/// A file that was read whole: its path and its bytes.
#[derive(Drop)]
pub struct ReadFile<'a> {
    pub path: &'a str,
    pub bytes: Vec<u8>,
}

/// A fault of a file, with the file's path.
#[derive(Clone, Copy)]
pub struct FaultOf<'a, F> {
    pub path: &'a str,
    pub fault: F,
}

impl<'a> ReadFile<'a> {
    /// The fault with the path of the file that has it.
    pub fn fault<F>(&self, fault: F) -> FaultOf<'a, F>
        ensures path { result.path.now ≡ self.now.path.now }
        ensures fault { result.fault ≡ fault }
    {
        FaultOf {
            path: self.path,
            fault,
        }
    }
}
