//! Commands that print a text of a program, or the refusal of an image that is none.

ghost use Rattle.std.specs.Prelude.{◌≡◌, ℕ, List, [], IfOk};
ghost use Rattle.omf_model.specs.declared.symbols.Public.{Public};
ghost use Rattle.verify80.specs.Vouched.{Voucher};
ghost use Rattle.plm80_names.specs.Verdict.{AnswersVerdict};
ghost use Rattle.plm80_programs.specs.Printed.{PrintsText};

use image80::Image;
use loader80::Vouched;
use plm80_console::Answer;
use plm80_names::{Names, Verdict, judge};
use std::alloc::{AllocError, Global};

/// What a command prints of a program that the verifier accepts.
pub trait Printing {
    // What the text says of a program with these names.
    ghost says: { Self → List Public → Voucher → List ℕ → Type 0 };

    /// The text of a program. `AllocError` only if memory runs out.
    fn text(self, alloc: Global, vouched: &Vouched, names: &Names) -> Result<Vec<u8>, AllocError>
        ensures { IfOk result (λ text. says self names.now vouched.now text.items) };
}

/// What a command answers of `image`: the text of its program, with status 0; the line of its refusal if the verifier refuses it.
pub fn answer_of<P: Printing + Drop>(
    alloc: Global,
    image: Image,
    names: &Names,
    printing: P,
) -> Result<Answer<'static>, AllocError>
    ensures { IfOk result (AnswersVerdict (λ program. PrintsText (P.says printing names.now program)) image names.now) }
{
    match judge(alloc, image, names)? {
        Verdict::Accepted(vouched) => {
            let text = printing.text(alloc, &vouched, names)?;
            Ok(Answer::prints(text, 0))
        }
        Verdict::Refused(line) => Ok(Answer::prints(line, 1)),
    }
}
